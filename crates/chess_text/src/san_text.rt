//! The SAN of a move as a type of its own.

ghost use Rattle.std.specs.Prelude.{◌≡◌, Some, IsTrue};
ghost use Rattle.std.specs.Str.{IsAscii};
ghost use Rattle.chess_base.specs.Moves.{is_legal};
ghost use Rattle.chess_text.specs.San.{san};

use crate::writing::{SanText, san};
use chess_base::Move;
use chess_moves::Board;
use std::marker::Model;
use std::{fmt, str};

/// The SAN of a move, to show and compare: two to seven bytes of ASCII. In contracts it is the list of its bytes.
///
/// ```
/// if board.is_legal(&m) {
///     println!(rt; "{}", San::of(&mut board, m))?;
/// }
/// ```
#[derive(Clone, PartialEq, Eq, Hash, Drop)]
pub struct San {
    text: SanText,
}

impl Model for San {
    ghost use Rattle.std.specs.Prelude.{ℕ, List};
    ghost use Rattle.std.specs.Str.{IsAscii};

    ghost Value = { List ℕ };

    ghost view = { λ s. s.text.items };

    ghost invariant = { λ s. IsAscii s.text.items };

    ghost inverse = { λ bytes. record { text = record { items = bytes } } };
}

impl San {
    /// The SAN of a legal move, as `Nbxd2+`: the text that [`san`] writes. The board is left at its position.
    pub fn of<B: Board>(board: &mut B, m: Move) -> Self
        requires { IsTrue (is_legal (B.position board.old) m) }
        ensures text { result ≡ san (B.position board.old) m }
        ensures back { B.position board.new ≡ B.position board.old }
    {
        // The prover wants this fact: the position is sound, so its SAN is ASCII.
        let _sound = board.setup();
        San {
            text: san(board, m),
        }
    }

    /// The SAN as text.
    pub fn as_str(&self) -> &str
        ensures { result.now ≡ self.now }
    {
        match str::from_utf8(self.as_bytes()) {
            Ok(text) => text,
            // All its bytes are ASCII.
            Err(_) => unreachable!(),
        }
    }

    /// The SAN as bytes.
    pub fn as_bytes(&self) -> &[u8]
        ensures value { result.now ≡ self.now }
        ensures ascii { IsAscii self.now }
    {
        self.text.as_slice()
    }
}

impl fmt::Display for San {
    ghost output = { λ s. Some s };

    // Writes the SAN, as `Nbxd2+`.
    fn fmt<W: fmt::Write>(&self, f: &mut fmt::Formatter<W>) -> fmt::Result {
        f.write_str(self.as_str())
    }
}

impl fmt::Debug for San {
    // Writes the SAN in quotes.
    fn fmt<W: fmt::Write>(&self, f: &mut fmt::Formatter<W>) -> fmt::Result {
        f.debug_tuple("San").field(&self.as_str()).finish()
    }
}
