//! The texts of tags, and how a game ended.

ghost use Rattle.chess_game.specs.declared.tags.TheConstants.{TAG_LEN};
ghost use Rattle.std.specs.Prelude.{◌≡◌, ◌≤◌, length, map};
ghost use Rattle.chess_game.specs.Results.{cut_tag, IsTagText};
ghost use Rattle.byte_devices.specs.Bytes.{shown_byte};

use arrayvec::ArrayVec;
use byte_devices::shown_byte;
use std::marker::Model;

// The greatest length of a tag's text, in bytes.
const TAG_LEN: usize = 60;

/// The value of a PGN tag, such as a player's name: at most 60 printable bytes of ASCII. In contracts it is the list of
/// its bytes.
// A type beside `Comment`, in which braces are replaced too: one for both would need a parameter for the bytes kept.
#[derive(Drop)]
pub struct TagText {
    text: ArrayVec<u8, 60>,
}

impl Model for TagText {
    ghost use Rattle.std.specs.Prelude.{ℕ, List};
    ghost use Rattle.chess_game.specs.Results.{IsTagText};

    ghost Value = { List ℕ };

    ghost view = { λ t. t.text.items };

    ghost invariant = { λ t. IsTagText t.text.items };
}

impl TagText {
    /// The text as a tag keeps it: its first 60 bytes, with `?` for each that is not printable ASCII (32 to 126).
    pub fn cut(text: &[u8]) -> Self
        ensures { result ≡ cut_tag text.now }
    {
        TagText {
            text: tag_bytes(&text[..TAG_LEN.min(text.len())]),
        }
    }

    /// The text's bytes, not escaped: no backslash is put before a quote or backslash.
    pub fn as_bytes(&self) -> &[u8]
        ensures value { result.now ≡ self.now }
        ensures valid { IsTagText self.now }
    {
        self.text.as_slice()
    }
}

// The bytes as a tag keeps them: with `?` in place of each that is not printable ASCII.
fn tag_bytes(bytes: &[u8]) -> ArrayVec<u8, 60>
    requires { length bytes.now ≤ TAG_LEN }
    ensures { result.items ≡ map shown_byte bytes.now }
{
    let mut kept = ArrayVec::new();
    for byte in bytes {
        kept.push(shown_byte(*byte));
    }
    kept
}

/// How a game ended, for the PGN tag Termination (PGN standard of 1994, section 9.8.1).
#[derive(Clone, Copy, Debug, PartialEq, Eq)]
pub enum HowEnded {
    /// On the board, or by agreement or resignation.
    Normal,
    /// The loser's time was used up.
    TimeForfeit,
    /// The loser did not keep to the rules.
    RulesInfraction,
}
