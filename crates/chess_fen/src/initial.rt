//! The initial position of normal chess.

ghost use Rattle.std.specs.Prelude.{◌≡◌, ◌↔◌, IsTrue};
ghost use Rattle.chess_base.specs.Initial.{initial_setup};
ghost use Rattle.std.specs.Str.{bytes_eq};
ghost use Rattle.chess_fen.specs.Writing.{fen, is_initial};

use crate::writing::write_fen;
use chess_base::Position;

// Whether two positions have the same FEN.
fn has_fen_of(position: &Position, other: &Position) -> bool
    ensures { result ≡ bytes_eq (fen position.now) (fen other.now) }
{
    write_fen(position).as_slice() == write_fen(other).as_slice()
}

/// Whether a position is the initial position of normal chess, `Position::initial`. The FENs are compared: no two
/// positions of normal chess have the same, and no position of Chess960 has this one, since a FEN of Chess960 names
/// rights by files, never by `KQkq`.
pub fn is_initial(start: &Position) -> bool
    ensures value { result ≡ is_initial start.now }
    ensures exact { IsTrue result ↔ start.now ≡ initial_setup }
{
    let initial = Position::initial();
    // The prover wants this fact of both positions: they are sound.
    let _start = start.setup();
    let _initial = initial.setup();
    has_fen_of(start, &initial)
}
