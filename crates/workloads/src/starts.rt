//! Positions from which walks start.

ghost use Rattle.std.specs.Prelude.{◌<◌};

use crate::random::Random;
use arrayvec::ArrayVec;
use byte_devices::append;
use chess_base::{Position, Variant};
use chess_fen::{read_fen, read_fen_as};

// The part of a FEN between the ranks of pieces, in a starting position of Chess960.
const MIDDLE: &[u8] = b"/pppppppp/8/8/8/8/PPPPPPPP/";

// The index of the first empty square of a rank, from the index `from` on and then from the rank's beginning; 0 if
// there is none.
fn free_from(rank: &[u8; 8], from: usize) -> usize
    ensures { result < 8 }
{
    for step in 0..8 {
        let at = (from % 8 + step) % 8;
        if rank[at] == b' ' {
            return at;
        }
    }
    0
}

// Puts a piece, by its letter in a FEN, on the first empty square of the rank from a random one on.
fn put(rank: &mut [u8; 8], letter: u8, random: &mut Random) {
    let at = free_from(rank, random.below(8) % 8);
    rank[at] = letter;
}

// The back rank of a random starting position of Chess960, in the small letters of a FEN: the bishops are on squares of
// both colours, and the king is between the rooks.
fn first_rank(random: &mut Random) -> [u8; 8] {
    let mut rank = [b' '; 8];
    rank[random.below(4) % 4 * 2] = b'b';
    rank[random.below(4) % 4 * 2 + 1] = b'b';
    put(&mut rank, b'q', random);
    put(&mut rank, b'n', random);
    put(&mut rank, b'n', random);
    for letter in b"rkr" {
        let at = free_from(&rank, 0);
        rank[at] = *letter;
    }
    rank
}

// The letters of a rank as capitals.
fn in_capitals(rank: &[u8; 8]) -> [u8; 8] {
    let mut capitals = [b' '; 8];
    for at in 0..8 {
        capitals[at] = rank[at].to_ascii_uppercase();
    }
    capitals
}

/// A random starting position of Chess960.
pub fn fischerandom_start(random: &mut Random) -> Position {
    let rank = first_rank(random);
    let mut fen: ArrayVec<u8, 80> = ArrayVec::new();
    append(&mut fen, &rank);
    append(&mut fen, MIDDLE);
    append(&mut fen, &in_capitals(&rank));
    append(&mut fen, b" w KQkq - 0 1");
    match read_fen_as(Variant::Fischerandom, fen.as_slice()) {
        Ok(position) => position,
        Err(_) => Position::initial_of(Variant::Fischerandom),
    }
}

/// Positions with many queens: nine a side, nine of White alone, six a side.
pub const QUEENS: [&[u8]; 3] = [
    b"4qqqk/5qqq/5qqq/8/8/QQQ5/QQQ5/KQQQ4 w - - 0 1",
    b"R6R/3Q4/1Q4Q1/4Q3/2Q4Q/Q4Q2/pp1Q4/kBNN1KB1 w - - 0 1",
    b"q3k2q/1q4q1/2q2q2/8/8/2Q2Q2/1Q4Q1/Q3K2Q w - - 0 1",
];

/// The position of a FEN of normal chess; the initial one if the text is no such FEN.
pub fn start_of(fen: &[u8]) -> Position {
    match read_fen(fen) {
        Ok(position) => position,
        Err(_) => Position::initial(),
    }
}
