//! Writing a position as FEN (PGN standard of 1994, section 16.1).

ghost use Rattle.std.specs.Prelude.{◌≡◌, ℕ, ◌+◌, ◌*◌, ◌<◌, ◌≤◌, ◌^◌, ◌∷◌, [], ◌++◌, length, decimal};
ghost use Rattle.arrayvec.specs.ArrayVec.{array_vec_len};
ghost use Rattle.chess_fen.specs.Writing.{fen_rank, placement_text, side_text, rights_text, target_text, fen};
ghost use Rattle.chess_fen.specs.shared.RightTexts.{right_text};
ghost use Rattle.chess_fen.specs.shared.Rows.{run_text};

use crate::castling_rights::right_letter;
use arrayvec::ArrayVec;
use chess_base::{CastlingSide, Colour, Man, Position, Rights, Square, Variant};
use itoa::Buffer;

/// The text of a FEN: at most 95 bytes, in a buffer of 100.
pub type FenText = ArrayVec<u8, 100>;

// Appends the digit for a run of `empty` empty squares; nothing for 0.
fn write_run(out: &mut FenText, empty: u8)
    requires few { empty < 10 }
    requires room { array_vec_len out.old + empty ≤ 100 }
    ensures text { out.new.items ≡ out.old.items ++ run_text empty }
    ensures len { array_vec_len out.new ≤ array_vec_len out.old + empty }
{
    if empty > 0 {
        out.push(b'0' + empty);
    }
}

// Appends a rank's text, as `4P3`, from its squares from file a to file h.
fn write_rank(out: &mut FenText, row: &[Option<Man>])
    requires few { length row.now ≤ 8 }
    requires room { array_vec_len out.old + length row.now ≤ 100 }
    ensures text { out.new.items ≡ out.old.items ++ fen_rank row.now }
    ensures len { array_vec_len out.new ≤ array_vec_len out.old + length row.now }
{
    let mut empty = 0;
    for square in row {
        match square {
            None => empty += 1,
            Some(man) => {
                write_run(out, empty);
                empty = 0;
                out.push(man.letter());
            }
        }
    }
    write_run(out, empty);
}

// Appends a FEN's first field, the pieces: the eight ranks, rank 8 first, with `/` between them.
fn write_placement(out: &mut FenText, men: &[Option<Man>; 64])
    requires room { array_vec_len out.old + 71 ≤ 100 }
    ensures text { out.new.items ≡ out.old.items ++ placement_text men.now }
    ensures len { array_vec_len out.new ≤ array_vec_len out.old + 71 }
{
    for rank in (0..8).rev() {
        write_rank(out, &men[8 * rank..8 * rank + 8]);
        if rank > 0 {
            out.push(b'/');
        }
    }
}

// Appends a FEN's second field, the side on move: `w` or `b`.
fn write_side(out: &mut FenText, side: Colour)
    requires room { array_vec_len out.old < 100 }
    ensures text { out.new.items ≡ out.old.items ++ side_text side }
    ensures len { array_vec_len out.new ≤ array_vec_len out.old + 1 }
{
    out.push(match side {
        Colour::White => b'w',
        Colour::Black => b'b',
    });
}

// Appends the letter of a colour's castling right on a side, given as its rook's square; nothing if there is no right
// (`None`).
fn write_right(
    out: &mut FenText,
    variant: Variant,
    colour: Colour,
    castling_side: CastlingSide,
    right: Option<Square>,
)
    requires room { array_vec_len out.old < 100 }
    ensures text { out.new.items ≡ out.old.items ++ right_text variant colour castling_side right }
    ensures len { array_vec_len out.new ≤ array_vec_len out.old + 1 }
{
    if let Some(rook) = right {
        out.push(right_letter(variant, colour, castling_side, rook));
    }
}

// Appends a FEN's third field: the letters of White's castling rights on the king's side and on the queen's, then of
// Black's, or `-` if there is none.
fn write_rights(out: &mut FenText, variant: Variant, rights: Rights)
    requires room { array_vec_len out.old + 4 ≤ 100 }
    ensures text { out.new.items ≡ out.old.items ++ rights_text variant rights }
    ensures len { array_vec_len out.new ≤ array_vec_len out.old + 4 }
{
    let before = out.len();
    write_right(
        out,
        variant,
        Colour::White,
        CastlingSide::KingSide,
        rights.white.king_side,
    );
    write_right(
        out,
        variant,
        Colour::White,
        CastlingSide::QueenSide,
        rights.white.queen_side,
    );
    write_right(
        out,
        variant,
        Colour::Black,
        CastlingSide::KingSide,
        rights.black.king_side,
    );
    write_right(
        out,
        variant,
        Colour::Black,
        CastlingSide::QueenSide,
        rights.black.queen_side,
    );
    if out.len() == before {
        out.push(b'-');
    }
}

// Appends a FEN's fourth field: the name of the en passant target, or `-`.
fn write_target(out: &mut FenText, target: Option<Square>)
    requires room { array_vec_len out.old + 2 ≤ 100 }
    ensures text { out.new.items ≡ out.old.items ++ target_text target }
    ensures len { array_vec_len out.new ≤ array_vec_len out.old + 2 }
{
    match target {
        None => out.push(b'-'),
        Some(square) => {
            let [file, rank] = square.letters();
            out.push(file);
            out.push(rank);
        }
    }
}

// Appends a number of at most six digits, without leading zeros.
#[tactic(auto, using(crate::proofs::Lengths::short_decimal))]
fn write_number(out: &mut FenText, number: u32)
    requires few { number < 1000000 }
    requires room { array_vec_len out.old + 6 ≤ 100 }
    ensures text { out.new.items ≡ out.old.items ++ decimal number }
    ensures len { array_vec_len out.new ≤ array_vec_len out.old + 6 }
{
    let mut buffer = Buffer::new();
    out.try_extend_from_slice(buffer.format(number).as_bytes())
        .unwrap();
}

/// The one FEN that is written for a position (PGN standard of 1994, section 16.1): six fields with one space between,
/// the rights in the order `KQkq`, in Chess960 by their rooks' files, the target as the position holds it, whether or
/// not a pawn may take there, and numbers without leading zeros.
pub fn write_fen(position: &Position) -> FenText
    ensures text { result.items ≡ fen position.now }
    ensures len { array_vec_len result ≤ 95 }
{
    let setup = position.setup();
    let mut out = FenText::new();
    write_placement(&mut out, &setup.men);
    out.push(b' ');
    write_side(&mut out, setup.side);
    out.push(b' ');
    write_rights(&mut out, setup.variant, setup.rights);
    out.push(b' ');
    write_target(&mut out, setup.target);
    out.push(b' ');
    write_number(&mut out, setup.halfmove);
    out.push(b' ');
    write_number(&mut out, setup.fullmove);
    out
}
