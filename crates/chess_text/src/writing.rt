//! Writing a move in SAN (PGN standard of 1994, section 8.2.3).

ghost use Rattle.std.specs.Prelude.{◌≡◌, ◌+◌, ◌≤◌, ◌<◌, ◌∷◌, [], ◌++◌, false, length, IsTrue};
ghost use Rattle.arrayvec.specs.ArrayVec.{array_vec_len};
ghost use Rattle.chess_base.specs.Letters.{square_text};
ghost use Rattle.chess_base.specs.declared.man.Kind.TheVariants.{Pawn};
ghost use Rattle.chess_base.specs.Men.{same_kind};
ghost use Rattle.chess_base.specs.MoveList.{moves};
ghost use Rattle.chess_base.specs.Moves.{is_legal, after};
ghost use Rattle.chess_moves.specs.Made.{WasMade};
ghost use Rattle.chess_moves.specs.Sets.{members};
ghost use Rattle.chess_base.specs.Options.{list_if};
ghost use Rattle.chess_text.specs.shared.Fitting.{parts_text};
ghost use Rattle.chess_text.specs.San.{castling_text, rival_starts, check_mark, san};
ghost use Rattle.chess_text.specs.ties.Forms.{promotes_as_a_pawn};
ghost use Rattle.chess_text.specs.ties.SanParts.{unmarked_san, some_on_file, some_on_rank, distinction, disambiguate, pawn_parts, lettered_parts};

use crate::described::{Described, describe};
use arrayvec::ArrayVec;
use chess_base::{CastlingSide, Kind, Move, Saved, Square};
use chess_moves::{Board, SquareSet};

/// The SAN of a move: two to seven bytes.
pub type SanText = ArrayVec<u8, 7>;

/// What is written of a start square: its file, its rank, both or nothing.
#[derive(Clone, Copy, Debug, PartialEq, Eq)]
pub struct Disambiguation {
    pub file: bool,
    pub rank: bool,
}

// Whether one of the squares is on the file `file`, 0 for a.
fn some_on_file(file: u8, squares: SquareSet) -> bool
    requires { file < 8 }
    ensures { result ≡ some_on_file file (members squares) }
{
    !squares.intersection(SquareSet::of_file(file)).is_empty()
}

// Whether one of the squares is on the rank `rank`, 0 for rank 1.
fn some_on_rank(rank: u8, squares: SquareSet) -> bool
    requires { rank < 8 }
    ensures { result ≡ some_on_rank rank (members squares) }
{
    !squares.intersection(SquareSet::of_rank(rank)).is_empty()
}

// Shorthand for a `Disambiguation`: whether SAN writes the file of the start square, and whether its rank.
fn distinction(file: bool, rank: bool) -> Disambiguation
    ensures { result ≡ distinction file rank }
{
    Disambiguation { file, rank }
}

// What SAN writes of the start square `from` beside the start squares of rivals (`others`: pieces of the same kind that
// could go to the same square): nothing if there are none; its file if none is on it; otherwise its rank if none is on
// it; otherwise both.
#[tactic(auto, using(crate::proofs::Rivals::alone, crate::proofs::Rivals::beside_others))]
fn disambiguate(from: Square, others: SquareSet) -> Disambiguation
    ensures { result ≡ disambiguate from (members others) }
{
    if others.is_empty() {
        distinction(false, false)
    } else if !some_on_file(from.file(), others) {
        distinction(true, false)
    } else if !some_on_rank(from.rank(), others) {
        distinction(false, true)
    } else {
        distinction(true, true)
    }
}

// The start squares of the other pieces of the same kind that could legally move to the end square of the move `d`,
// which is no pawn's.
fn rival_starts<B: Board>(board: &B, d: &Described) -> SquareSet
    requires { same_kind d.now.man Pawn ≡ false }
    ensures { members result ≡ rival_starts (B.position board.now) (moves (B.position board.now)) d.now }
{
    let starts = board.legal_starts(d.man, d.to);
    starts.without(SquareSet::single(d.from))
}

// Appends a byte to the text if `is_written`, otherwise nothing.
fn push_if(text: &mut SanText, is_written: bool, byte: u8)
    requires room { array_vec_len text.old < 7 }
    ensures text { text.new.items ≡ text.old.items ++ list_if is_written (byte ∷ []) }
    ensures len { array_vec_len text.new ≤ array_vec_len text.old + 1 }
{
    if is_written {
        text.push(byte);
    }
}

// Appends the name of a square, as `e4`.
fn write_square(text: &mut SanText, square: Square)
    requires room { array_vec_len text.old + 2 ≤ 7 }
    ensures text { text.new.items ≡ text.old.items ++ square_text square }
    ensures len { array_vec_len text.new ≤ array_vec_len text.old + 2 }
{
    let [file, rank] = square.letters();
    text.push(file);
    text.push(rank);
}

// The text of castling to this side, in SAN and in lists of moves: `O-O` or `O-O-O`.
pub(crate) fn castling_name(castling_side: CastlingSide) -> &'static [u8]
    ensures text { result.now ≡ castling_text castling_side }
    ensures len { length result.now ≤ 5 }
{
    match castling_side {
        CastlingSide::KingSide => b"O-O",
        CastlingSide::QueenSide => b"O-O-O",
    }
}

// The SAN of a pawn's move, without the mark for check or mate, as `exd5` or `e8=Q`.
fn pawn_text(d: &Described) -> SanText
    ensures text { result.items ≡ parts_text (pawn_parts d.now) }
    ensures len { array_vec_len result ≤ 6 }
{
    let mut text = SanText::new();
    let [file, _] = d.from.letters();
    push_if(&mut text, d.captures, file);
    push_if(&mut text, d.captures, b'x');
    write_square(&mut text, d.to);
    if let Some(kind) = d.promotion {
        text.push(b'=');
        text.push(kind.letter());
    }
    text
}

// The SAN of a move of another piece than a pawn, not castling, without the mark for check or mate, as `Nbxd2`.
// `others` has the start squares of other pieces of its kind that could legally move to its end square.
fn lettered_text(others: SquareSet, d: &Described) -> SanText
    requires { d.now.promotion ≡ None }
    ensures text { result.items ≡ parts_text (lettered_parts (members others) d.now) }
    ensures len { array_vec_len result ≤ 6 }
{
    let start = disambiguate(d.from, others);
    let mut text = SanText::new();
    text.push(d.man.letter());
    let [file, rank] = d.from.letters();
    push_if(&mut text, start.file, file);
    push_if(&mut text, start.rank, rank);
    push_if(&mut text, d.captures, b'x');
    write_square(&mut text, d.to);
    text
}

// The SAN of the described move, without the mark for check or mate. The board is at the position before it, whose
// other legal moves decide how much of the start square is written.
fn described_text<B: Board>(board: &B, d: &Described) -> SanText
    requires promotes { promotes_as_a_pawn d.now }
    ensures text { result.items
        ≡ unmarked_san (rival_starts (B.position board.now) (moves (B.position board.now)) d.now) d.now }
    ensures len { array_vec_len result ≤ 6 }
{
    if let Some(castling_side) = d.castles {
        return SanText::try_from(castling_name(castling_side)).unwrap();
    }
    if d.man == Kind::Pawn {
        return pawn_text(d);
    }
    lettered_text(rival_starts(board, d), d)
}

/// The SAN of a legal move without the mark for check or mate, which depends on the position after the move:
/// [`add_check_mark`] appends it there.
pub fn unmarked_san<B: Board>(board: &B, m: &Move) -> SanText
    requires { IsTrue (is_legal (B.position board.now) m.now) }
    ensures text { result.items ++ check_mark (after (B.position board.now) m.now) ≡ san (B.position board.now) m.now }
    ensures len { array_vec_len result ≤ 6 }
{
    let Some(d) = describe(board.setup(), m) else {
        // A legal move's piece is on its start square, so there is a description, and this is never returned.
        return SanText::new();
    };
    described_text(board, &d)
}

/// Appends to a move's text the mark for the board's position, which is the one after the move: `#` for mate, `+` for
/// check, otherwise nothing.
#[tactic(auto, unfolding(crate::specs::San::check_mark))]
pub fn add_check_mark<B: Board>(board: &B, text: &mut SanText)
    requires room { array_vec_len text.old < 7 }
    ensures text { text.new.items ≡ text.old.items ++ check_mark (B.position board.now) }
    ensures len { array_vec_len text.new ≤ array_vec_len text.old + 1 }
{
    if board.in_check() {
        text.push(if board.has_legal_move() { b'+' } else { b'#' });
    }
}

/// Makes a legal move on the board, and returns its SAN, as [`san`] writes it, and what [`Board::take_back`] needs to
/// undo the move. The board is left at the position after the move, on which the mark `+` or `#` depends: so whoever
/// writes a game's moves one after another makes each only once.
///
/// ```
/// let (text, saved) = make_san(&mut board, m);
/// ```
pub fn make_san<B: Board>(board: &mut B, m: Move) -> (SanText, Saved)
    requires { IsTrue (is_legal (B.position board.old) m) }
    ensures text { result.0.items ≡ san (B.position board.old) m }
    ensures len { array_vec_len result.0 ≤ 7 }
    ensures position { B.position board.new ≡ after (B.position board.old) m }
    ensures made { WasMade (B.position board.old) m result.1 (B.position board.new) }
{
    // The prover wants two variables here: one move is lent, and one is given to the board.
    let again = m;
    let mut text = unmarked_san(board, &m);
    let saved = board.make(again);
    add_check_mark(board, &mut text);
    (text, saved)
}

/// The SAN of a legal move, as `Nbxd2+`: castling as `O-O` or `O-O-O`; of a pawn for a capture its file and `x`, the
/// end square, and for a promotion `=` and a letter; of another piece its letter, what distinguishes it from the other
/// legal moves of such pieces to that square, `x` for a capture, and the end square; last `#` for mate, or `+` for
/// check. The board is left at its position.
pub fn san<B: Board>(board: &mut B, m: Move) -> SanText
    requires { IsTrue (is_legal (B.position board.old) m) }
    ensures text { result.items ≡ san (B.position board.old) m }
    ensures len { array_vec_len result ≤ 7 }
    ensures back { B.position board.new ≡ B.position board.old }
{
    // The prover wants two variables here: each of the two calls that go forward and back is given a move.
    let again = m;
    let (text, saved) = make_san(board, m);
    board.take_back(again, saved);
    text
}
