//! Reading the text of a move. What a usual text (`e4`, `Nf3`, `exd5`) needs is inlined into `read_move`: as calls it
//! cost `verify` a seventh more instructions for reading and making a move. What other texts need is not.

ghost use Rattle.std.specs.Prelude.{◌≡◌, Some, IfSome};
ghost use Rattle.std.specs.List.{filter, flat_map};
ghost use Rattle.chess_base.specs.MoveList.{promotions, moves};
ghost use Rattle.chess_text.specs.Moves.{shape, one_of, reading, has_shape, IsLegalReading};
ghost use Rattle.chess_text.specs.declared.form.Form.TheVariants.{Piece};
ghost use Rattle.chess_text.specs.declared.reading.Reading.TheVariants as reads;
ghost use Rattle.chess_text.specs.ties.Forms.{is_denoted, castling_end, end_square, denoted_with, with_move, with_moves, named_square, one_kind, is_denoted_by_letter, is_denoted_by_pawn, is_denoted_of, denoted_start, IsStart};
ghost use Rattle.chess_text.specs.ties.Usual.{usual_kind};
ghost use Rattle.chess_moves.specs.Sets.{members};

use crate::described::{admits, captures, names};
use crate::form::{Form, is_denoted, read_form};
use crate::parts::Parts;
use crate::usual::{usual_parts, without_mark};
use chess_base::rules::{PROMOTIONS, castled_king_file, castling, home_square, right_of};
use chess_base::{CastlingSide, Colour, Kind, Move, Setup, Square, Variant};
use chess_moves::{Board, SquareSet, would_promote};

/// What a text is read as in a position.
#[derive(Clone, Copy, Debug, PartialEq, Eq)]
pub enum Reading {
    /// It denotes this legal move and no other.
    Move(Move),
    /// It denotes several legal moves.
    Ambiguous,
    /// It has a move's shape and denotes no legal move.
    NoSuch,
    /// It hasn't a move's shape.
    NotAMove,
}

/// Whether a text has the shape of a move, whether or not it is legal anywhere: coordinates (`e2e4`, `e7e8q`), castling
/// (`O-O`, or with zeros `0-0`), or SAN (PGN standard of 1994, section 8.2.3), as `Nf3`, `exd5` or `e8=Q`. SAN may have
/// more of the start square than is needed (`Ng1f3`), leave out `x` or `=`, and name the promotion with a small letter.
/// A run of the marks `+`, `#`, `!` and `?` at the end is skipped.
pub fn has_move_shape(text: &[u8]) -> bool
    ensures { result ≡ shape text.now }
{
    read_form(text).is_some()
}

// The end square of the move by which `side` castles to this side: in normal chess the king's end square, in Chess960
// the square of the rook of the right (`right`; if there is none, no such move is legal). No crate below exports a
// function for this: `names_castling` of chess_base tests a whole move, and `named_square` of chess_bits, which this
// crate doesn't use, takes a right that is there.
fn castling_end(
    variant: Variant,
    side: Colour,
    castling_side: CastlingSide,
    right: Option<Square>,
) -> Square
    ensures { result ≡ castling_end variant side castling_side right }
{
    let king_to = home_square(side, castled_king_file(castling_side));
    match variant {
        Variant::Normal => king_to,
        Variant::Fischerandom => right.unwrap_or(king_to),
    }
}

// The end square of each move that a text of this form can denote in this position.
fn end_square(form: &Form, setup: &Setup) -> Square
    ensures { result ≡ end_square form.now setup.now }
{
    match form {
        Form::Castling(castling_side) => castling_end(
            setup.variant,
            setup.side,
            *castling_side,
            right_of(setup.rights, setup.side, *castling_side),
        ),
        Form::Piece(parts) => parts.end.to,
    }
}

// The square on this file and rank, from 0 on, if both are given and below 8; otherwise `None`.
#[inline(always)]
fn named_square(file: Option<u8>, rank: Option<u8>) -> Option<Square>
    ensures { result ≡ named_square file rank }
{
    let (file, rank) = (file?, rank?);
    if file < 8 && rank < 8 {
        Some(Square::new(8 * rank + file))
    } else {
        None
    }
}

// A set of squares that has at least the start square of each legal move that the parts denote; it may have others too.
#[tactic(auto, using(crate::proofs::Origins::by_letter, crate::proofs::Origins::by_squares, crate::proofs::Origins::by_pawn))]
fn piece_origins<B: Board>(board: &B, parts: &Parts) -> SquareSet
    ensures { IsStart (B.position board.now) (Piece parts.now) result }
{
    if let Some(kind) = parts.letter {
        return board.origins(kind, parts.end.to);
    }
    if let Some(square) = named_square(parts.file, parts.rank) {
        return SquareSet::single(square);
    }
    board.origins(Kind::Pawn, parts.end.to)
}

// A set of squares that has at least the start square of each legal move that a text of this form denotes; `to` is the
// end square of them all.
#[tactic(auto, using(crate::proofs::Origins::by_castling))]
fn form_origins<B: Board>(board: &B, form: &Form, to: Square) -> SquareSet
    requires { to ≡ end_square form.now (B.position board.now) }
    ensures { IsStart (B.position board.now) form.now result }
{
    match form {
        Form::Castling(_) => board.origins(Kind::King, to),
        Form::Piece(parts) => piece_origins(board, parts),
    }
}

// The reading after one more legal move `m` that the text denotes, given the reading so far (`found`): `m` if there was
// no move yet, `Ambiguous` if there was one. `NotAMove` stays: such a text denotes no move.
fn with_move(found: Reading, m: Move) -> Reading
    ensures { result ≡ with_move found m }
{
    match found {
        Reading::NoSuch => Reading::Move(m),
        Reading::Move(_) | Reading::Ambiguous => Reading::Ambiguous,
        Reading::NotAMove => Reading::NotAMove,
    }
}

// The reading of a text of this form after one more start square: the reading so far (`before`), and with it the legal
// moves from `from` to `to` with one of these promotions, as far as the text denotes them. One move in all is `Move`,
// several are `Ambiguous`.
fn with_denoted<B: Board>(
    board: &B,
    form: &Form,
    from: Square,
    to: Square,
    promotions: &[Option<Kind>],
    before: Reading,
) -> Reading
    ensures { result ≡ with_moves before (denoted_with form.now (B.position board.now) from to promotions.now) }
{
    let mut found = before;
    for promotion in promotions {
        let m = Move {
            from,
            to,
            promotion: *promotion,
        };
        if is_denoted(form, board.setup(), &m) && board.is_legal(&m) {
            found = with_move(found, m);
        }
    }
    found
}

// The reading of a text of this form after one more start square: the reading so far (`found`), and with it the legal
// moves from `from` to `to`, as far as the text denotes them. One move in all is `Move`, several are `Ambiguous`.
// `add_moves_between` of chess_moves makes the same choice by the same test, but appends all legal moves to a list.
// Here no list is made, and whether a move is legal is asked only if the text denotes it.
#[tactic(auto, using(crate::proofs::Promoting::all_promote, crate::proofs::Promoting::none_promotes))]
fn with_denoted_between<B: Board>(
    board: &B,
    form: &Form,
    from: Square,
    to: Square,
    found: Reading,
) -> Reading
    ensures { result ≡ with_moves found (denoted_with form.now (B.position board.now) from to promotions) }
{
    if would_promote(board.setup(), from, to) {
        with_denoted(board, form, from, to, &PROMOTIONS, found)
    } else {
        with_denoted(board, form, from, to, &[None], found)
    }
}

// The kind of the pieces whose moves these parts denote, if the parts say it and name no promotion: a knight for `Nf3`,
// a pawn for `e4`, none for `e2e4`.
#[inline(always)]
fn one_kind(parts: &Parts) -> Option<Kind>
    ensures { result ≡ one_kind parts.now }
{
    if parts.end.promotion.is_some() {
        return None;
    }
    match (parts.letter, named_square(parts.file, parts.rank)) {
        (Some(Kind::Pawn), _) | (None, Some(_)) => None,
        (Some(kind), _) => Some(kind),
        (None, None) => Some(Kind::Pawn),
    }
}

// Whether the parts, which have the letter of this kind, denote `m`, a legal move of such a piece to their end square:
// it starts on the file and rank that they name, is a capture if they have `x`, and is not castling. `is_by_letter`
// tests the same of any described move; here kind and end square are known to agree.
#[inline(always)]
fn is_denoted_by_letter(parts: &Parts, setup: &Setup, kind: Kind, m: &Move) -> bool
    ensures { result ≡ is_denoted_by_letter parts.now setup.now kind m.now }
{
    admits(parts.file, m.from.file())
        && admits(parts.rank, m.from.rank())
        && (!parts.takes || captures(setup, m))
        && !(kind == Kind::King && castling(setup, m).is_some())
}

// Whether the parts, which have no letter, denote `m`, a pawn's legal move to their end square without a promotion:
// straight ahead if they name no file (`e4`), otherwise from that file, and a capture if they have `x` (`exd5`).
// `is_straight` and `is_by_file` test the same of any described move.
#[inline(always)]
fn is_denoted_by_pawn(parts: &Parts, setup: &Setup, m: &Move) -> bool
    ensures { result ≡ is_denoted_by_pawn parts.now setup.now m.now }
{
    if parts.file.is_none() {
        parts.rank.is_none() && !parts.takes && m.from.file() == m.to.file()
    } else {
        names(parts.file, m.from.file())
            && admits(parts.rank, m.from.rank())
            && (!parts.takes || captures(setup, m))
    }
}

// Whether the parts, in which only pieces of this kind can be meant, denote `m`, a legal move of such a piece to their
// end square, without a promotion.
#[inline(always)]
fn is_denoted_of(parts: &Parts, setup: &Setup, kind: Kind, m: &Move) -> bool
    ensures { result ≡ is_denoted_of parts.now setup.now kind m.now }
{
    if parts.letter.is_some() {
        is_denoted_by_letter(parts, setup, kind, m)
    } else {
        is_denoted_by_pawn(parts, setup, m)
    }
}

// The reading of a text of these parts after one more start square: the reading so far (`found`), and with it the move
// of a piece of this kind, known to be legal, from `from` to their end square, if the parts denote it. One move in all
// is `Move`, several are `Ambiguous`.
#[inline(always)]
fn with_start(found: Reading, setup: &Setup, parts: &Parts, kind: Kind, from: Square) -> Reading
    ensures { result ≡ with_moves found (denoted_start parts.now setup.now kind from) }
{
    let m = Move {
        from,
        to: parts.end.to,
        promotion: None,
    };
    if is_denoted_of(parts, setup, kind, &m) {
        with_move(found, m)
    } else {
        found
    }
}

// What a text of these parts is read as: one move, several (`Ambiguous`) or none (`NoSuch`), of those that it denotes
// among the legal moves of pieces of this kind from the squares `starts` to the parts' end square. Seldom called, so
// not inlined.
#[inline(never)]
fn with_starts(setup: &Setup, parts: Parts, kind: Kind, starts: SquareSet) -> Reading
    ensures { result ≡ one_of (flat_map (denoted_start parts setup.now kind) (members starts)) }
{
    let mut found = Reading::NoSuch;
    let mut rest = starts;
    while let Some(from) = rest.take_first() {
        found = with_start(found, setup, &parts, kind, from);
    }
    found
}

// What a text of these parts, in which only pieces of this kind can be meant, is read as: one legal move, several
// (`Ambiguous`) or none (`NoSuch`). `starts` has the squares from which such pieces may legally move to the parts' end
// square.
#[inline(always)]
fn denoted_among(setup: &Setup, parts: &Parts, kind: Kind, starts: SquareSet) -> Reading
    ensures { result ≡ one_of (flat_map (denoted_start parts.now setup.now kind) (members starts)) }
{
    let mut rest = starts;
    let Some(from) = rest.take_first() else {
        return Reading::NoSuch;
    };
    if rest.is_empty() {
        return with_start(Reading::NoSuch, setup, parts, kind, from);
    }
    // A copy of the parts and a variable for the reading: so both stay in registers where there is one start. Otherwise
    // verifying plain games took 1.019 times as long.
    let found = with_starts(setup, *parts, kind, starts);
    found
}

// What a text of these parts, in which only pieces of this kind can be meant, and no promotion, is read as in the
// board's position: one legal move, several (`Ambiguous`) or none (`NoSuch`). `denoted_from_origins` would read the
// same, but describes each move in full, and asks of each apart whether it is legal: `legal_starts` answers that at
// once. Together with three other changes this took `verify` from 477 to 317 million instructions on 1.6 MB of games.
#[inline(always)]
fn denoted_by_kind<B: Board>(board: &B, parts: &Parts, kind: Kind) -> Reading
    requires { one_kind parts.now ≡ Some kind }
    ensures { result ≡ one_of
        (filter (λ m. is_denoted (Piece parts.now) (B.position board.now) m) (moves (B.position board.now))) }
{
    denoted_among(
        board.setup(),
        parts,
        kind,
        board.legal_starts(kind, parts.end.to),
    )
}

// What a text of this form is read as in the board's position, by trying moves from all squares where one that it
// denotes may begin: one legal move, several (`Ambiguous`) or none (`NoSuch`).
#[inline(never)]
fn denoted_from_origins<B: Board>(board: &B, form: &Form) -> Reading
    ensures { result ≡ one_of
        (filter (λ m. is_denoted form.now (B.position board.now) m) (moves (B.position board.now))) }
{
    let to = end_square(form, board.setup());
    let mut found = Reading::NoSuch;
    let mut rest = form_origins(board, form, to);
    while let Some(from) = rest.take_first() {
        found = with_denoted_between(board, form, from, to, found);
    }
    found
}

// What a text of this form is read as in the board's position: one legal move, several (`Ambiguous`) or none
// (`NoSuch`).
fn denoted<B: Board>(board: &B, form: &Form) -> Reading
    ensures { result ≡ one_of
        (filter (λ m. is_denoted form.now (B.position board.now) m) (moves (B.position board.now))) }
{
    if let Form::Piece(parts) = form
        && let Some(kind) = one_kind(parts)
    {
        return denoted_by_kind(board, parts, kind);
    }
    denoted_from_origins(board, form)
}

// What a text of these parts, of a usual shape, is read as in the board's position: one legal move, several
// (`Ambiguous`) or none (`NoSuch`). Such parts always say which kind of piece is meant: that of their letter, without
// one a pawn.
#[inline(always)]
fn denoted_usual<B: Board>(board: &B, parts: &Parts) -> Reading
    requires { one_kind parts.now ≡ Some (usual_kind parts.now.letter) }
    ensures { result ≡ one_of
        (filter (λ m. is_denoted (Piece parts.now) (B.position board.now) m) (moves (B.position board.now))) }
{
    match parts.letter {
        Some(kind) => denoted_by_kind(board, parts, kind),
        None => denoted_by_kind(board, parts, Kind::Pawn),
    }
}

// What coordinates, such as `e2e4` or `e7e8q`, are read as, with one mark after them or none: they denote only the move
// between their squares. `None` for any other text, and for a promotion that is not legal: `read_any_move` then reads
// the text by its form. In a session nearly all texts are coordinates. With these read like other texts, in loops over
// squares and promotions, the workload `matches` took 1.05 times as long.
fn read_coordinates<B: Board>(board: &B, text: &[u8]) -> Option<Reading>
    ensures { IfSome result (λ r. reading (B.position board.now) text.now ≡ r) }
{
    let Ok(m) = Move::try_from(without_mark(text)) else {
        return None;
    };
    // The prover wants these facts: the numbers of both squares are below 64.
    let _start = m.from.number();
    let _end = m.to.number();
    if board.is_legal(&m) {
        return Some(Reading::Move(m));
    }
    match m.promotion {
        None => Some(Reading::NoSuch),
        Some(_) => None,
    }
}

// Reads a text of any shape as a move of the board's position. In PGN most texts are of a usual shape, for which
// `read_move` doesn't call this, so it is not inlined.
#[inline(never)]
fn read_any_move<B: Board>(board: &B, text: &[u8]) -> Reading
    ensures { result ≡ reading (B.position board.now) text.now }
{
    if let Some(reading) = read_coordinates(board, text) {
        return reading;
    }
    let Some(form) = read_form(text) else {
        return Reading::NotAMove;
    };
    denoted(board, &form)
}

/// Reads a text as a move of the board's position: a legal move if the text denotes exactly one, otherwise why it
/// doesn't. The texts are those of [`has_move_shape`]: coordinates (`g1f3`), castling (`O-O`) and SAN (`Nf3`). An `x`
/// may be left out, and may be there only if the move captures (en passant does). The marks `+`, `#`, `!` and `?` at
/// the end are skipped: whether the move gives check or mate is not compared with them.
#[inline(always)]
pub fn read_move<B: Board>(board: &B, text: &[u8]) -> Reading
    ensures value { result ≡ reading (B.position board.now) text.now }
    ensures legal { IsLegalReading (B.position board.now) result }
    ensures shape { has_shape result ≡ shape text.now }
{
    match usual_parts(without_mark(text)) {
        Some(parts) => denoted_usual(board, &parts),
        None => read_any_move(board, text),
    }
}
