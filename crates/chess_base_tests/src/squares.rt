//! Names of squares, pieces and faults.

use crate::playing::is_equal;
use chess_base::{Colour, FenFault, Kind, Move, Position, Square};
use std::test::Fail;

// Names of squares, and their numbers, which count files first.
const NAMES: [(&[u8], u8); 6] = [
    (b"a1", 0),
    (b"h1", 7),
    (b"e4", 28),
    (b"d5", 35),
    (b"a8", 56),
    (b"h8", 63),
];

// Texts that name no square.
const NO_NAMES: [&[u8]; 9] = [b"", b"e", b"E4", b"4e", b"i1", b"a0", b"a9", b"e4 ", b"-"];

// Each name is read as its square, and is how that is shown.
#[test]
fn squares_have_their_names(rt: HostRuntime) -> Result<(), Fail> {
    for (name, number) in &NAMES {
        let square = Square::new(*number);
        assert!(rt; Square::named(name) == Some(square));
        let shown = format!(in rt.alloc(); "{square}")?;
        is_equal(&rt, &shown.as_bytes(), name);
    }
    Ok(())
}

// None of these is read as a square.
#[test]
fn other_texts_name_no_square(rt: HostRuntime) {
    for name in &NO_NAMES {
        assert!(rt; Square::named(name) == None);
    }
}

// A colour, a kind of piece and a fault are shown by their names.
#[test]
fn values_are_shown(rt: HostRuntime) -> Result<(), Fail> {
    let shown = format!(in rt.alloc(); "{} {}: {}", Colour::White, Kind::Knight, FenFault::Men)?;
    is_equal(
        &rt,
        &shown.as_bytes(),
        &b"white knight: a colour has more than 16 pieces".as_slice(),
    );
    Ok(())
}

// Moves as their start and end squares and promotion, each with its text.
const MOVES: [(&[u8], &[u8], Option<Kind>, &[u8]); 3] = [
    (b"e2", b"e4", None, b"e2e4"),
    (b"e7", b"e8", Some(Kind::Queen), b"e7e8q"),
    (b"a2", b"a1", Some(Kind::Knight), b"a2a1n"),
];

// Each move is shown by its text.
#[test]
fn moves_are_shown_by_their_squares(rt: HostRuntime) -> Result<(), Fail> {
    for (from, to, promotion, text) in &MOVES {
        let from = Square::named(from).ok_or("a square")?;
        let to = Square::named(to).ok_or("a square")?;
        let m = Move {
            from,
            to,
            promotion: *promotion,
        };
        let shown = format!(in rt.alloc(); "{m}")?;
        is_equal(&rt, &shown.as_bytes(), text);
    }
    Ok(())
}

// Texts are parsed as squares, and the text of each move as that move.
#[test]
fn texts_are_parsed_as_squares_and_moves(rt: HostRuntime) -> Result<(), Fail> {
    let square: Square = "e4".parse()?;
    assert!(rt; square == Square::E4);
    for (from, to, promotion, text) in &MOVES {
        let wanted = Move {
            from: Square::try_from(*from)?,
            to: Square::try_from(*to)?,
            promotion: *promotion,
        };
        let m = Move::try_from(*text)?;
        assert!(rt; m == wanted);
    }
    Ok(())
}

// Texts of no move: the last letter isn't that of a promotion, or there is more or less than a move's text.
const NO_MOVES: [&[u8]; 8] = [
    b"e7e8k", b"e7e8p", b"e7e8Q", b"e7e8=q", b"e7e8qq", b"e7e9", b"e7e", b"",
];

// None of these is parsed as a move.
#[test]
fn other_texts_denote_no_move(rt: HostRuntime) {
    for text in &NO_MOVES {
        assert!(rt; Move::try_from(*text).is_err(), "{text:?}");
    }
}

// Moves in the order of the list of legal moves: by start square, end square and promotion.
const RISING: [&[u8]; 8] = [
    b"e2e4", b"f2f3", b"e7d8q", b"e7e8", b"e7e8q", b"e7e8r", b"e7e8b", b"e7e8n",
];

// Squares are ordered by their numbers, White comes before Black, a king before a pawn, and moves are ordered as
// RISING.
#[test]
fn values_are_ordered(rt: HostRuntime) -> Result<(), Fail> {
    assert!(rt;
        Square::H1 < Square::A2 && Colour::White < Colour::Black && Kind::King < Kind::Pawn
    );
    let mut last = Move::default();
    for text in &RISING {
        let m = Move::try_from(*text)?;
        assert!(rt; last < m);
        last = m;
    }
    Ok(())
}

// The debug text of a position is that of its setup.
#[test]
fn positions_are_shown_by_their_setups(rt: HostRuntime) -> Result<(), Fail> {
    let shown = format!(in rt.alloc(); "{:?}", Position::initial())?;
    assert!(rt;
        shown
            .as_bytes()
            .starts_with(b"Position { setup: Setup { variant: Normal,")
    );
    Ok(())
}
