//! Reading variations, each of which replaces the move before it.

use crate::equal::is_equal_at;
use chess_base::Position;
use chess_moves::Plain;
use chess_pgn::{MOST_NESTED, PgnFault, PgnFaultKind, has_variation, read_variations};
use std::alloc::Global;
use std::process::Abort;
use std::test::Fail;

// Texts of a game that has no fault of its own, the offset where it begins, and the first fault in its variations, with
// its offset.
const VARIATIONS: [(&[u8], usize, Option<(PgnFaultKind, usize)>); 17] = [
    (b"1. e4 *", 0, None),
    (b"1. e4 {(} e5 *", 0, None),
    (b"[White \"a (b)\"] 1. e4 *", 0, None),
    // The first `(` is in a comment or a tag, the second is a variation's.
    (
        b"1. e4 {(} (1. e5) *",
        0,
        Some((PgnFaultKind::IllegalMove, 14)),
    ),
    (
        b"[Site \"(\"] 1. e4 (1. e5) *",
        0,
        Some((PgnFaultKind::IllegalMove, 21)),
    ),
    (b"1. e4 (1. d4) *", 0, None),
    (b"1. e4 () *", 0, None),
    (b"1. e4 e5 (1... c5 (1... e6) 2. d4) 2. d4 *", 0, None),
    (b"1. e4 (1. e5) *", 0, Some((PgnFaultKind::IllegalMove, 10))),
    (b"1. e4 (1. e9) *", 0, Some((PgnFaultKind::BadToken, 10))),
    (
        b"1. e4 (1. d4 -- 2. d5) *",
        0,
        Some((PgnFaultKind::BadToken, 13)),
    ),
    (b"1. e4 (1. d4 ^) *", 0, Some((PgnFaultKind::BadToken, 13))),
    (
        b"[a \"\"] 1. e4 (1. d4 [a \"\"]) *",
        0,
        Some((PgnFaultKind::BadToken, 20)),
    ),
    (b"(1. d4) 1. e4 *", 0, Some((PgnFaultKind::BadToken, 0))),
    (
        b"1. e4 (1. d4 (1. d5)) *",
        0,
        Some((PgnFaultKind::IllegalMove, 17)),
    ),
    (
        b"1. e4 (1. d4 (1. c4) d5 (1... d4)) *",
        0,
        Some((PgnFaultKind::IllegalMove, 30)),
    ),
    (
        b"e4 e5 * 1. d4 (1. d5) *",
        7,
        Some((PgnFaultKind::IllegalMove, 18)),
    ),
];

// Reads the variations of the game from the offset `at` on, and asserts that this is the first fault in them.
fn is_found(rt: &impl Abort, text: &[u8], at: usize, wanted: Option<(PgnFaultKind, usize)>) {
    let mut board = Plain::new();
    let start = Position::initial();
    assert!(rt; at <= text.len());
    let found = read_variations(text, at, &start, &mut board);
    let wanted = match wanted {
        Some((kind, offset)) => Err(PgnFault { kind, offset }),
        None => Ok(()),
    };
    is_equal_at(rt, at, text, &found, &wanted);
}

// Reads the variations of each row.
#[test]
fn variations_are_read(rt: HostRuntime) {
    for (text, at, wanted) in &VARIATIONS {
        is_found(&rt, *text, *at, *wanted);
    }
}

// A move, and `depth` variations in one another, each of which replaces the move of the one around it.
fn nested(alloc: Global, depth: usize) -> Result<Vec<u8>, Fail> {
    let mut text = vec![in alloc; b' '; 0]?;
    text.extend_from_slice(b"e4 ")?;
    for _ in 0..depth {
        text.extend_from_slice(b"(d4 ")?;
    }
    for _ in 0..depth {
        text.extend_from_slice(b")")?;
    }
    text.extend_from_slice(b" *")?;
    Ok(text)
}

// MOST_NESTED of them are read; the `(` of one more is the fault.
#[test]
fn variations_may_be_nested(rt: HostRuntime) -> Result<(), Fail> {
    let deepest = nested(rt.alloc(), MOST_NESTED)?;
    is_found(&rt, deepest.as_slice(), 0, None);
    let deeper = nested(rt.alloc(), MOST_NESTED.saturating_add(1))?;
    let offset = 3 + 4 * MOST_NESTED;
    is_found(
        &rt,
        deeper.as_slice(),
        0,
        Some((PgnFaultKind::TooLong, offset)),
    );
    Ok(())
}

// Games, and whether one of their tokens is a variation: a `(` in a tag or a comment is none.
const WITH_OR_WITHOUT: [(&[u8], bool); 5] = [
    (b"1. e4 e5 *", false),
    (b"1. e4 (1. d4) e5 *", true),
    (b"(", false),
    (b"[Event \"a (b)\"]\n1. e4 {(1. d4)} e5 ; (\n*", false),
    (b"[Event \"a (b)\"]\n1. e4 {(1. d4)} e5 (1... c5) *", true),
];

// Asserts for each row whether there is a variation.
#[test]
fn variations_are_found(rt: HostRuntime) {
    for (text, wanted) in &WITH_OR_WITHOUT {
        is_equal_at(&rt, 0, *text, &has_variation(*text, 0), wanted);
    }
}
