//! Setups and positions of normal chess: their legal moves, counted one by one, what moves leave, and faults.

use crate::playing::{is_equal, leaves, play};
use chess_base::{
    Colour, ColourRights, FenFault, Kind, Man, Move, Position, Rights, Setup, Square, Variant,
};
use chess_fen::{read_fen, write_fen};
use perft_positions::{KIWIPETE, NORMAL, Perft};
use std::alloc::Global;
use std::process::Abort;
use std::test::Fail;

// The piece of a FEN's letter; none for any other byte.
fn man(letter: u8) -> Option<Man> {
    let kind = match letter.to_ascii_lowercase() {
        b'k' => Kind::King,
        b'q' => Kind::Queen,
        b'r' => Kind::Rook,
        b'b' => Kind::Bishop,
        b'n' => Kind::Knight,
        b'p' => Kind::Pawn,
        _ => return None,
    };
    let colour = if letter.is_ascii_uppercase() {
        Colour::White
    } else {
        Colour::Black
    };
    Some(Man { colour, kind })
}

// A setup with these pieces, given from the eighth rank down, and all castling rights of normal chess.
fn setup(rows: &[u8; 64], side: Colour) -> Setup {
    let mut men = [None; 64];
    for (place, letter) in rows.iter().enumerate() {
        men[place ^ 56] = man(*letter);
    }
    let white = ColourRights {
        king_side: Some(Square::new(7)),
        queen_side: Some(Square::new(0)),
    };
    let black = ColourRights {
        king_side: Some(Square::new(63)),
        queen_side: Some(Square::new(56)),
    };
    Setup {
        variant: Variant::Normal,
        men,
        side,
        rights: Rights { white, black },
        target: None,
        halfmove: 0,
        fullmove: 1,
    }
}

// What a move may be written with: no promotion, or one to each kind.
const PROMOTIONS: [Option<Kind>; 5] = [
    None,
    Some(Kind::Queen),
    Some(Kind::Rook),
    Some(Kind::Bishop),
    Some(Kind::Knight),
];

// The positions after each legal move: `is_legal` is asked for each move that can be written, 64 * 64 * 5 in all.
fn positions_after(alloc: Global, position: &Position) -> Result<Vec<Position>, Fail> {
    let mut reached = Vec::new(alloc);
    for from in 0..64 {
        for to in 0..64 {
            for promotion in PROMOTIONS {
                let m = Move {
                    from: Square::new(from),
                    to: Square::new(to),
                    promotion,
                };
                let again = m;
                if position.is_legal(m) {
                    reached.push(position.after(again))?;
                }
            }
        }
    }
    Ok(reached)
}

// How many legal moves a position has.
fn legal_moves(alloc: Global, position: &Position) -> Result<usize, Fail> {
    Ok(positions_after(alloc, position)?.len())
}

// How many pairs of a legal move and a legal answer a position has.
fn legal_pairs(alloc: Global, position: &Position) -> Result<usize, Fail> {
    let mut count: usize = 0;
    let reached = positions_after(alloc, position)?;
    for after in &reached {
        count = count.saturating_add(legal_moves(alloc, after)?);
    }
    Ok(count)
}

// Asserts that the position of each row has as many legal moves as the row says.
fn count_moves(rt: &impl Abort, alloc: Global, rows: &[Perft]) -> Result<(), Fail> {
    for row in rows {
        let position = read_fen(row.fen).ok().ok_or("sound")?;
        let wanted = row.lines[0];
        is_equal(rt, &(legal_moves(alloc, &position)? as u64), &wanted);
    }
    Ok(())
}

// The pieces of the initial position, from the eighth rank down.
const INITIAL: &[u8; 64] = b"rnbqkbnrpppppppp................................PPPPPPPPRNBQKBNR";

// A sound position whose FEN is as long as one can be: no two empty squares are side by side.
const LONGEST: &[u8] =
    b"r1b1k1n1/1p1p1p1p/p1p1p1p1/1q1r1b1n/P1P1P1P1/1Q1R1B1N/1P1P1P1P/R1B1K1N1 b Qq e3 999999 999999";

// The initial position is that of its setup, and has 20 legal moves and 400 pairs of a move and an answer.
#[test]
fn initial_position_has_20_moves(rt: HostRuntime) -> Result<(), Fail> {
    let position = Position::initial();
    assert!(rt; Position::new(setup(INITIAL, Colour::White)).ok() == Some(position));
    is_equal(&rt, &position.side(), &Colour::White);
    is_equal(&rt, &position.setup().fullmove, &1);
    is_equal(&rt, &legal_moves(rt.alloc(), &position)?, &20);
    is_equal(&rt, &legal_pairs(rt.alloc(), &position)?, &400);
    Ok(())
}

// The positions of perft_positions have as many legal moves as other programs counted.
#[test]
fn test_positions_have_their_moves(rt: HostRuntime) -> Result<(), Fail> {
    count_moves(&rt, rt.alloc(), NORMAL.as_slice())
}

// One of them has 2,039 pairs of a legal move and a legal answer.
#[test]
fn a_test_position_has_its_pairs_of_moves(rt: HostRuntime) -> Result<(), Fail> {
    let kiwipete = read_fen(KIWIPETE).ok().ok_or("sound")?;
    is_equal(&rt, &legal_pairs(rt.alloc(), &kiwipete)?, &2_039);
    Ok(())
}

// A position, a move as its squares and its promotion, and the FEN after it, which is empty where the move is illegal.
type Row = (&'static [u8], &'static [u8; 4], Option<Kind>, &'static [u8]);
// Moves of different kinds, legal and illegal.
const MADE: [Row; 9] = [
    (
        b"rnbqkbnr/pppppppp/8/8/8/8/PPPPPPPP/RNBQKBNR w KQkq - 0 1",
        b"e2e4",
        None,
        b"rnbqkbnr/pppppppp/8/8/4P3/8/PPPP1PPP/RNBQKBNR b KQkq e3 0 1",
    ),
    (
        b"4k3/8/8/8/8/8/1r6/R3K3 w Q - 0 1",
        b"e1c1",
        None,
        b"4k3/8/8/8/8/8/1r6/2KR4 b - - 1 1",
    ),
    (b"8/4P3/8/8/8/2k5/8/4K3 w - - 0 1", b"e7e8", None, b""),
    (
        b"8/4P3/8/8/8/2k5/8/4K3 w - - 0 1",
        b"e7e8",
        Some(Kind::King),
        b"",
    ),
    (
        b"8/4P3/8/8/8/2k5/8/4K3 w - - 0 1",
        b"e7e8",
        Some(Kind::Queen),
        b"4Q3/8/8/8/8/2k5/8/4K3 b - - 0 1",
    ),
    (b"7k/8/8/K2pP2r/8/8/8/8 w - d6 0 1", b"e5d6", None, b""),
    (
        b"4k3/8/8/3pP3/8/8/8/4K3 w - d6 0 1",
        b"e5d6",
        None,
        b"4k3/8/3P4/8/8/8/8/4K3 b - - 0 1",
    ),
    (
        KIWIPETE,
        b"e1c1",
        None,
        b"r3k2r/p1ppqpb1/bn2pnp1/3PN3/1p2P3/2N2Q1p/PPPBBPPP/2KR3R b kq - 1 1",
    ),
    (
        LONGEST,
        b"h5f4",
        None,
        b"r1b1k1n1/1p1p1p1p/p1p1p1p1/1q1r1b2/P1P1PnP1/1Q1R1B1N/1P1P1P1P/R1B1K1N1 w Qq - 999999 999999",
    ),
];

// Plays the move of each row.
#[test]
fn moves_leave_their_positions(rt: HostRuntime) -> Result<(), Fail> {
    for (start, squares, promotion, fen) in &MADE {
        let start = read_fen(start).ok().ok_or("sound")?;
        leaves(&rt, start, squares, *promotion, fen);
    }
    Ok(())
}

// 1. e4 a6 2. e5 d5 3. exd6, with the FEN after each move: the pawn taken en passant is gone.
const EN_PASSANT: [(&[u8; 4], &[u8]); 5] = [
    (
        b"e2e4",
        b"rnbqkbnr/pppppppp/8/8/4P3/8/PPPP1PPP/RNBQKBNR b KQkq e3 0 1",
    ),
    (
        b"a7a6",
        b"rnbqkbnr/1ppppppp/p7/8/4P3/8/PPPP1PPP/RNBQKBNR w KQkq - 0 2",
    ),
    (
        b"e4e5",
        b"rnbqkbnr/1ppppppp/p7/4P3/8/8/PPPP1PPP/RNBQKBNR b KQkq - 0 2",
    ),
    (
        b"d7d5",
        b"rnbqkbnr/1pp1pppp/p7/3pP3/8/8/PPPP1PPP/RNBQKBNR w KQkq d6 0 3",
    ),
    (
        b"e5d6",
        b"rnbqkbnr/1pp1pppp/p2P4/8/8/8/PPPP1PPP/RNBQKBNR b KQkq - 0 3",
    ),
];

// Plays these moves, and compares each FEN.
#[test]
fn pawn_taken_en_passant_is_gone(rt: HostRuntime) -> Result<(), Fail> {
    let mut position = Position::initial();
    for (squares, fen) in &EN_PASSANT {
        position = play(position, squares, None).ok_or("legal")?;
        is_equal(&rt, &write_fen(&position).as_slice(), fen);
    }
    Ok(())
}

// Setups with two faults: that which is looked for first is named.
#[test]
fn first_fault_is_named(rt: HostRuntime) -> Result<(), Fail> {
    let mut faulty = setup(INITIAL, Colour::White);
    faulty.men[3] = man(b'K');
    faulty.men[59] = man(b'p');
    assert!(rt; Position::new(faulty).err() == Some(FenFault::Kings));
    faulty.fullmove = 0;
    assert!(rt; Position::new(faulty).err() == Some(FenFault::Counters));
    let mut faulty = setup(INITIAL, Colour::White);
    faulty.men[7] = man(b'P');
    assert!(rt; Position::new(faulty).err() == Some(FenFault::Pawns));
    faulty.men[7] = None;
    assert!(rt; Position::new(faulty).err() == Some(FenFault::Castling));
    Ok(())
}
