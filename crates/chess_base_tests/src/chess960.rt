//! Castling in Chess960, from single positions and from all 960 starts.

use crate::playing::{is_equal, leaves};
use chess_base::{Colour, ColourRights, Kind, Man, Move, Position, Rights, Setup, Square, Variant};
use chess_fen::read_fen_as;
use std::test::Fail;

// A position of Chess960, the squares of its king and rook, and the FEN after castling, or nothing where that is
// illegal. The king stays, the rook stays, and they change places, on both sides; then out of, through and into
// attacked squares, with b1 attacked, and off a pin.
const CASTLINGS: [(&[u8], &[u8; 4], &[u8]); 12] = [
    (
        b"4k3/8/8/8/8/8/8/6KR w H - 0 1",
        b"g1h1",
        b"4k3/8/8/8/8/8/8/5RK1 b - - 1 1",
    ),
    (
        b"4k3/8/8/8/8/8/8/4KR2 w F - 0 1",
        b"e1f1",
        b"4k3/8/8/8/8/8/8/5RK1 b - - 1 1",
    ),
    (
        b"4k3/8/8/8/8/8/8/5KR1 w G - 0 1",
        b"f1g1",
        b"4k3/8/8/8/8/8/8/5RK1 b - - 1 1",
    ),
    (
        b"4k3/8/8/8/8/8/8/1RK5 w B - 0 1",
        b"c1b1",
        b"4k3/8/8/8/8/8/8/2KR4 b - - 1 1",
    ),
    (
        b"4k3/8/8/8/8/8/8/3RK3 w D - 0 1",
        b"e1d1",
        b"4k3/8/8/8/8/8/8/2KR4 b - - 1 1",
    ),
    (
        b"2rk4/8/8/8/8/8/8/6K1 b c - 0 1",
        b"d8c8",
        b"2kr4/8/8/8/8/8/8/6K1 w - - 1 2",
    ),
    (b"4kr2/8/8/8/8/8/8/5KR1 w G - 0 1", b"f1g1", b""),
    (b"k4r2/8/8/8/8/8/8/3K3R w H - 0 1", b"d1h1", b""),
    (b"k5r1/8/8/8/8/8/8/3K3R w H - 0 1", b"d1h1", b""),
    (
        b"1r5k/8/8/8/8/8/8/R3K3 w A - 0 1",
        b"e1a1",
        b"1r5k/8/8/8/8/8/8/2KR4 b - - 1 1",
    ),
    (b"4k3/8/8/8/8/8/8/rRK5 w B - 0 1", b"c1b1", b""),
    (b"4k3/8/8/8/8/8/8/2NRK3 w D - 0 1", b"e1d1", b""),
];

// Castles in each position: the move takes the king to its rook.
#[test]
fn castling_leaves_its_positions(rt: HostRuntime) -> Result<(), Fail> {
    for (start, squares, fen) in &CASTLINGS {
        let start = read_fen_as(Variant::Fischerandom, start)
            .ok()
            .ok_or("sound")?;
        leaves(&rt, start, squares, None, fen);
    }
    Ok(())
}

// Puts a piece on the free square (`-`) with this number, counted from the left and from 0.
fn put_on_free(rank: &mut [u8; 8], place: usize, man: u8) {
    let mut left = place;
    for index in 0..8 {
        if rank[index] == b'-' {
            if left == 0 {
                rank[index] = man;
                return;
            }
            left -= 1;
        }
    }
}

// White's first rank at the start with this number, 0 to 959, by the usual numbering: both bishops, the queen, then the
// knights by a table; and a rook, the king and a rook on the squares that are left.
fn start_rank(number: usize) -> [u8; 8] {
    // Which two of the five free squares the knights are on, counted from 0.
    const KNIGHTS: [(usize, usize); 10] = [
        (0, 1),
        (0, 2),
        (0, 3),
        (0, 4),
        (1, 2),
        (1, 3),
        (1, 4),
        (2, 3),
        (2, 4),
        (3, 4),
    ];
    let mut rank = [b'-'; 8];
    rank[number % 4 * 2 + 1] = b'b';
    rank[number / 4 % 4 * 2] = b'b';
    put_on_free(&mut rank, number / 16 % 6, b'q');
    let (first, second) = KNIGHTS[number / 96 % 10];
    put_on_free(&mut rank, second, b'n');
    put_on_free(&mut rank, first, b'n');
    put_on_free(&mut rank, 0, b'r');
    put_on_free(&mut rank, 0, b'k');
    put_on_free(&mut rank, 0, b'r');
    rank
}

// The first file that has this piece, from 0.
fn place_of(rank: &[u8; 8], man: u8) -> Option<u8> {
    for index in 0..8 {
        if rank[index as usize] == man {
            return Some(index);
        }
    }
    None
}

// The last file that has this piece, from 0.
fn last_place_of(rank: &[u8; 8], man: u8) -> Option<u8> {
    let mut last = None;
    for index in 0..8 {
        if rank[index as usize] == man {
            last = Some(index);
        }
    }
    last
}

// A square's content: this piece.
const fn man(colour: Colour, kind: Kind) -> Option<Man> {
    Some(Man { colour, kind })
}

// A start of Chess960 that has no pieces but kings, rooks and pawns, with all rights; the arguments are files.
fn start(king: u8, left: u8, right: u8) -> Setup {
    let mut men = [None; 64];
    for file in 0..8 {
        men[8 + file] = man(Colour::White, Kind::Pawn);
        men[48 + file] = man(Colour::Black, Kind::Pawn);
    }
    for rook in [left, right] {
        men[rook as usize % 8] = man(Colour::White, Kind::Rook);
        men[56 + rook as usize % 8] = man(Colour::Black, Kind::Rook);
    }
    men[king as usize % 8] = man(Colour::White, Kind::King);
    men[56 + king as usize % 8] = man(Colour::Black, Kind::King);
    let white = ColourRights {
        king_side: Some(Square::new(right % 8)),
        queen_side: Some(Square::new(left % 8)),
    };
    let black = ColourRights {
        king_side: Some(Square::new(56 + right % 8)),
        queen_side: Some(Square::new(56 + left % 8)),
    };
    Setup {
        variant: Variant::Fischerandom,
        men,
        side: Colour::White,
        rights: Rights { white, black },
        target: None,
        halfmove: 0,
        fullmove: 1,
    }
}

// Whether White may castle from this king's file with the rook on that file. Where it may, king and rook must then be
// on the files `ends`, else it is an error.
fn castles(position: Position, king: u8, rook: u8, ends: (u8, u8)) -> Result<bool, Fail> {
    let m = Move {
        from: Square::new(king % 8),
        to: Square::new(rook % 8),
        promotion: None,
    };
    let again = m;
    if !position.is_legal(m) {
        return Ok(false);
    }
    let after = position.after(again);
    if after.at(Square::new(ends.0 % 8)) != man(Colour::White, Kind::King)
        || after.at(Square::new(ends.1 % 8)) != man(Colour::White, Kind::Rook)
    {
        return Err("king and rook stand elsewhere".into());
    }
    Ok(true)
}

// Whether White may castle on the king's side, and on the queen's side, at the start with this number, of which only
// kings, rooks and pawns are left.
fn castlings_from(number: usize) -> Result<(bool, bool), Fail> {
    let rank = start_rank(number);
    let king = place_of(&rank, b'k').ok_or("a king")?;
    let left = place_of(&rank, b'r').ok_or("a rook")?;
    let right = last_place_of(&rank, b'r').ok_or("a rook")?;
    let position = Position::new(start(king, left, right)).ok().ok_or("sound")?;
    Ok((
        castles(position, king, right, (6, 5))?,
        castles(position, king, left, (2, 3))?,
    ))
}

// At how many of the 960 starts, with only kings, rooks and pawns left, each castling is legal; Stockfish counted the
// same. Start 518 is that of normal chess.
#[test]
fn kings_castle_from_every_start(rt: HostRuntime) -> Result<(), Fail> {
    let mut king_side: u32 = 0;
    let mut queen_side: u32 = 0;
    for number in 0..960 {
        let legal = castlings_from(number)?;
        king_side = king_side.saturating_add(legal.0.into());
        queen_side = queen_side.saturating_add(legal.1.into());
    }
    is_equal(&rt, &start_rank(518).as_slice(), &b"rnbqkbnr".as_slice());
    is_equal(&rt, &(king_side, queen_side), &(942, 888));
    Ok(())
}

// At the initial position a3 (16) is attacked by White and not by Black, and a4 (24) not by White.
#[test]
fn squares_are_attacked(rt: HostRuntime) -> Result<(), Fail> {
    let position = Position::initial();
    assert!(rt; position.attacked(Square::new(16), Colour::White));
    assert!(rt; !position.attacked(Square::new(24), Colour::White));
    assert!(rt; !position.attacked(Square::new(16), Colour::Black));
    Ok(())
}
