//! Draws by threefold repetition and by 50 moves, which a side must claim (`Draws::Claimed`) or which end the game by
//! themselves (`Draws::Automatic`).

use crate::plays::{
    BOARDS, Listed, On, check_end, ends, is_text, play_over, position_of, setup_of,
};
use chess_base::Variant;
use chess_game::{HowEnded, Outcome};
use chess_match::{Draws, Setup};
use std::alloc::Global;
use std::process::Abort;
use std::test::Fail;

/// A match: its start, what both engines say, and its kind of draws. Then how it ends: outcome, comment, and after how
/// many half-moves.
struct DrawRow {
    start: &'static [u8],
    white: &'static [u8],
    black: &'static [u8],
    draws: Draws,
    outcome: Outcome,
    comment: &'static [u8],
    moves: usize,
}

// The FEN of the initial position.
const INITIAL: &[u8] = b"rnbqkbnr/pppppppp/8/8/8/8/PPPPPPPP/RNBQKBNR w KQkq - 0 1";

// White's knight goes out and back twice, and then White resigns.
const WHITE_KNIGHT: &[u8] =
    b"feature ping=1 setboard=1 done=1\npong 1\nmove g1f3\npong 2\nmove f3g1\npong 3\nmove g1f3\npong 4\nmove f3g1\npong 5\nresign\n";

// Black's knight goes out and back twice.
const BLACK_KNIGHT: &[u8] =
    b"feature ping=1 setboard=1 done=1\npong 1\nmove g8f6\npong 2\nmove f6g8\npong 3\nmove g8f6\npong 4\nmove f6g8\npong 5\n";

// White's rook and Black's king move so that no position comes for the third time; then White resigns.
const WHITE_ROOK: &[u8] =
    b"feature ping=1 setboard=1 done=1\npong 1\nmove a2a3\npong 2\nmove a3a4\npong 3\nresign\n";

const BLACK_KING: &[u8] =
    b"feature ping=1 setboard=1 done=1\npong 1\nmove h8g8\npong 2\nmove g8h8\npong 3\n";

// Lines of play just at a limit or just before it, with both kinds of draws.
const ROWS: &[DrawRow] = &[
    // The initial position is there for the third time after 8 half-moves, for the second time after 4.
    DrawRow {
        start: INITIAL,
        white: WHITE_KNIGHT,
        black: BLACK_KNIGHT,
        draws: Draws::Automatic,
        outcome: Outcome::Draw,
        comment: b"Threefold repetition",
        moves: 8,
    },
    DrawRow {
        start: INITIAL,
        white: WHITE_KNIGHT,
        black: BLACK_KNIGHT,
        draws: Draws::Claimed,
        outcome: Outcome::BlackWins,
        comment: b"White resigns",
        moves: 8,
    },
    // The halfmove clock is 100 after 2 half-moves, 99 after one.
    DrawRow {
        start: b"7k/8/8/8/8/8/R7/K7 w - - 98 80",
        white: WHITE_ROOK,
        black: BLACK_KING,
        draws: Draws::Automatic,
        outcome: Outcome::Draw,
        comment: b"50-move rule",
        moves: 2,
    },
    DrawRow {
        start: b"7k/8/8/8/8/8/R7/K7 w - - 98 80",
        white: WHITE_ROOK,
        black: BLACK_KING,
        draws: Draws::Claimed,
        outcome: Outcome::BlackWins,
        comment: b"White resigns",
        moves: 4,
    },
    // It is 97, 98 and so on up to 99 in a game of 2 half-moves, after which White resigns.
    DrawRow {
        start: b"7k/8/8/8/8/8/R7/K7 w - - 97 80",
        white: b"feature ping=1 setboard=1 done=1\npong 1\nmove a2a3\npong 2\nresign\n",
        black: BLACK_KING,
        draws: Draws::Automatic,
        outcome: Outcome::BlackWins,
        comment: b"White resigns",
        moves: 2,
    },
    // It is 100 at the start.
    DrawRow {
        start: b"7k/8/8/8/8/8/R7/K7 w - - 100 80",
        white: WHITE_ROOK,
        black: BLACK_KING,
        draws: Draws::Automatic,
        outcome: Outcome::Draw,
        comment: b"50-move rule",
        moves: 0,
    },
    DrawRow {
        start: b"7k/8/8/8/8/8/R7/K7 w - - 100 80",
        white: WHITE_ROOK,
        black: BLACK_KING,
        draws: Draws::Claimed,
        outcome: Outcome::BlackWins,
        comment: b"White resigns",
        moves: 4,
    },
    // A mate on the hundredth half-move is a mate (5.1.1).
    DrawRow {
        start: b"7k/8/6K1/8/8/8/R7/8 w - - 99 80",
        white: b"feature ping=1 setboard=1 done=1\npong 1\nmove a2a8\npong 2\n",
        black: BLACK_KING,
        draws: Draws::Automatic,
        outcome: Outcome::WhiteWins,
        comment: b"White mates",
        moves: 1,
    },
];

// The setup of a row's match: its start and its kind of draws, with ten seconds for each side.
fn setup_for(rt: &impl Abort, row: &DrawRow) -> Setup {
    let start = position_of(rt, Variant::Normal, row.start);
    let mut setup = setup_of(rt, b"0 0:10 0", start);
    setup.draws = row.draws;
    setup
}

// Plays the match of a row on this board, and asserts how it ends.
fn ends_so(rt: &impl Abort, alloc: Global, on: On, row: &DrawRow) -> Result<(), Fail> {
    let setup = setup_for(rt, row);
    let mut white = ends(alloc, row.white, 1024, 0, 0);
    let mut black = ends(alloc, row.black, 1024, 0, 0);
    let mut moments = Listed { rest: &[] };
    let (end, moves) = play_over(alloc, on, 100, &mut white, &mut black, &mut moments, &setup)?;
    check_end(rt, &end, row.outcome, row.comment, None);
    assert_eq!(rt; (end.ended, moves), (HowEnded::Normal, row.moves), "end");
    Ok(())
}

// Plays each row on both boards.
#[test]
fn draws_that_need_a_claim_or_none(rt: HostRuntime) -> Result<(), Fail> {
    for row in ROWS {
        for on in BOARDS {
            ends_so(&rt, rt.alloc(), *on, row)?;
        }
    }
    Ok(())
}

// What both are sent in the first row's match: White still gets the move by which the game is drawn, and Black no ping
// for it.
const TO_WHITE: &[u8] =
    b"xboard\nprotover 2\naccepted ping\naccepted setboard\naccepted done\nnew\nlevel 0 0:10 0\nnopost\neasy\nforce\nping 1\ntime 1000\notim 1000\ngo\nping 2\ntime 1000\notim 1000\ng8f6\nping 3\ntime 1000\notim 1000\nf6g8\nping 4\ntime 1000\notim 1000\ng8f6\nping 5\nf6g8\nresult 1/2-1/2 {Threefold repetition}\nquit\n";

const TO_BLACK: &[u8] =
    b"xboard\nprotover 2\naccepted ping\naccepted setboard\naccepted done\nnew\nlevel 0 0:10 0\nnopost\neasy\nforce\nping 1\ng1f3\ntime 1000\notim 1000\ngo\nping 2\ntime 1000\notim 1000\nf3g1\nping 3\ntime 1000\notim 1000\ng1f3\nping 4\ntime 1000\notim 1000\nf3g1\nresult 1/2-1/2 {Threefold repetition}\nquit\n";

// Plays that match, and compares what both were sent.
#[test]
fn lines_of_an_automatic_draw(rt: HostRuntime) -> Result<(), Fail> {
    let setup = setup_for(&rt, &ROWS[0]);
    let mut white = ends(rt.alloc(), ROWS[0].white, 1024, 0, 0);
    let mut black = ends(rt.alloc(), ROWS[0].black, 1024, 0, 0);
    let mut moments = Listed { rest: &[] };
    play_over(
        rt.alloc(),
        On::Bits,
        100,
        &mut white,
        &mut black,
        &mut moments,
        &setup,
    )?;
    is_text(
        &rt,
        "to White",
        white.writer.into_writer().bytes.as_slice(),
        TO_WHITE,
    );
    is_text(
        &rt,
        "to Black",
        black.writer.into_writer().bytes.as_slice(),
        TO_BLACK,
    );
    Ok(())
}
