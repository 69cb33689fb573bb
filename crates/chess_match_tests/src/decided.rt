//! Starts on which the board has a verdict, such as mate: it is the result, also if an engine fails before the first
//! turn.

use crate::plays::{
    BOARDS, Listed, On, check_end, ends, is_text, pgn_over, play_over, position_of, setup_of,
};
use chess_base::{Colour, Variant};
use chess_game::{HowEnded, Outcome};
use chess_match::MatchFault;
use std::alloc::Global;
use std::process::Abort;
use std::test::Fail;

/// A match from such a start: the start, what both engines say, and which call of White's writer fails (0: none). Then
/// what comes of it: outcome, comment, the engine that failed and how, and what both engines are sent.
struct Decided {
    start: &'static [u8],
    white: &'static [u8],
    black: &'static [u8],
    white_write: u64,
    outcome: Outcome,
    comment: &'static [u8],
    fault: (Colour, MatchFault),
    to_white: &'static [u8],
    to_black: &'static [u8],
}

// Engines that fail in the handshake, by a feature that is missing, in the setup, or at a write.
const DECIDED: &[Decided] = &[
    // Black's output ends in its handshake.
    Decided {
        start: b"7k/6Q1/6K1/8/8/8/8/8 b - - 0 1",
        white: b"feature ping=1 setboard=1 done=1\n",
        black: b"",
        white_write: 0,
        outcome: Outcome::WhiteWins,
        comment: b"White mates",
        fault: (Colour::Black, MatchFault::Ended),
        to_white: b"xboard\nprotover 2\naccepted ping\naccepted setboard\naccepted done\nresult 1-0 {White mates}\nquit\n",
        to_black: b"xboard\nprotover 2\nresult 1-0 {White mates}\nquit\n",
    },
    // White has no ping, and Black no setboard.
    Decided {
        start: b"7k/5Q2/6K1/8/8/8/8/8 b - - 0 1",
        white: b"feature done=1\n",
        black: b"feature ping=1 done=1\n",
        white_write: 0,
        outcome: Outcome::Draw,
        comment: b"Stalemate",
        fault: (Colour::White, MatchFault::NoPing),
        to_white: b"xboard\nprotover 2\naccepted done\nresult 1/2-1/2 {Stalemate}\nquit\n",
        to_black: b"xboard\nprotover 2\naccepted ping\naccepted done\nresult 1/2-1/2 {Stalemate}\nquit\n",
    },
    // White's output ends in its setup.
    Decided {
        start: b"8/8/8/8/8/6k1/6q1/7K w - - 0 1",
        white: b"feature ping=1 setboard=1 done=1\nx\n",
        black: b"feature ping=1 setboard=1 done=1\n",
        white_write: 0,
        outcome: Outcome::BlackWins,
        comment: b"Black mates",
        fault: (Colour::White, MatchFault::Ended),
        to_white: b"xboard\nprotover 2\naccepted ping\naccepted setboard\naccepted done\nnew\nlevel 0 0:10 0\nnopost\neasy\nforce\nsetboard 8/8/8/8/8/6k1/6q1/7K w - - 0 1\nping 1\nresult 0-1 {Black mates}\nquit\n",
        to_black: b"xboard\nprotover 2\naccepted ping\naccepted setboard\naccepted done\nresult 0-1 {Black mates}\nquit\n",
    },
    // The first write to White fails: White is sent nothing more.
    Decided {
        start: b"8/8/4k3/8/8/3BK3/8/8 w - - 0 1",
        white: b"feature ping=1 setboard=1 done=1\n",
        black: b"feature ping=1 setboard=1 done=1\n",
        white_write: 1,
        outcome: Outcome::Draw,
        comment: b"Insufficient material",
        fault: (Colour::White, MatchFault::Write),
        to_white: b"",
        to_black: b"result 1/2-1/2 {Insufficient material}\nquit\n",
    },
];

// Plays the match of a row on this board, and asserts what comes of it.
fn stands(rt: &impl Abort, alloc: Global, on: On, decided: &Decided) -> Result<(), Fail> {
    let start = position_of(rt, Variant::Normal, decided.start);
    let setup = setup_of(rt, b"0 0:10 0", start);
    let mut white = ends(alloc, decided.white, 1024, 0, decided.white_write);
    let mut black = ends(alloc, decided.black, 1024, 0, 0);
    let mut moments = Listed { rest: &[] };
    let (end, _) = play_over(alloc, on, 100, &mut white, &mut black, &mut moments, &setup)?;
    check_end(
        rt,
        &end,
        decided.outcome,
        decided.comment,
        Some(decided.fault),
    );
    assert_eq!(rt; end.ended, HowEnded::Normal);
    let to_white = white.writer.into_writer().bytes;
    let to_black = black.writer.into_writer().bytes;
    is_text(rt, "to White", to_white.as_slice(), decided.to_white);
    is_text(rt, "to Black", to_black.as_slice(), decided.to_black);
    Ok(())
}

// Plays each row on both boards.
#[test]
fn verdicts_on_the_start_stand(rt: HostRuntime) -> Result<(), Fail> {
    for decided in DECIDED {
        for on in BOARDS {
            stands(&rt, rt.alloc(), *on, decided)?;
        }
    }
    Ok(())
}

// The PGN of the first row's game: it has the verdict's result.
const WRITTEN: &[u8] =
    b"[Event \"?\"]\n[Site \"?\"]\n[Date \"????.??.??\"]\n[Round \"?\"]\n[White \"?\"]\n[Black \"?\"]\n[Result \"1-0\"]\n[FEN \"7k/6Q1/6K1/8/8/8/8/8 b - - 0 1\"]\n[SetUp \"1\"]\n[Termination \"normal\"]\n\n1-0\n\n";

// Plays the match of a row on this board, and asserts the PGN of its game.
fn writes(rt: &impl Abort, alloc: Global, on: On, decided: &Decided) -> Result<(), Fail> {
    let start = position_of(rt, Variant::Normal, decided.start);
    let setup = setup_of(rt, b"0 0:10 0", start);
    let mut white = ends(alloc, decided.white, 1024, 0, 0);
    let mut black = ends(alloc, decided.black, 1024, 0, 0);
    let text = pgn_over(alloc, on, &mut white, &mut black, &setup)?;
    is_text(rt, "PGN", text.as_slice(), WRITTEN);
    Ok(())
}

// Does so for the first row on both boards.
#[test]
fn a_verdict_on_the_start_in_pgn(rt: HostRuntime) -> Result<(), Fail> {
    for on in BOARDS {
        writes(&rt, rt.alloc(), *on, &DECIDED[0])?;
    }
    Ok(())
}
