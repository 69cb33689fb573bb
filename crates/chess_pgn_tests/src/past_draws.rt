//! Games that `read_past_draws` reads on after fivefold repetition or 75 moves, as games before 2014 may go on.

use crate::equal::{is_equal, is_equal_at};
use chess_game::{Game, MOST_MOVES, Outcome};
use chess_moves::Plain;
use chess_pgn::{PgnEnd, PgnFault, PgnFaultKind, ending, read_past_draws};
use std::alloc::Global;
use std::process::Abort;
use std::test::Fail;

// The answer that reading is to have: the game's outcome and where it ends, a fault and its offset, or that there is no
// game.
#[derive(Clone, Copy)]
enum Wanted {
    Ended(Outcome, usize),
    Fault(PgnFaultKind, usize),
    NoGame,
}

impl Wanted {
    // The same as a value of the reader's type.
    fn answer(self) -> Result<Option<PgnEnd>, PgnFault> {
        match self {
            Wanted::Ended(outcome, offset) => Ok(Some(PgnEnd {
                outcome,
                termination: None,
                offset,
            })),
            Wanted::Fault(kind, offset) => Err(PgnFault { kind, offset }),
            Wanted::NoGame => Ok(None),
        }
    }
}

// A text, the answer, how many half-moves its game has (0 where there is none or a fault), and whether mate, stalemate
// or a dead position ends the game.
struct Row {
    text: &'static [u8],
    wanted: Wanted,
    plies: usize,
    is_ended: bool,
}

// Games with such a draw, and one without.
const ROWS: [Row; 20] = [
    // A position is there for the fifth time, and for the sixth.
    Row {
        text: b"Nf3 Nf6 Ng1 Ng8 Nf3 Nf6 Ng1 Ng8 Nf3 Nf6 Ng1 Ng8 Nf3 Nf6 Ng1 Ng8 *",
        wanted: Wanted::Ended(Outcome::Unfinished, 65),
        plies: 16,
        is_ended: false,
    },
    Row {
        text: b"Nf3 Nf6 Ng1 Ng8 Nf3 Nf6 Ng1 Ng8 Nf3 Nf6 Ng1 Ng8 Nf3 Nf6 Ng1 Ng8 e4 *",
        wanted: Wanted::Ended(Outcome::Unfinished, 68),
        plies: 17,
        is_ended: false,
    },
    Row {
        text: b"Nf3 Nf6 Ng1 Ng8 Nf3 Nf6 Ng1 Ng8 Nf3 Nf6 Ng1 Ng8 Nf3 Nf6 Ng1 Ng8 Nf3 Nf6 Ng1 Ng8 1/2-1/2",
        wanted: Wanted::Ended(Outcome::Draw, 87),
        plies: 20,
        is_ended: false,
    },
    // 75 moves of each side without a capture or pawn move, by moves, and at the start.
    Row {
        text: b"[FEN \"4k3/8/8/8/8/8/8/R3K3 w - - 149 100\"] Ra2 *",
        wanted: Wanted::Ended(Outcome::Unfinished, 48),
        plies: 1,
        is_ended: false,
    },
    Row {
        text: b"[FEN \"4k3/8/8/8/8/8/8/R3K3 w - - 149 100\"] Ra2 Kd7 Ra3 *",
        wanted: Wanted::Ended(Outcome::Unfinished, 56),
        plies: 3,
        is_ended: false,
    },
    Row {
        text: b"[FEN \"4k3/8/8/8/8/8/8/R3K3 w - - 150 100\"] Ra2 *",
        wanted: Wanted::Ended(Outcome::Unfinished, 48),
        plies: 1,
        is_ended: false,
    },
    // Mate after the fifth time ends the game.
    Row {
        text: b"Nf3 Nf6 Ng1 Ng8 Nf3 Nf6 Ng1 Ng8 Nf3 Nf6 Ng1 Ng8 Nf3 Nf6 Ng1 Ng8 f3 e5 g4 Qh4 0-1",
        wanted: Wanted::Ended(Outcome::BlackWins, 80),
        plies: 20,
        is_ended: true,
    },
    Row {
        text: b"Nf3 Nf6 Ng1 Ng8 Nf3 Nf6 Ng1 Ng8 Nf3 Nf6 Ng1 Ng8 Nf3 Nf6 Ng1 Ng8 f3 e5 g4 Qh4 a3 *",
        wanted: Wanted::Fault(PgnFaultKind::AfterEnd, 77),
        plies: 0,
        is_ended: true,
    },
    // Mate, stalemate and a dead position end a game as ever.
    Row {
        text: b"1. f3 e5 2. g4 Qh4 3. a3 *",
        wanted: Wanted::Fault(PgnFaultKind::AfterEnd, 22),
        plies: 0,
        is_ended: true,
    },
    Row {
        text: b"[FEN \"7k/8/6K1/8/8/8/5Q2/8 w - - 0 1\"] Qf7 Kg8 *",
        wanted: Wanted::Fault(PgnFaultKind::AfterEnd, 43),
        plies: 0,
        is_ended: true,
    },
    Row {
        text: b"[FEN \"4k3/8/8/8/8/8/4p3/4K3 w - - 0 1\"] Kxe2 Kd7 *",
        wanted: Wanted::Fault(PgnFaultKind::AfterEnd, 45),
        plies: 0,
        is_ended: true,
    },
    // Other faults after the fifth time.
    Row {
        text: b"Nf3 Nf6 Ng1 Ng8 Nf3 Nf6 Ng1 Ng8 Nf3 Nf6 Ng1 Ng8 Nf3 Nf6 Ng1 Ng8 e5 *",
        wanted: Wanted::Fault(PgnFaultKind::IllegalMove, 64),
        plies: 0,
        is_ended: false,
    },
    Row {
        text: b"Nf3 Nf6 Ng1 Ng8 Nf3 Nf6 Ng1 Ng8 Nf3 Nf6 Ng1 Ng8 Nf3 Nf6 Ng1 Ng8 e4 x *",
        wanted: Wanted::Fault(PgnFaultKind::BadToken, 67),
        plies: 0,
        is_ended: false,
    },
    Row {
        text: b"Nf3 Nf6 Ng1 Ng8 Nf3 Nf6 Ng1 Ng8 Nf3 Nf6 Ng1 Ng8 Nf3 Nf6 Ng1 Ng8 e4 {",
        wanted: Wanted::Fault(PgnFaultKind::UnclosedComment, 67),
        plies: 0,
        is_ended: false,
    },
    Row {
        text: b"Nf3 Nf6 Ng1 Ng8 Nf3 Nf6 Ng1 Ng8 Nf3 Nf6 Ng1 Ng8 Nf3 Nf6 Ng1 Ng8 e4 (",
        wanted: Wanted::Fault(PgnFaultKind::UnclosedVariation, 67),
        plies: 0,
        is_ended: false,
    },
    Row {
        text: b"Nf3 Nf6 Ng1 Ng8 Nf3 Nf6 Ng1 Ng8 Nf3 Nf6 Ng1 Ng8 Nf3 Nf6 Ng1 Ng8 e4 [Event \"a\"] *",
        wanted: Wanted::Fault(PgnFaultKind::NoResult, 67),
        plies: 0,
        is_ended: false,
    },
    Row {
        text: b"Nf3 Nf6 Ng1 Ng8 Nf3 Nf6 Ng1 Ng8 Nf3 Nf6 Ng1 Ng8 Nf3 Nf6 Ng1 Ng8 e4",
        wanted: Wanted::Fault(PgnFaultKind::NoResult, 66),
        plies: 0,
        is_ended: false,
    },
    // Numbers, comments, variations and marks after the fifth time.
    Row {
        text: b"Nf3 Nf6 Ng1 Ng8 Nf3 Nf6 Ng1 Ng8 Nf3 Nf6 Ng1 Ng8 Nf3 Nf6 Ng1 Ng8 9. e4 {a} (d4) e5 $1 !? *",
        wanted: Wanted::Ended(Outcome::Unfinished, 89),
        plies: 18,
        is_ended: false,
    },
    // A game without such a draw.
    Row {
        text: b"1. e4 e5 *",
        wanted: Wanted::Ended(Outcome::Unfinished, 10),
        plies: 2,
        is_ended: false,
    },
    Row {
        text: b" ",
        wanted: Wanted::NoGame,
        plies: 0,
        is_ended: false,
    },
];

// Reads a row's text, and asserts the answer, the number of half-moves, and whether the board ends the game when these
// draws are ignored.
fn is_read(rt: &impl Abort, alloc: Global, row: &Row) -> Result<(), Fail> {
    let mut game = Game::open(alloc, Plain::new(), MOST_MOVES)?;
    let (answer, plies) = match read_past_draws(row.text, 0, &mut game) {
        Ok(Some(read)) => (Ok(Some(read.end)), read.plies),
        Ok(None) => (Ok(None), 0),
        Err(fault) => (Err(fault), 0),
    };
    is_equal_at(rt, 0, row.text, &answer, &row.wanted.answer());
    is_equal_at(rt, 0, row.text, &plies, &row.plies);
    is_equal(rt, &ending(false, &game).is_some(), &row.is_ended);
    Ok(())
}

// Reads each row.
#[test]
fn games_go_on_after_draws_of_2014(rt: HostRuntime) -> Result<(), Fail> {
    for row in &ROWS {
        is_read(&rt, rt.alloc(), row)?;
    }
    Ok(())
}
