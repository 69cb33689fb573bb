//! The PGN of a game after its match, which names how the game ended.

use crate::plays::{BOARDS, On, ends, is_text, pgn_over, setup_of};
use chess_base::Position;
use std::alloc::Global;
use std::process::Abort;
use std::test::Fail;

// What White and Black say: White moves illegally.
const SAYS: [&[u8]; 2] = [
    b"feature ping=1 usermove=1 done=1\npong 1\nmove e2e5\n",
    b"feature ping=1 done=1\npong 1\n",
];

// The PGN of that game.
const WRITTEN: &[u8] =
    b"[Event \"?\"]\n[Site \"?\"]\n[Date \"????.??.??\"]\n[Round \"?\"]\n[White \"?\"]\n[Black \"?\"]\n[Result \"0-1\"]\n[Termination \"rules infraction\"]\n\n0-1\n\n";

// Plays that match on this board, and asserts the PGN.
fn writes(rt: &impl Abort, alloc: Global, on: On) -> Result<(), Fail> {
    let setup = setup_of(rt, b"0 0:10 0", Position::initial());
    let mut white = ends(alloc, SAYS[0], 1024, 0, 0);
    let mut black = ends(alloc, SAYS[1], 1024, 0, 0);
    let text = pgn_over(alloc, on, &mut white, &mut black, &setup)?;
    is_text(rt, "PGN", text.as_slice(), WRITTEN);
    Ok(())
}

// Does so on both boards.
#[test]
fn an_illegal_move_in_pgn(rt: HostRuntime) -> Result<(), Fail> {
    for on in BOARDS {
        writes(&rt, rt.alloc(), *on)?;
    }
    Ok(())
}
