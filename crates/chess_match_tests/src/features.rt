//! Engines with other features than those of the first matches, and other ends.

use crate::engines::{Row, check_cuts};
use std::test::Fail;

// Matches, and what both engines are sent in them.
const ROWS: &[Row] = &[
    // Both take moves in SAN; White with `usermove` before them.
    Row {
        level: b"0 0:10 0",
        start: b"",
        limit: 100,
        white: b"feature ping=1 usermove=1 san=1 done=1\npong 1\nmove f2f3\npong 2\nmove g2g4\npong 3\n",
        black: b"feature ping=1 san=1 done=1\npong 1\nmove e7e5\npong 2\nmove d8h4\n",
        moments: &[],
        to_white: b"xboard\nprotover 2\naccepted ping\naccepted usermove\naccepted san\naccepted done\nnew\nlevel 0 0:10 0\nnopost\neasy\nforce\nping 1\ntime 1000\notim 1000\ngo\nping 2\ntime 1000\notim 1000\nusermove e5\nping 3\nusermove Qh4#\nresult 0-1 {Black mates}\nquit\n",
        to_black: b"xboard\nprotover 2\naccepted ping\naccepted san\naccepted done\nnew\nlevel 0 0:10 0\nnopost\neasy\nforce\nping 1\nf3\ntime 1000\notim 1000\ngo\nping 2\ntime 1000\notim 1000\ng4\nresult 0-1 {Black mates}\nquit\n",
    },
    // White takes no times.
    Row {
        level: b"0 0:10 0",
        start: b"",
        limit: 100,
        white: b"feature ping=1 usermove=1 time=0 done=1\npong 1\nmove f2f3\npong 2\nmove g2g4\npong 3\n",
        black: b"feature ping=1 done=1\npong 1\nmove e7e5\npong 2\nmove d8h4\n",
        moments: &[],
        to_white: b"xboard\nprotover 2\naccepted ping\naccepted usermove\naccepted time\naccepted done\nnew\nlevel 0 0:10 0\nnopost\neasy\nforce\nping 1\ngo\nping 2\nusermove e7e5\nping 3\nusermove d8h4\nresult 0-1 {Black mates}\nquit\n",
        to_black: b"xboard\nprotover 2\naccepted ping\naccepted done\nnew\nlevel 0 0:10 0\nnopost\neasy\nforce\nping 1\nf2f3\ntime 1000\notim 1000\ngo\nping 2\ntime 1000\notim 1000\ng2g4\nresult 0-1 {Black mates}\nquit\n",
    },
    // White takes no draws, so Black's offer isn't sent; it counts all the same.
    Row {
        level: b"0 0:10 0",
        start: b"",
        limit: 100,
        white: b"feature ping=1 usermove=1 draw=0 done=1\npong 1\nmove f2f3\npong 2\noffer draw\n",
        black: b"feature ping=1 done=1\npong 1\noffer draw\nmove e7e5\npong 2\n",
        moments: &[],
        to_white: b"xboard\nprotover 2\naccepted ping\naccepted usermove\naccepted draw\naccepted done\nnew\nlevel 0 0:10 0\nnopost\neasy\nforce\nping 1\ntime 1000\notim 1000\ngo\nping 2\ntime 1000\notim 1000\nusermove e7e5\nresult 1/2-1/2 {Draw agreed}\nquit\n",
        to_black: b"xboard\nprotover 2\naccepted ping\naccepted done\nnew\nlevel 0 0:10 0\nnopost\neasy\nforce\nping 1\nf2f3\ntime 1000\notim 1000\ngo\nping 2\nresult 1/2-1/2 {Draw agreed}\nquit\n",
    },
    // White's line is ignored, since no move was sent to it.
    Row {
        level: b"0 0:10 0",
        start: b"",
        limit: 100,
        white: b"feature ping=1 usermove=1 done=1\npong 1\nIllegal move: a7a6\nmove f2f3\npong 2\n",
        black: b"feature ping=1 done=1\npong 1\nIllegal move: f2f3\n",
        moments: &[],
        to_white: b"xboard\nprotover 2\naccepted ping\naccepted usermove\naccepted done\nnew\nlevel 0 0:10 0\nnopost\neasy\nforce\nping 1\ntime 1000\notim 1000\ngo\nping 2\nresult 1-0 {Black rejects a legal move}\nquit\n",
        to_black: b"xboard\nprotover 2\naccepted ping\naccepted done\nnew\nlevel 0 0:10 0\nnopost\neasy\nforce\nping 1\nf2f3\ntime 1000\notim 1000\ngo\nresult 1-0 {Black rejects a legal move}\nquit\n",
    },
    // With two half-moves no other one has room.
    Row {
        level: b"0 0:10 0",
        start: b"",
        limit: 2,
        white: b"feature ping=1 usermove=1 done=1\npong 1\nmove f2f3\npong 2\nmove g2g4\n",
        black: b"feature ping=1 done=1\npong 1\nmove e7e5\npong 2\n",
        moments: &[],
        to_white: b"xboard\nprotover 2\naccepted ping\naccepted usermove\naccepted done\nnew\nlevel 0 0:10 0\nnopost\neasy\nforce\nping 1\ntime 1000\notim 1000\ngo\nping 2\ntime 1000\notim 1000\nusermove e7e5\nresult * {Game too long}\nquit\n",
        to_black: b"xboard\nprotover 2\naccepted ping\naccepted done\nnew\nlevel 0 0:10 0\nnopost\neasy\nforce\nping 1\nf2f3\ntime 1000\notim 1000\ngo\nping 2\nresult * {Game too long}\nquit\n",
    },
    // Before the move the clock is at 99, so the claim is an offer; after it, and before the pong, it is at 100.
    Row {
        level: b"0 0:10 0",
        start: b"4k3/8/8/8/8/8/8/R3K3 w - - 99 60",
        limit: 100,
        white: b"feature ping=1 setboard=1 done=1\npong 1\n1/2-1/2 {50}\nmove a1a2\n1/2-1/2 {50}\n",
        black: b"feature ping=1 setboard=1 done=1\npong 1\n",
        moments: &[],
        to_white: b"xboard\nprotover 2\naccepted ping\naccepted setboard\naccepted done\nnew\nlevel 0 0:10 0\nnopost\neasy\nforce\nsetboard 4k3/8/8/8/8/8/8/R3K3 w - - 99 60\nping 1\ntime 1000\notim 1000\ngo\nping 2\nresult 1/2-1/2 {50-move rule}\nquit\n",
        to_black: b"xboard\nprotover 2\naccepted ping\naccepted setboard\naccepted done\nnew\nlevel 0 0:10 0\nnopost\neasy\nforce\nsetboard 4k3/8/8/8/8/8/8/R3K3 w - - 99 60\nping 1\ndraw\na1a2\nresult 1/2-1/2 {50-move rule}\nquit\n",
    },
    // A start with a verdict ends the match after both setups.
    Row {
        level: b"0 0:10 0",
        start: b"7k/5Q2/6K1/8/8/8/8/8 b - - 0 1",
        limit: 100,
        white: b"feature ping=1 setboard=1 done=1\npong 1\n",
        black: b"feature ping=1 setboard=1 done=1\npong 1\n",
        moments: &[],
        to_white: b"xboard\nprotover 2\naccepted ping\naccepted setboard\naccepted done\nnew\nlevel 0 0:10 0\nnopost\neasy\nforce\nsetboard 7k/5Q2/6K1/8/8/8/8/8 b - - 0 1\nping 1\nresult 1/2-1/2 {Stalemate}\nquit\n",
        to_black: b"xboard\nprotover 2\naccepted ping\naccepted setboard\naccepted done\nnew\nlevel 0 0:10 0\nnopost\neasy\nforce\nsetboard 7k/5Q2/6K1/8/8/8/8/8 b - - 0 1\nping 1\nresult 1/2-1/2 {Stalemate}\nquit\n",
    },
];

// Plays each row on both boards and with reads of several lengths.
#[test]
fn other_features_and_ends(rt: HostRuntime) -> Result<(), Fail> {
    for row in ROWS {
        check_cuts(&rt, rt.alloc(), row)?;
    }
    Ok(())
}
