//! `verify --explain`: where a fault is, the text there, the position and the reason.

use crate::collection::{check_each_cut, check_failed_read, check_failed_write};
use crate::readers::{Parts, run_on};
use crate::runs::{SOUND, Wanted, check_in_all_pieces, check_output};
use std::process::Abort;
use std::test::Fail;

// The arguments of the runs below, for a text and for a collection.
const EXPLAIN: &[&str] = &["verify", "--explain"];

const KEEP_GOING: &[&str] = &["verify", "--keep-going", "--explain"];

// Each reason of a fault, and a fault of each kind but one: the arguments, the text, what is written of it, and the
// status. A line with `#` gives the place, the text there, the position and the reason.
const KINDS: [(&[&str], &[u8], &[u8], u8); 23] = [
    (
        &["verify", "--explain"],
        b"1. e4 -- *",
        b"game 1: bad token at byte 6\n# line 1 column 7 -- | rnbqkbnr/pppppppp/8/8/4P3/8/PPPP1PPP/RNBQKBNR b KQkq e3 0 1 | a null move, which chess does not have\n",
        1,
    ),
    (
        &["verify", "--explain"],
        b"1. e4 Z0 *",
        b"game 1: bad token at byte 6\n# line 1 column 7 Z0 | rnbqkbnr/pppppppp/8/8/4P3/8/PPPP1PPP/RNBQKBNR b KQkq e3 0 1 | a null move, which chess does not have\n",
        1,
    ),
    (
        &["verify", "--explain", "--strict"],
        b"[Variant \"Atomic\"] 1. e4 *",
        b"game 1: unknown variant at byte 10\n# line 1 column 11 Atomic\"] | neither normal chess nor Chess960, by a name that is known\n",
        1,
    ),
    (
        &["verify", "--explain"],
        b"1. e4 e5\n2. Ke3 *",
        b"game 1: illegal move at byte 12\n# line 2 column 4 Ke3 | rnbqkbnr/pppp1ppp/8/4p3/4P3/8/PPPP1PPP/RNBQKBNR w KQkq e6 0 2\n",
        1,
    ),
    (
        &["verify", "--explain"],
        b"[Event \"x\" 1. e4 *",
        b"game 1: bad tag at byte 0\n# line 1 column 1 [Event | no bracket after the value\n",
        1,
    ),
    (
        &["verify", "--explain"],
        b"1. e4 *\n[FEN \"8/8/8/8/8/8/8/8 w - - 0 1\"] *",
        b"game 1: 1 half-moves, *\ngame 2: bad FEN at byte 14\n# line 2 column 7 8/8/8/8/8/8/8/8 | kings\n",
        1,
    ),
    (
        &["verify", "--explain"],
        b"[FEN \"x\"] *",
        b"game 1: bad FEN at byte 6\n# line 1 column 7 x | fields\n",
        1,
    ),
    (
        &["verify", "--explain"],
        b"[FEN \"\"] *",
        b"game 1: bad FEN at byte 6\n# line 1 column 7 (end) | fields\n",
        1,
    ),
    (
        &["verify", "--explain"],
        b"[FEN \"4k3/8/8/8/8/8/8/4K3 w - e3 0 1\"] *",
        b"game 1: bad FEN at byte 6\n# line 1 column 31 e3 | en passant\n",
        1,
    ),
    (
        &["verify", "--explain"],
        b"1. e4 & *",
        b"game 1: bad token at byte 6\n# line 1 column 7 & | rnbqkbnr/pppppppp/8/8/4P3/8/PPPP1PPP/RNBQKBNR b KQkq e3 0 1 | begins no token\n",
        1,
    ),
    (
        &["verify", "--explain"],
        b"[FEN \"4k3/8/8/8/8/5N2/8/1N2K3 w - - 0 1\"] Nd2 *",
        b"game 1: ambiguous move at byte 42\n# line 1 column 43 Nd2 | 4k3/8/8/8/8/5N2/8/1N2K3 w - - 0 1\n",
        1,
    ),
    (
        &["verify", "--explain"],
        b"1. f3 e5 2. g4 Qh4 a3 *",
        b"game 1: move after the end at byte 19\n# line 1 column 20 a3 | rnb1kbnr/pppp1ppp/8/4p3/6Pq/5P2/PPPPP2P/RNBQKBNR w KQkq - 1 3 | 0-1 {Black mates}\n",
        1,
    ),
    (
        &["verify", "--explain"],
        b"1. e4 e5 2. Bc4 Nc6 3. Qh5 Nf6 4. Qxf7 a6 *",
        b"game 1: move after the end at byte 39\n# line 1 column 40 a6 | r1bqkb1r/pppp1Qpp/2n2n2/4p3/2B1P3/8/PPPP1PPP/RNB1K1NR b KQkq - 0 4 | 1-0 {White mates}\n",
        1,
    ),
    (
        &["verify", "--explain"],
        b"Nf3 Nf6 Ng1 Ng8\nNf3 Nf6 Ng1 Ng8\nNf3 Nf6 Ng1 Ng8\nNf3 Nf6 Ng1 Ng8\ne4 *",
        b"game 1: move after the end at byte 64\n# line 5 column 1 e4 | rnbqkbnr/pppppppp/8/8/8/8/PPPPPPPP/RNBQKBNR w KQkq - 16 9 | 1/2-1/2 {Fivefold repetition}\n",
        1,
    ),
    (
        &["verify", "--explain"],
        b"1. e4 {x y",
        b"game 1: unclosed comment at byte 6\n# line 1 column 7 {x | rnbqkbnr/pppppppp/8/8/4P3/8/PPPP1PPP/RNBQKBNR b KQkq e3 0 1\n",
        1,
    ),
    (
        &["verify", "--explain"],
        b"1. e4 (e5 *",
        b"game 1: unclosed variation at byte 6\n# line 1 column 7 (e5 | rnbqkbnr/pppppppp/8/8/4P3/8/PPPP1PPP/RNBQKBNR b KQkq e3 0 1\n",
        1,
    ),
    (
        &["verify", "--explain"],
        b"1. e4",
        b"game 1: no result at byte 5\n# line 1 column 1 1. | rnbqkbnr/pppppppp/8/8/4P3/8/PPPP1PPP/RNBQKBNR b KQkq e3 0 1\n",
        1,
    ),
    (
        &["verify", "--explain"],
        b"1. e4 [Result \"0-1\"] 1-0",
        b"game 1: no result at byte 6\n# line 1 column 1 1. | rnbqkbnr/pppppppp/8/8/4P3/8/PPPP1PPP/RNBQKBNR b KQkq e3 0 1\n",
        1,
    ),
    (
        &["verify", "--explain", "--strict"],
        b"[Result \"1-0\"] 1. e4 0-1",
        b"game 1: result differs at byte 9\n# line 1 column 10 1-0\"] | rnbqkbnr/pppppppp/8/8/4P3/8/PPPP1PPP/RNBQKBNR b KQkq e3 0 1 | Result 1-0, ended 0-1\n",
        1,
    ),
    (
        &["verify", "--explain", "--strict"],
        b"1. f3 e5 2. g4 Qh4 1/2-1/2",
        b"game 1: board says otherwise at byte 19\n# line 1 column 20 1/2-1/2 | rnb1kbnr/pppp1ppp/8/4p3/6Pq/5P2/PPPPP2P/RNBQKBNR w KQkq - 1 3 | 0-1 {Black mates}\n",
        1,
    ),
    (
        &["verify", "--explain", "--strict"],
        b"[FEN \"7k/8/6K1/8/8/8/5Q2/8 w - - 0 1\"] Qf7 1-0",
        b"game 1: board says otherwise at byte 43\n# line 1 column 44 1-0 | 7k/5Q2/6K1/8/8/8/8/8 b - - 1 1 | 1/2-1/2 {Stalemate}\n",
        1,
    ),
    (
        &["verify", "--explain", "--strict"],
        b"[FEN \"4k3/8/8/8/8/8/4p3/4K3 w - - 0 1\"] Kxe2 1-0",
        b"game 1: board says otherwise at byte 45\n# line 1 column 46 1-0 | 4k3/8/8/8/8/8/4K3/8 b - - 0 1 | 1/2-1/2 {Insufficient material}\n",
        1,
    ),
    (
        &["verify", "--explain", "--strict"],
        b"[FEN \"4k3/8/8/8/8/8/8/R3K3 w - - 149 100\"] Ra2 *",
        b"game 1: board says otherwise at byte 47\n# line 1 column 48 * | 4k3/8/8/8/8/8/R7/4K3 b - - 150 100 | 1/2-1/2 {75-move rule}\n",
        1,
    ),
];

// Runs each row.
#[test]
fn faults_are_explained(rt: HostRuntime) {
    for (arguments, text, lines, status) in &KINDS {
        check_output(&rt, &rt, arguments, text, SOUND, lines, *status);
    }
}

// How lines and columns are counted, and how much of a text is shown: the arguments, the text, what is written of it,
// and the status.
const PLACES: [(&[&str], &[u8], &[u8], u8); 23] = [
    // Lines count from the input's beginning, columns from the line's.
    (
        &["verify", "--keep-going", "--explain"],
        b"[Event \"a\"]\n\n1. e4 e5 *\n\n[Event \"b\"]\n\n1. e4\n  e4 *\n\n[Event \"c\"]\n\n1. d4 d5\n2. Ke2 *\n",
        b"game 1: 2 half-moves, *\ngame 2: illegal move at byte 46\n# line 8 column 3 e4 | rnbqkbnr/pppppppp/8/8/4P3/8/PPPP1PPP/RNBQKBNR b KQkq e3 0 1\ngame 3: illegal move at byte 77\n# line 13 column 4 Ke2 | rnbqkbnr/ppp1pppp/8/3p4/3P4/8/PPP1PPPP/RNBQKBNR w KQkq d6 0 2\ngames 1 half-moves 2 faults 2\n",
        1,
    ),
    (
        &["verify", "--keep-going", "--explain"],
        b"[Event \"a\"]\r\n\r\n1. e4 e5 *\r\n\r\n[Event \"b\"]\r\n\r\n1. e4\r\n  e4\r\n*\r\n[Event \"c\"]\r\n\r\n1. d4 d5\r\n2.\tKe2\t*\r\n",
        b"game 1: 2 half-moves, *\ngame 2: illegal move at byte 53\n# line 8 column 3 e4 | rnbqkbnr/pppppppp/8/8/4P3/8/PPPP1PPP/RNBQKBNR b KQkq e3 0 1\ngame 3: illegal move at byte 88\n# line 13 column 4 Ke2 | rnbqkbnr/ppp1pppp/8/3p4/3P4/8/PPP1PPPP/RNBQKBNR w KQkq d6 0 2\ngames 1 half-moves 2 faults 2\n",
        1,
    ),
    // A byte 13 ends no line that is counted, but columns count from it.
    (
        &["verify", "--keep-going", "--explain"],
        b"1. e4\re4 *\r[Event \"b\"]\r1. d4 *",
        b"game 1: illegal move at byte 6\n# line 1 column 1 e4 | rnbqkbnr/pppppppp/8/8/4P3/8/PPPP1PPP/RNBQKBNR b KQkq e3 0 1\ngame 2: 1 half-moves, *\ngames 1 half-moves 1 faults 1\n",
        1,
    ),
    // A byte order mark counts.
    (
        &["verify", "--keep-going", "--explain"],
        b"\xef\xbb\xbf1. e4 e4 *",
        b"game 1: illegal move at byte 9\n# line 1 column 10 e4 | rnbqkbnr/pppppppp/8/8/4P3/8/PPPP1PPP/RNBQKBNR b KQkq e3 0 1\ngames 0 half-moves 0 faults 1\n",
        1,
    ),
    // A game without a result is explained where it begins.
    (
        &["verify", "--keep-going", "--explain"],
        b"1. e4 e5\n\n[Event \"b\"]\n*\n[Event \"c\"]\n",
        b"game 1: no result at byte 10\n# line 1 column 1 1. | rnbqkbnr/pppp1ppp/8/4p3/4P3/8/PPPP1PPP/RNBQKBNR w KQkq e6 0 2\ngame 2: 0 half-moves, *\ngame 3: no result at byte 36\n# line 5 column 1 [Event | rnbqkbnr/pppppppp/8/8/8/8/PPPPPPPP/RNBQKBNR w KQkq - 0 1\ngames 1 half-moves 0 faults 2\n",
        1,
    ),
    (
        &["verify", "--keep-going", "--explain"],
        b"1. e4 {x\n[Event \"b\"]\n1. d4 (d5\n[Site \"c\"]\n\n",
        b"game 1: unclosed comment at byte 6\n# line 1 column 7 {x | rnbqkbnr/pppppppp/8/8/4P3/8/PPPP1PPP/RNBQKBNR b KQkq e3 0 1 | bytes 6 to 9 not read\ngame 2: unclosed variation at byte 27\n# line 3 column 7 (d5 | rnbqkbnr/pppppppp/8/8/3P4/8/PPP1PPPP/RNBQKBNR b KQkq d3 0 1 | bytes 27 to 31 not read\ngame 3: no result at byte 43\n# line 4 column 1 [Site | rnbqkbnr/pppppppp/8/8/8/8/PPPPPPPP/RNBQKBNR w KQkq - 0 1\ngames 0 half-moves 0 faults 3\n",
        1,
    ),
    // Words of 40 and 41 bytes, and such at the input's end.
    (
        &["verify", "--explain"],
        b"1. e4 &xxxxxxxxxxxxxxxxxxxxxxxxxxxxxxxxxxxxxxx *",
        b"game 1: bad token at byte 6\n# line 1 column 7 &xxxxxxxxxxxxxxxxxxxxxxxxxxxxxxxxxxxxxxx | rnbqkbnr/pppppppp/8/8/4P3/8/PPPP1PPP/RNBQKBNR b KQkq e3 0 1 | begins no token\n",
        1,
    ),
    (
        &["verify", "--explain"],
        b"1. e4 &xxxxxxxxxxxxxxxxxxxxxxxxxxxxxxxxxxxxxxxx *",
        b"game 1: bad token at byte 6\n# line 1 column 7 &xxxxxxxxxxxxxxxxxxxxxxxxxxxxxxxxxxxxxxx | rnbqkbnr/pppppppp/8/8/4P3/8/PPPP1PPP/RNBQKBNR b KQkq e3 0 1 | begins no token\n",
        1,
    ),
    (
        &["verify", "--keep-going", "--explain"],
        b"1. e4 &xxxxxxxxxxxxxxxxxxxxxxxxxxxxxxxxxxxxxxx\n[Event \"b\"]\n&xxxxxxxxxxxxxxxxxxxxxxxxxxxxxxxxxxxxxxy",
        b"game 1: bad token at byte 6\n# line 1 column 7 &xxxxxxxxxxxxxxxxxxxxxxxxxxxxxxxxxxxxxxx | rnbqkbnr/pppppppp/8/8/4P3/8/PPPP1PPP/RNBQKBNR b KQkq e3 0 1 | begins no token | bytes 6 to 47 not read\ngame 2: bad token at byte 59\n# line 3 column 1 &xxxxxxxxxxxxxxxxxxxxxxxxxxxxxxxxxxxxxxy | rnbqkbnr/pppppppp/8/8/8/8/PPPPPPPP/RNBQKBNR w KQkq - 0 1 | begins no token | bytes 59 to 99 not read\ngames 0 half-moves 0 faults 2\n",
        1,
    ),
    (
        &["verify", "--explain"],
        b"&xxxxxxxxxxxxxxxxxxxxxxxxxxxxxxxxxxxxxxxx",
        b"game 1: bad token at byte 0\n# line 1 column 1 &xxxxxxxxxxxxxxxxxxxxxxxxxxxxxxxxxxxxxxx | rnbqkbnr/pppppppp/8/8/8/8/PPPPPPPP/RNBQKBNR w KQkq - 0 1 | begins no token\n",
        1,
    ),
    // Bytes that are no visible characters.
    (
        &["verify", "--explain"],
        b"\xe9\x01 *",
        b"game 1: bad token at byte 0\n# line 1 column 1 ?? | rnbqkbnr/pppppppp/8/8/8/8/PPPPPPPP/RNBQKBNR w KQkq - 0 1 | begins no token\n",
        1,
    ),
    (
        &["verify", "--explain"],
        b"1. e4 &!~\x7f\x80\xff\x0b\x0c\x1f\t*",
        b"game 1: bad token at byte 6\n# line 1 column 7 &!~?????? | rnbqkbnr/pppppppp/8/8/4P3/8/PPPP1PPP/RNBQKBNR b KQkq e3 0 1 | begins no token\n",
        1,
    ),
    (
        &["verify", "--explain"],
        b"1. e4 &\xe2\x99\x9e\r\n*",
        b"game 1: bad token at byte 6\n# line 1 column 7 &??? | rnbqkbnr/pppppppp/8/8/4P3/8/PPPP1PPP/RNBQKBNR b KQkq e3 0 1 | begins no token\n",
        1,
    ),
    // Positions of Chess960.
    (
        &["verify", "--keep-going", "--explain"],
        b"[Variant \"Chess960\"]\n[FEN \"4k3/8/8/8/8/8/8/RK5R w HA - 0 1\"]\n1. e4 *\n[Event \"b\"]\nO-O *",
        b"game 1: illegal move at byte 64\n# line 3 column 4 e4 | 4k3/8/8/8/8/8/8/RK5R w HA - 0 1\ngame 2: illegal move at byte 81\n# line 5 column 1 O-O | rnbqkbnr/pppppppp/8/8/8/8/PPPPPPPP/RNBQKBNR w KQkq - 0 1\ngames 0 half-moves 0 faults 2\n",
        1,
    ),
    (
        &["verify", "--keep-going", "--explain"],
        b"[Variant \"Chess960\"]\n[FEN \"4k3/8/8/8/8/8/8/RK5R w HA - 0 1\"]\n1. Rg1 Kd7 2. O-O *",
        b"game 1: illegal move at byte 75\n# line 3 column 15 O-O | 8/3k4/8/8/8/8/8/RK4R1 w A - 2 2\ngames 0 half-moves 0 faults 1\n",
        1,
    ),
    // Games without a fault have no explanation.
    (
        &["verify", "--keep-going", "--explain"],
        b"1. e4 *\n[Event \"b\"]\n1. d4 d5 1/2-1/2\n",
        b"game 1: 1 half-moves, *\ngame 2: 2 half-moves, 1/2-1/2\ngames 2 half-moves 3 faults 0\n",
        0,
    ),
    (
        &["verify", "--explain", "--quiet"],
        b"1. e4 * 1. d4 d5\n* 1. e4 e4 *",
        b"game 3: illegal move at byte 25\n# line 2 column 9 e4 | rnbqkbnr/pppppppp/8/8/4P3/8/PPPP1PPP/RNBQKBNR b KQkq e3 0 1\n",
        1,
    ),
    (
        &["verify", "--quiet", "--explain", "--strict", "--keep-going"],
        b"1. e4 *\n[Result \"?\"]\n1. e4 1-0\n[Site \"c\"]\n1. f3 e5 2. g4 Qh4\n *\n",
        b"game 2: result differs at byte 17\n# line 2 column 10 ?\"] | rnbqkbnr/pppppppp/8/8/4P3/8/PPPP1PPP/RNBQKBNR b KQkq e3 0 1 | Result ?, ended 1-0\ngame 3: board says otherwise at byte 62\n# line 6 column 2 * | rnb1kbnr/pppp1ppp/8/4p3/6Pq/5P2/PPPPP2P/RNBQKBNR w KQkq - 1 3 | 0-1 {Black mates}\ngames 1 half-moves 1 faults 2\n",
        1,
    ),
    // The tag Result is shown as a text is.
    (
        &["verify", "--explain", "--strict"],
        b"[Result \"\"] 1. e4 *",
        b"game 1: result differs at byte 9\n# line 1 column 10 \"] | rnbqkbnr/pppppppp/8/8/4P3/8/PPPP1PPP/RNBQKBNR b KQkq e3 0 1 | Result (end), ended *\n",
        1,
    ),
    (
        &["verify", "--explain", "--strict"],
        b"[Result \"a\xff b\"] 1/2-1/2",
        b"game 1: result differs at byte 9\n# line 1 column 10 a? | rnbqkbnr/pppppppp/8/8/8/8/PPPPPPPP/RNBQKBNR w KQkq - 0 1 | Result a?, ended 1/2-1/2\n",
        1,
    ),
    (
        &["verify", "--explain", "--strict"],
        b"[Result \" 1-0\"] 1-0",
        b"game 1: result differs at byte 9\n# line 1 column 10 (end) | rnbqkbnr/pppppppp/8/8/8/8/PPPPPPPP/RNBQKBNR w KQkq - 0 1 | Result (end), ended 1-0\n",
        1,
    ),
    (
        &["verify", "--explain", "--strict"],
        b"[Result \"aaaaaaaaaaaaaaaaaaaaaaaaaaaaaaaaaaaaaaaab\"] *",
        b"game 1: result differs at byte 9\n# line 1 column 10 aaaaaaaaaaaaaaaaaaaaaaaaaaaaaaaaaaaaaaaa | rnbqkbnr/pppppppp/8/8/8/8/PPPPPPPP/RNBQKBNR w KQkq - 0 1 | Result aaaaaaaaaaaaaaaaaaaaaaaaaaaaaaaaaaaaaaaa, ended *\n",
        1,
    ),
    (
        &["verify", "--explain", "--strict"],
        b"[Result \"aaaaaaaaaaaaaaaaaaaaaaaaaaaaaaaaaaaaaaa\"] *",
        b"game 1: result differs at byte 9\n# line 1 column 10 aaaaaaaaaaaaaaaaaaaaaaaaaaaaaaaaaaaaaaa\" | rnbqkbnr/pppppppp/8/8/8/8/PPPPPPPP/RNBQKBNR w KQkq - 0 1 | Result aaaaaaaaaaaaaaaaaaaaaaaaaaaaaaaaaaaaaaa, ended *\n",
        1,
    ),
];

// Runs each row, however its bytes are cut by reads and writes.
#[test]
fn places_in_all_pieces(rt: HostRuntime) {
    for (arguments, text, lines, status) in &PLACES {
        let wanted = Wanted::without_errors(lines, *status);
        check_in_all_pieces(&rt, &rt, arguments, text, wanted);
    }
}

// Collections with a piece that is too long, in three parts: the text before, how many bytes `a`, and the text after
// them; and what is written.
const LONG: [(&[u8], usize, &[u8], &[u8]); 2] = [
    // Line ends count, in it and after it.
    (
        b"{first word\nx\n",
        16_777_216,
        b"\n} *\n[Event \"b\"]\n1. e4\n e4 *",
        b"game 1: too long at byte 0\n# line 1 column 1 {first | bytes 0 to 16777235 not read\ngame 2: illegal move at byte 16777254\n# line 7 column 2 e4 | rnbqkbnr/pppppppp/8/8/4P3/8/PPPP1PPP/RNBQKBNR b KQkq e3 0 1\ngames 0 half-moves 0 faults 2\n",
    ),
    // The second piece.
    (
        b"1. e4 *\n\n[Site \"x\"]\n{",
        16_777_216,
        b"\n[Event \"c\"]\r\n* & *",
        b"game 1: 1 half-moves, *\ngame 2: too long at byte 9\n# line 3 column 1 [Site | bytes 9 to 16777238 not read\ngame 3: 0 half-moves, *\ngame 4: bad token at byte 16777253\n# line 6 column 3 & | rnbqkbnr/pppppppp/8/8/8/8/PPPPPPPP/RNBQKBNR w KQkq - 0 1 | begins no token | bytes 16777253 to 16777256 not read\ngames 2 half-moves 1 faults 2\n",
    ),
];

// Verifies such a collection, and asserts what is written; the status is 1.
fn check_long(rt: &impl Abort, host: &HostRuntime, text: Parts, lines: &[u8]) {
    run_on(host, KEEP_GOING, text).check(rt, Wanted::without_errors(lines, 1));
}

// Verifies each row.
#[test]
fn pieces_that_are_too_long_are_explained(rt: HostRuntime) {
    for (front, inner, back, lines) in &LONG {
        let text = Parts {
            front,
            inner: *inner,
            back,
        };
        check_long(&rt, &rt, text, lines);
    }
}

// The same, where the word that is shown of the piece is unusual: there is none, or it has more than 40 bytes.
const LONG_WORDS: [(&[u8], usize, &[u8], &[u8]); 2] = [
    // A line end comes first.
    (
        b"\n",
        16_777_216,
        b"\n[Site \"",
        b"game 1: too long at byte 0\n# line 1 column 1 (end) | bytes 0 to 16777218 not read\ngame 2: bad tag at byte 16777218\n# line 3 column 1 [Site | string not closed | bytes 16777218 to 16777225 not read\ngames 0 half-moves 0 faults 2\n",
    ),
    // Bytes that are no visible characters.
    (
        b"\xef\xff",
        16_777_216,
        b"\n[Site \"x\"]\n*",
        b"game 1: too long at byte 0\n# line 1 column 1 ??aaaaaaaaaaaaaaaaaaaaaaaaaaaaaaaaaaaaaa | bytes 0 to 16777219 not read\ngame 2: 0 half-moves, *\ngames 1 half-moves 0 faults 1\n",
    ),
];

// Verifies each row.
#[test]
fn words_of_pieces_that_are_too_long(rt: HostRuntime) {
    for (front, inner, back, lines) in &LONG_WORDS {
        let text = Parts {
            front,
            inner: *inner,
            back,
        };
        check_long(&rt, &rt, text, lines);
    }
}

// Three pieces, the first and the last with a fault. The end of the first is known after 30 bytes, that of the second
// after 65.
const COLLECTION: &[u8] =
    b"[Event \"a\"]\n1. e4\n e4\n\n[Site \"b\"]\n[Event \"b\"]\n1. d4 d5 *\n[Event \"c\"]\n\n1. e4 {x";

// What is written of the first piece, of the first two, and of all.
const FIRST_LINES: &[u8] =
    b"game 1: illegal move at byte 19\n# line 3 column 2 e4 | rnbqkbnr/pppppppp/8/8/4P3/8/PPPP1PPP/RNBQKBNR b KQkq e3 0 1 | bytes 19 to 23 not read\n";

const MORE_LINES: &[u8] =
    b"game 1: illegal move at byte 19\n# line 3 column 2 e4 | rnbqkbnr/pppppppp/8/8/4P3/8/PPPP1PPP/RNBQKBNR b KQkq e3 0 1 | bytes 19 to 23 not read\ngame 2: 2 half-moves, *\n";

const ALL_LINES: &[u8] =
    b"game 1: illegal move at byte 19\n# line 3 column 2 e4 | rnbqkbnr/pppppppp/8/8/4P3/8/PPPP1PPP/RNBQKBNR b KQkq e3 0 1 | bytes 19 to 23 not read\ngame 2: 2 half-moves, *\ngame 3: unclosed comment at byte 76\n# line 10 column 7 {x | rnbqkbnr/pppppppp/8/8/4P3/8/PPPP1PPP/RNBQKBNR b KQkq e3 0 1 | bytes 76 to 78 not read\ngames 1 half-moves 2 faults 2\n";

// A collection that comes in two reads is explained as one that comes in one, wherever it is cut.
#[test]
fn explanations_cut_at_each_byte(rt: HostRuntime) -> Result<(), Fail> {
    let wanted = Wanted::without_errors(ALL_LINES, 1);
    check_each_cut(&rt, &rt, KEEP_GOING, COLLECTION, wanted)
}

// The lines that can be written once `given` bytes were read: those of the pieces whose end is known.
fn lines_known(given: usize) -> &'static [u8] {
    if given < 30 {
        b""
    } else if given < 65 {
        FIRST_LINES
    } else {
        MORE_LINES
    }
}

// Lets the read after each number of bytes fail: the lines known by then are written.
#[test]
fn explanations_whose_reads_fail(rt: HostRuntime) {
    for given in 0..=COLLECTION.len() {
        let lines = lines_known(given);
        check_failed_read(&rt, &rt, KEEP_GOING, COLLECTION, given, lines);
    }
}

// Lets the output fail after each number of bytes.
#[test]
fn explanations_whose_writes_fail(rt: HostRuntime) -> Result<(), Fail> {
    for taken in 0..=ALL_LINES.len() {
        check_failed_write(&rt, &rt, KEEP_GOING, COLLECTION, taken, ALL_LINES)?;
    }
    Ok(())
}

// Two games of a text, the second with a fault.
const GAMES: &[u8] = b"1. e4 *\n1. d4 d5\n2. Ke2 *";

// What `verify --explain` writes of them.
const GAME_LINES: &[u8] =
    b"game 1: 1 half-moves, *\ngame 2: illegal move at byte 20\n# line 3 column 4 Ke2 | rnbqkbnr/ppp1pppp/8/3p4/3P4/8/PPP1PPPP/RNBQKBNR w KQkq d6 0 2\n";

// Without `--keep-going` nothing is written before the whole text was read; then each write may fail.
#[test]
fn games_explained_on_devices_that_fail(rt: HostRuntime) -> Result<(), Fail> {
    for given in 0..=GAMES.len() {
        check_failed_read(&rt, &rt, EXPLAIN, GAMES, given, b"");
    }
    for taken in 0..=GAME_LINES.len() {
        check_failed_write(&rt, &rt, EXPLAIN, GAMES, taken, GAME_LINES)?;
    }
    Ok(())
}
