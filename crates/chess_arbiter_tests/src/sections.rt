//! Collections whose pieces begin at their sections of tags: the tags before a game, of which Event need not be the
//! first.

use crate::collection::check_each_cut;
use crate::runs::{Wanted, check_in_all_pieces};
use std::test::Fail;

// The arguments of the runs below.
const KEEP_GOING: &[&str] = &["verify", "--keep-going"];

// Collections, what `verify --keep-going` writes of them, and the status.
const SECTIONS: [(&[u8], &[u8], u8); 20] = [
    // Tags in any order: Event need not be the first.
    (
        b"[Site \"s\"]\n[Event \"a\"]\n\n1. e4 *\n\n[Site \"t\"]\n[Event \"b\"]\n\n1. e4 e4 *\n",
        b"game 1: 1 half-moves, *\ngame 2: illegal move at byte 63\ngames 1 half-moves 1 faults 1\n",
        1,
    ),
    // A FEN before Event, also with a variant, belongs to the game after it.
    (
        b"1. e4 e5 *\n\n[Variant \"Chess960\"]\n[FEN \"4k3/8/8/8/8/8/8/RK5R w HA - 0 1\"]\n[Event \"b\"]\n\n1. O-O-O *\n",
        b"game 1: 2 half-moves, *\ngame 2: 1 half-moves, *\ngames 2 half-moves 3 faults 0\n",
        0,
    ),
    (
        b"1. e4 e4\n[FEN \"4k3/8/8/8/8/8/4P3/4K3 w - - 0 1\"]\n[Event \"b\"]\n1. e4 Kd7 *\n[Event \"c\"]\nKd2 *",
        b"game 1: illegal move at byte 6\ngame 2: 2 half-moves, *\ngame 3: illegal move at byte 85\ngames 1 half-moves 2 faults 2\n",
        1,
    ),
    // Lines that end with bytes 13 and 10.
    (
        b"[Site \"s\"]\r\n[Event \"a\"]\r\n\r\n1. e4\r\n\r\n[Site \"t\"]\r\n[Event \"b\"]\r\n\r\n1. d4 *\r\n",
        b"game 1: no result at byte 36\ngame 2: 1 half-moves, *\ngames 1 half-moves 1 faults 1\n",
        1,
    ),
    // A byte order mark before a tag in the middle begins its piece.
    (
        b"*\n\xef\xbb\xbf[Event \"a\"]\n1. e4 *\n\xef\xbb\xbf[Site \"b\"]\n*\n",
        b"game 1: 0 half-moves, *\ngame 2: 1 half-moves, *\ngame 3: 0 half-moves, *\ngames 3 half-moves 1 faults 0\n",
        0,
    ),
    // Among tags it begins none, and is a fault.
    (
        b"[Site \"a\"]\n\xef\xbb\xbf[Event \"b\"]\n*\n[Event \"c\"]\n*",
        b"game 1: bad token at byte 11\ngame 2: 0 half-moves, *\ngames 1 half-moves 0 faults 1\n",
        1,
    ),
    // After it `%` begins no escape: the line counts as one of moves, and the next tag line begins a piece.
    (
        b"[Event \"a\"]\n\xef\xbb\xbf% x\n[Site \"s\"]\n*\n",
        b"game 1: bad token at byte 12\ngame 2: 0 half-moves, *\ngames 1 half-moves 0 faults 1\n",
        1,
    ),
    // Tags without games, before, between and after games.
    (
        b"[Event \"a\"]\n\n[Event \"b\"]\n\n1. e4 *\n\n[Event \"c\"]\n",
        b"game 1: no result at byte 13\ngame 2: 1 half-moves, *\ngame 3: no result at byte 47\ngames 1 half-moves 1 faults 2\n",
        1,
    ),
    (
        b"[Event \"a\"]\n[Site \"s\"]\n[Event \"b\"]\n\n1. e4 *\n",
        b"game 1: no result at byte 23\ngame 2: 1 half-moves, *\ngames 1 half-moves 1 faults 1\n",
        1,
    ),
    (
        b"[Site \"a\"]\n\n[Site \"b\"]\n\n1. e4 *\n",
        b"game 1: 1 half-moves, *\ngames 1 half-moves 1 faults 0\n",
        0,
    ),
    // Games of one line each.
    (
        b"1. e4 *\n1. d4 *\n[Event \"a\"] 1. c4 *\n[Event \"b\"] 1. Nf3 e5 *\n[Site \"c\"] *\n",
        b"game 1: 1 half-moves, *\ngame 2: 1 half-moves, *\ngame 3: 1 half-moves, *\ngame 4: 2 half-moves, *\ngame 5: 0 half-moves, *\ngames 5 half-moves 5 faults 0\n",
        0,
    ),
    (
        b"[Event \"a\"] 1. e5 *\n[Site \"c\"] *\n[Event \"b\"] 1. e4 *\n",
        b"game 1: illegal move at byte 15\ngame 2: 0 half-moves, *\ngame 3: 1 half-moves, *\ngames 2 half-moves 1 faults 1\n",
        1,
    ),
    // Lines with `%` and `;` are empty, whatever they have.
    (
        b"[Event \"a\"]\n% [Event \"x\"]\n; 1. e4\n[Site \"s\"]\n\n1. e4 *\n; x\n% y\n\n[Site \"b\"]\n*\n",
        b"game 1: 1 half-moves, *\ngame 2: 0 half-moves, *\ngames 2 half-moves 1 faults 0\n",
        0,
    ),
    // Brackets without a name and a `"` are no tags.
    (
        b"1. e4 {x\n[%clk 0:01:02]\n[a b]\n[ \"x\"]\n[\"x\"]\n[a-b \"x\"]\n} e5 *\n[Site \"a\"]\n*\n",
        b"game 1: 2 half-moves, *\ngame 2: 0 half-moves, *\ngames 2 half-moves 2 faults 0\n",
        0,
    ),
    // In a comment a tag line begins a piece.
    (
        b"1. e4 {x\n[clk \"1\"]\n} *\n[Site \"a\"]\n*\n",
        b"game 1: unclosed comment at byte 6\ngame 2: bad token at byte 19\ngame 3: 0 half-moves, *\ngames 1 half-moves 0 faults 2\n",
        1,
    ),
    // Between a tag's name and its `"` there may be spaces and tabs, but no line end.
    (
        b"*\n[A_1 \t\"x\"]\n1. e5 *\n[b\"y\"]\n*\n",
        b"game 1: 0 half-moves, *\ngame 2: illegal move at byte 16\ngame 3: 0 half-moves, *\ngames 2 half-moves 0 faults 1\n",
        1,
    ),
    (
        b"*\n[Event\n\"a\"]\n1. e5 *\n[Event \"b\"]\n*",
        b"game 1: 0 half-moves, *\ngame 2: illegal move at byte 17\ngame 3: 0 half-moves, *\ngames 2 half-moves 0 faults 1\n",
        1,
    ),
    (
        b"*\n[ Event \"a\"]\n 1. e5 *\n[Event \"b\"]\n*\n",
        b"game 1: 0 half-moves, *\ngame 2: illegal move at byte 19\ngame 3: 0 half-moves, *\ngames 2 half-moves 0 faults 1\n",
        1,
    ),
    // A line of spaces is empty.
    (
        b"[Site \"s\"]\n \t\r\n[Site \"a\"]\n1. e5 *\n",
        b"game 1: illegal move at byte 29\ngames 0 half-moves 0 faults 1\n",
        1,
    ),
    // A line of anything else is one of moves.
    (
        b"[Event \"a\"]\n&\n[Site \"b\"]\n*\n",
        b"game 1: bad token at byte 12\ngame 2: 0 half-moves, *\ngames 1 half-moves 0 faults 1\n",
        1,
    ),
];

// Verifies each row, however its bytes are cut by reads and writes.
#[test]
fn sections_in_all_pieces(rt: HostRuntime) {
    for (text, lines, status) in &SECTIONS {
        check_in_all_pieces(
            &rt,
            &rt,
            KEEP_GOING,
            text,
            Wanted::without_errors(lines, *status),
        );
    }
}

// Sections of each kind, with games and faults.
const MIXED: &[u8] =
    b"\xef\xbb\xbf[Site \"s\"]\n[Event \"a\"]\n{x\n[%clk 1]\n} 1. e4 e4 *\r\n\r\n[Variant \"Chess960\"]\r\n[FEN \"4k3/8/8/8/8/8/8/RK5R w HA - 0 1\"]\r\n[Event \"b\"]\r\n1. O-O-O *\n\xef\xbb\xbf% x\n[Event \t\"c\"] 1. e5 *\n[Event \"d\"] *\n[Site \"e\"] *\n1. d4\n\n[Round \"1\"]\n; x\n\n";

// What is written of it.
const MIXED_LINES: &[u8] =
    b"game 1: illegal move at byte 46\ngame 2: 1 half-moves, *\ngame 3: bad token at byte 141\ngame 4: illegal move at byte 164\ngame 5: 0 half-moves, *\ngame 6: 0 half-moves, *\ngame 7: no result at byte 203\ngame 8: no result at byte 220\ngames 3 half-moves 1 faults 5\n";

// A collection that comes in two reads is verified as one that comes in one, wherever it is cut.
#[test]
fn sections_cut_at_each_byte(rt: HostRuntime) -> Result<(), Fail> {
    let wanted = Wanted::without_errors(MIXED_LINES, 1);
    check_each_cut(&rt, &rt, KEEP_GOING, MIXED, wanted)
}
