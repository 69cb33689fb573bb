//! Matches that end in other ways: by floods and long lines, by reads and writes that fail, by features that are
//! missing in Chess960; and the order of the end lines.

use crate::plays::{
    BOARDS, Listed, On, check_end, ends, is_text, play_over, position_of, setup_of,
};
use byte_devices::{Counted, PieceReader};
use chess_base::{Colour, Position, Variant};
use chess_game::{HowEnded, Outcome};
use chess_match::{Ends, MatchEnd, MatchFault};
use std::alloc::Global;
use std::cell::Cell;
use std::io::Write;
use std::process::Abort;
use std::test::Fail;

/// What a match gets: what both engines say, which calls of their readers and writers fail (0: none), and the moments
/// of the clock.
#[derive(Clone, Copy)]
struct MatchInput<'a> {
    white: &'a [u8],
    black: &'a [u8],
    white_read: u64,
    white_write: u64,
    black_read: u64,
    black_write: u64,
    moments: &'a [u64],
}

impl<'a> MatchInput<'a> {
    // Engines that say this, over devices that don't fail, while the clock stays at 0.
    fn of(white: &'a [u8], black: &'a [u8]) -> Self {
        MatchInput {
            white,
            black,
            white_read: 0,
            white_write: 0,
            black_read: 0,
            black_write: 0,
            moments: &[],
        }
    }
}

/// What came of a match: its end, what both engines were sent, and how many half-moves the game has.
#[derive(Drop)]
struct Played {
    end: MatchEnd,
    to_white: Vec<u8>,
    to_black: Vec<u8>,
    moves: usize,
}

// Plays a match of ten seconds for each side from this start on this board.
fn play(
    rt: &impl Abort,
    alloc: Global,
    on: On,
    start: Position,
    input: &MatchInput<'_>,
) -> Result<Played, Fail> {
    let setup = setup_of(rt, b"0 0:10 0", start);
    let mut white = ends(alloc, input.white, 9, input.white_read, input.white_write);
    let mut black = ends(alloc, input.black, 9, input.black_read, input.black_write);
    let mut moments = Listed {
        rest: input.moments,
    };
    let (end, moves) = play_over(alloc, on, 100, &mut white, &mut black, &mut moments, &setup)?;
    Ok(Played {
        end,
        to_white: white.writer.into_writer().bytes,
        to_black: black.writer.into_writer().bytes,
        moves,
    })
}

/// How a match ends: outcome, comment, the kind of end that its PGN names, and which engine failed in which way, if one
/// did.
struct Ending {
    outcome: Outcome,
    comment: &'static [u8],
    ended: HowEnded,
    fault: Option<(Colour, MatchFault)>,
}

// Asserts that a match ended so.
fn is_end(rt: &impl Abort, played: &Played, ending: &Ending) {
    check_end(
        rt,
        &played.end,
        ending.outcome,
        ending.comment,
        ending.fault,
    );
    assert_eq!(rt; played.end.ended, ending.ended);
}

// Asserts that a game has so many half-moves.
fn is_number(rt: &impl Abort, moves: usize, wanted: usize) {
    assert_eq!(rt; moves, wanted, "half-moves");
}

// Plays a match from the initial position on this board, and asserts how it ends, and with how many half-moves.
fn ends_so_on(
    rt: &impl Abort,
    alloc: Global,
    on: On,
    input: &MatchInput<'_>,
    ending: &Ending,
    moves: usize,
) -> Result<(), Fail> {
    let played = play(rt, alloc, on, Position::initial(), input)?;
    is_end(rt, &played, ending);
    is_number(rt, played.moves, moves);
    Ok(())
}

// The same on both boards.
fn ends_so(
    rt: &impl Abort,
    alloc: Global,
    input: &MatchInput<'_>,
    ending: &Ending,
    moves: usize,
) -> Result<(), Fail> {
    for on in BOARDS {
        ends_so_on(rt, alloc, *on, input, ending, moves)?;
    }
    Ok(())
}

// These texts one after another, each as often as its number says.
fn repeated(alloc: Global, parts: &[(&[u8], usize)]) -> Result<Vec<u8>, Fail> {
    let mut text = Vec::new(alloc);
    for (part, count) in parts {
        for _ in 0..*count {
            text.extend_from_slice(part)?;
        }
    }
    Ok(text)
}

// What Black says in most matches: its half of fool's mate.
const BLACK: &[u8] =
    b"feature ping=1 myname=\"second\" done=1\npong 1\nmove e7e5\npong 2\nmove d8h4\n";

// The end of fool's mate.
const BLACK_MATES: Ending = Ending {
    outcome: Outcome::BlackWins,
    comment: b"Black mates",
    ended: HowEnded::Normal,
    fault: None,
};

// The end where White says `resign`.
const WHITE_RESIGNS: Ending = Ending {
    outcome: Outcome::BlackWins,
    comment: b"White resigns",
    ended: HowEnded::Normal,
    fault: None,
};

// Plays fool's mate between engines with names on this board: the end has both names.
fn mates_with_names(rt: &impl Abort, alloc: Global, on: On) -> Result<(), Fail> {
    let input = MatchInput::of(
        b"feature ping=1 usermove=1 myname=\"first\" done=1\npong 1\nmove f2f3\npong 2\nmove g2g4\npong 3\n",
        BLACK,
    );
    let played = play(rt, alloc, on, Position::initial(), &input)?;
    is_end(rt, &played, &BLACK_MATES);
    is_text(rt, "White", played.end.white_name.as_bytes(), b"first");
    is_text(rt, "Black", played.end.black_name.as_bytes(), b"second");
    is_number(rt, played.moves, 4);
    Ok(())
}

// Does so on both boards.
#[test]
fn mate_and_names(rt: HostRuntime) -> Result<(), Fail> {
    for on in BOARDS {
        mates_with_names(&rt, rt.alloc(), *on)?;
    }
    Ok(())
}

// The end by an illegal first move.
const ILLEGAL: Ending = Ending {
    outcome: Outcome::BlackWins,
    comment: b"White makes an illegal move",
    ended: HowEnded::RulesInfraction,
    fault: None,
};

// The end by a move of White that comes too late.
const LATE: Ending = Ending {
    outcome: Outcome::BlackWins,
    comment: b"White forfeits on time",
    ended: HowEnded::TimeForfeit,
    fault: None,
};

// White moves illegally, and then, in another match, 10,001 ms after its turn began.
#[test]
fn kinds_of_ends(rt: HostRuntime) -> Result<(), Fail> {
    let illegal = MatchInput::of(b"feature ping=1 done=1\npong 1\nmove e2e5\n", BLACK);
    ends_so(&rt, rt.alloc(), &illegal, &ILLEGAL, 0)?;
    let mut late = MatchInput::of(b"feature ping=1 done=1\npong 1\nmove e2e4\n", BLACK);
    late.moments = &[0, 0, 0, 0, 5000, 15001];
    ends_so(&rt, rt.alloc(), &late, &LATE, 0)
}

// The end where White's handshake has too many lines.
const NO_DONE: Ending = Ending {
    outcome: Outcome::Unfinished,
    comment: b"White did not send done=1",
    ended: HowEnded::Normal,
    fault: Some((Colour::White, MatchFault::NoDone)),
};

// White's half of fool's mate after `count` lines `x`.
fn white_after_lines(alloc: Global, count: usize) -> Result<Vec<u8>, Fail> {
    repeated(alloc, &[(b"x\n", count), (WHITE, 1)])
}

// 999 lines before the handshake are ignored: the match ends by its mate, and both engines are sent what they are sent
// without them.
fn long_handshake_on(rt: &impl Abort, alloc: Global, on: On) -> Result<(), Fail> {
    let start = Position::initial();
    let white = white_after_lines(alloc, 999)?;
    let played = play(
        rt,
        alloc,
        on,
        start,
        &MatchInput::of(white.as_slice(), BLACK),
    )?;
    let whole = play(rt, alloc, on, start, &MatchInput::of(WHITE, BLACK))?;
    is_end(rt, &played, &BLACK_MATES);
    is_text(
        rt,
        "to White",
        played.to_white.as_slice(),
        whole.to_white.as_slice(),
    );
    is_text(
        rt,
        "to Black",
        played.to_black.as_slice(),
        whole.to_black.as_slice(),
    );
    Ok(())
}

// With 999 lines the handshake is awaited, with 1,000 the match ends without it.
#[test]
fn handshakes_of_many_lines(rt: HostRuntime) -> Result<(), Fail> {
    for on in BOARDS {
        long_handshake_on(&rt, rt.alloc(), *on)?;
    }
    let white = white_after_lines(rt.alloc(), 1000)?;
    let input = MatchInput::of(white.as_slice(), BLACK);
    ends_so(&rt, rt.alloc(), &input, &NO_DONE, 0)
}

// The end where White sends too many lines in its turn.
const FLOOD: Ending = Ending {
    outcome: Outcome::Unfinished,
    comment: b"White sent too many lines",
    ended: HowEnded::Normal,
    fault: Some((Colour::White, MatchFault::Flood)),
};

// White sends 9,999 lines `x` in its turn, and then `back`: the match ends so, after one half-move.
fn flood(rt: &impl Abort, alloc: Global, on: On, back: &[u8], ending: &Ending) -> Result<(), Fail> {
    let front = b"feature ping=1 done=1\npong 1\n".as_slice();
    let white = repeated(alloc, &[(front, 1), (b"x\n", 9999), (back, 1)])?;
    let input = MatchInput::of(white.as_slice(), BLACK);
    ends_so_on(rt, alloc, on, &input, ending, 1)
}

// The move after these lines is the 10,000th and is taken. With one more line before the `pong` there are too many.
fn floods_on(rt: &impl Abort, alloc: Global, on: On) -> Result<(), Fail> {
    flood(rt, alloc, on, b"move f2f3\nresign\n", &WHITE_RESIGNS)?;
    flood(rt, alloc, on, b"move f2f3\nx\npong 2\n", &FLOOD)
}

// On the plain board.
#[test]
fn floods(rt: HostRuntime) -> Result<(), Fail> {
    floods_on(&rt, rt.alloc(), On::Plain)
}

// On the board of bit sets.
#[test]
fn floods_on_sets_of_squares(rt: HostRuntime) -> Result<(), Fail> {
    floods_on(&rt, rt.alloc(), On::Bits)
}

// What White says, as parts for `repeated`: its move is on a line of 8,193 bytes.
const LONG_LINE: &[(&[u8], usize)] = &[
    (b"feature ping=1 done=1\npong 1\nmove f2f3", 1),
    (b" ", 8184),
    (b"\nresign\n", 1),
];

// The line is ignored, so no move is played before White resigns.
#[test]
fn lines_that_are_too_long(rt: HostRuntime) -> Result<(), Fail> {
    let white = repeated(rt.alloc(), LONG_LINE)?;
    let input = MatchInput::of(white.as_slice(), BLACK);
    ends_so(&rt, rt.alloc(), &input, &WHITE_RESIGNS, 0)
}

// The end where White ends its output.
const OUTPUT_ENDED: Ending = Ending {
    outcome: Outcome::Unfinished,
    comment: b"White ended its output",
    ended: HowEnded::Normal,
    fault: Some((Colour::White, MatchFault::Ended)),
};

// White's output ends in the middle of its second move: the part of a line isn't read as a move.
#[test]
fn outputs_that_end(rt: HostRuntime) -> Result<(), Fail> {
    let input = MatchInput::of(
        b"feature ping=1 done=1\npong 1\nmove f2f3\npong 2\nmov",
        BLACK,
    );
    ends_so(&rt, rt.alloc(), &input, &OUTPUT_ENDED, 2)
}

// What White says in a match of Chess960: it castles on the queen's side.
const CASTLES: &[u8] =
    b"feature ping=1 setboard=1 usermove=1 variants=\"normal,fischerandom\" done=1\npong 1\nmove O-O-O\npong 2\n";

// The start of that match.
fn castling_start(rt: &impl Abort) -> Position {
    position_of(
        rt,
        Variant::Fischerandom,
        b"4k3/8/8/8/8/8/8/RK5R w HA - 0 1",
    )
}

// The end where Black says `resign`.
const BLACK_RESIGNS: Ending = Ending {
    outcome: Outcome::WhiteWins,
    comment: b"Black resigns",
    ended: HowEnded::Normal,
    fault: None,
};

// Plays that match on this board, in which Black resigns, and asserts what both engines are sent.
fn castles(rt: &impl Abort, alloc: Global, on: On) -> Result<(), Fail> {
    let input = MatchInput::of(
        CASTLES,
        b"feature ping=1 setboard=1 done=1\npong 1\nresign\n",
    );
    let played = play(rt, alloc, on, castling_start(rt), &input)?;
    is_end(rt, &played, &BLACK_RESIGNS);
    is_text(
        rt,
        "to White",
        played.to_white.as_slice(),
        b"xboard\nprotover 2\naccepted ping\naccepted setboard\naccepted usermove\naccepted variants\naccepted done\nnew\nvariant fischerandom\nlevel 0 0:10 0\nnopost\neasy\nforce\nsetboard 4k3/8/8/8/8/8/8/RK5R w HA - 0 1\nping 1\ntime 1000\notim 1000\ngo\nping 2\nresult 1-0 {Black resigns}\nquit\n",
    );
    is_text(
        rt,
        "to Black",
        played.to_black.as_slice(),
        b"xboard\nprotover 2\naccepted ping\naccepted setboard\naccepted done\nnew\nvariant fischerandom\nlevel 0 0:10 0\nnopost\neasy\nforce\nsetboard 4k3/8/8/8/8/8/8/RK5R w HA - 0 1\nping 1\nO-O-O\ntime 1000\notim 1000\ngo\nresult 1-0 {Black resigns}\nquit\n",
    );
    Ok(())
}

// Does so on both boards.
#[test]
fn a_match_of_chess960(rt: HostRuntime) -> Result<(), Fail> {
    for on in BOARDS {
        castles(&rt, rt.alloc(), *on)?;
    }
    Ok(())
}

// The end where Black's `variants` has no Chess960.
const NO_VARIANT: Ending = Ending {
    outcome: Outcome::Unfinished,
    comment: b"Black has no fischerandom",
    ended: HowEnded::Normal,
    fault: Some((Colour::Black, MatchFault::NoVariant)),
};

// The end where Black can't be sent a start.
const NO_SETBOARD: Ending = Ending {
    outcome: Outcome::Unfinished,
    comment: b"Black has no setboard",
    ended: HowEnded::Normal,
    fault: Some((Colour::Black, MatchFault::NoSetboard)),
};

// Handshakes of Black, and how each ends a match of Chess960. A missing `setboard` is reported before a missing
// variant.
const UNFIT: &[(&[u8], Ending)] = &[
    (
        b"feature ping=1 setboard=1 variants=\"normal, suicide\" done=1\n",
        NO_VARIANT,
    ),
    (b"feature ping=1 variants=\"normal\" done=1\n", NO_SETBOARD),
];

// Plays the match of Chess960 on this board with this handshake of Black, and asserts its end.
fn is_unfit(
    rt: &impl Abort,
    alloc: Global,
    on: On,
    black: &[u8],
    ending: &Ending,
) -> Result<(), Fail> {
    let input = MatchInput::of(CASTLES, black);
    let played = play(rt, alloc, on, castling_start(rt), &input)?;
    is_end(rt, &played, ending);
    Ok(())
}

// Plays each row on both boards.
#[test]
fn engines_without_chess960(rt: HostRuntime) -> Result<(), Fail> {
    for (black, ending) in UNFIT {
        for on in BOARDS {
            is_unfit(&rt, rt.alloc(), *on, black, ending)?;
        }
    }
    Ok(())
}

// What White says in most matches: its half of fool's mate.
const WHITE: &[u8] =
    b"feature ping=1 usermove=1 done=1\npong 1\nmove f2f3\npong 2\nmove g2g4\npong 3\n";

// Whether a text is a beginning of `whole`, followed by `end`.
fn is_cut_off(text: &[u8], whole: &[u8], end: &[u8]) -> bool {
    if text.len() < end.len() {
        return false;
    }
    let front = text.len() - end.len();
    &text[front..] == end && is_beginning(&text[..front], whole)
}

// Whether a text is a beginning of `whole`.
fn is_beginning(text: &[u8], whole: &[u8]) -> bool {
    text.len() <= whole.len() && text == &whole[..text.len()]
}

// The end where White can't be read.
const WHITE_UNREAD: Ending = Ending {
    outcome: Outcome::Unfinished,
    comment: b"White can not be read",
    ended: HowEnded::Normal,
    fault: Some((Colour::White, MatchFault::Read)),
};

// The end where Black can't be read.
const BLACK_UNREAD: Ending = Ending {
    outcome: Outcome::Unfinished,
    comment: b"Black can not be read",
    ended: HowEnded::Normal,
    fault: Some((Colour::Black, MatchFault::Read)),
};

// Fool's mate, where this call of that side's reader fails.
fn unread(side: Colour, call: u64) -> MatchInput<'static> {
    let mut input = MatchInput::of(WHITE, BLACK);
    match side {
        Colour::White => input.white_read = call,
        Colour::Black => input.black_read = call,
    }
    input
}

// Asserts what comes of a failed read: the end that names that side; and if it is White, then White was sent a
// beginning of what it is sent in the whole match, and the end lines.
fn is_unread(rt: &impl Abort, side: Colour, played: &Played, whole: &Played) {
    match side {
        Colour::White => {
            is_end(rt, played, &WHITE_UNREAD);
            assert!(rt;
                is_cut_off(
                    played.to_white.as_slice(),
                    whole.to_white.as_slice(),
                    b"result * {White can not be read}\nquit\n"
                )
            );
        }
        Colour::Black => is_end(rt, played, &BLACK_UNREAD),
    }
}

// Lets the reads of a side fail in turn, until the match ends without a fault, and gives the number of the last one
// that failed.
fn unread_calls(rt: &impl Abort, alloc: Global, on: On, side: Colour) -> Result<u64, Fail> {
    let whole = play(
        rt,
        alloc,
        on,
        Position::initial(),
        &MatchInput::of(WHITE, BLACK),
    )?;
    let mut failures = 0;
    for call in 1..100 {
        let played = play(rt, alloc, on, Position::initial(), &unread(side, call))?;
        if played.end.fault.is_none() {
            break;
        }
        failures = call;
        is_unread(rt, side, &played, &whole);
    }
    Ok(failures)
}

// Does so for both sides on both boards: each side is read more than five times.
#[test]
fn reads_that_fail_in_turn(rt: HostRuntime) -> Result<(), Fail> {
    for on in BOARDS {
        let white = unread_calls(&rt, rt.alloc(), *on, Colour::White)?;
        let black = unread_calls(&rt, rt.alloc(), *on, Colour::Black)?;
        assert!(rt; white > 5 && black > 5);
    }
    Ok(())
}

// The end where White can't be written, before the game has ended.
const WHITE_UNWRITTEN: Ending = Ending {
    outcome: Outcome::Unfinished,
    comment: b"White can not be written",
    ended: HowEnded::Normal,
    fault: Some((Colour::White, MatchFault::Write)),
};

// The end where it is the end lines to White that can't be written: the mate stays the result.
const MATE_UNWRITTEN: Ending = Ending {
    outcome: Outcome::BlackWins,
    comment: b"Black mates",
    ended: HowEnded::Normal,
    fault: Some((Colour::White, MatchFault::Write)),
};

// The same two ends where Black can't be written.
const BLACK_UNWRITTEN: Ending = Ending {
    outcome: Outcome::Unfinished,
    comment: b"Black can not be written",
    ended: HowEnded::Normal,
    fault: Some((Colour::Black, MatchFault::Write)),
};

const MATE_UNWRITTEN_TO_BLACK: Ending = Ending {
    outcome: Outcome::BlackWins,
    comment: b"Black mates",
    ended: HowEnded::Normal,
    fault: Some((Colour::Black, MatchFault::Write)),
};

// What White is sent in fool's mate, block by block.
const BLOCKS_TO_WHITE: &[&[u8]] = &[
    b"xboard\nprotover 2\n",
    b"accepted ping\naccepted usermove\naccepted done\n",
    b"new\nlevel 0 0:10 0\nnopost\neasy\nforce\nping 1\n",
    b"time 1000\notim 1000\ngo\n",
    b"ping 2\n",
    b"time 1000\notim 1000\nusermove e7e5\n",
    b"ping 3\n",
    b"usermove d8h4\nresult 0-1 {Black mates}\nquit\n",
];

// What Black is sent in it, block by block.
const BLOCKS_TO_BLACK: &[&[u8]] = &[
    b"xboard\nprotover 2\n",
    b"accepted ping\naccepted myname\naccepted done\n",
    b"new\nlevel 0 0:10 0\nnopost\neasy\nforce\nping 1\n",
    b"f2f3\ntime 1000\notim 1000\ngo\n",
    b"ping 2\n",
    b"time 1000\notim 1000\ng2g4\n",
    b"result 0-1 {Black mates}\nquit\n",
];

// The end lines to one engine where the other one can't be written.
const TO_WHITE_AT_THE_END: &[u8] = b"result * {Black can not be written}\nquit\n";

const TO_BLACK_AT_THE_END: &[u8] = b"result * {White can not be written}\nquit\n";

// What Black is sent where one of White's blocks fails, a row for each of these blocks: how many of Black's blocks,
// then a move or nothing, then the end lines. A block to Black at the same event that would come after White's isn't
// sent; but a move of White that Black doesn't know yet is.
const BESIDE_WHITE: &[(usize, &[u8], &[u8])] = &[
    (0, b"", TO_BLACK_AT_THE_END),
    (0, b"", TO_BLACK_AT_THE_END),
    (2, b"", TO_BLACK_AT_THE_END),
    (3, b"", TO_BLACK_AT_THE_END),
    (3, b"f2f3\n", TO_BLACK_AT_THE_END),
    (5, b"", TO_BLACK_AT_THE_END),
    (5, b"g2g4\n", TO_BLACK_AT_THE_END),
    (7, b"", b""),
];

// The same with the sides exchanged.
const BESIDE_BLACK: &[(usize, &[u8], &[u8])] = &[
    (2, b"", TO_WHITE_AT_THE_END),
    (2, b"", TO_WHITE_AT_THE_END),
    (3, b"", TO_WHITE_AT_THE_END),
    (5, b"", TO_WHITE_AT_THE_END),
    (5, b"usermove e7e5\n", TO_WHITE_AT_THE_END),
    (7, b"", TO_WHITE_AT_THE_END),
    (8, b"", b""),
];

// Asserts that a text is the first `count` of these blocks, then `more`, and then `end`. A failure shows `name`.
fn is_blocks(
    rt: &impl Abort,
    name: &str,
    text: &[u8],
    blocks: &[&[u8]],
    count: usize,
    more: &[u8],
    end: &[u8],
) {
    let mut rest = text;
    for block in blocks.iter().take(count) {
        rest = rest_after(rt, name, rest, block);
    }
    let rest = rest_after(rt, name, rest, more);
    is_text(rt, name, rest, end);
}

// What follows `front` in a text, which must begin with it.
fn rest_after<'a>(rt: &impl Abort, name: &str, text: &'a [u8], front: &[u8]) -> &'a [u8] {
    match text.strip_prefix(front) {
        Some(rest) => rest,
        None => panic!(rt; "{name}"),
    }
}

// Lets White's block of this number, counted from 0, fail: at its write, or at its flush, before which all of it was
// taken. Asserts the end, that White was sent the blocks that were taken and nothing more, and that Black was sent
// `beside`.
fn is_unwritten_to_white(
    rt: &impl Abort,
    alloc: Global,
    on: On,
    number: usize,
    flush: bool,
    beside: &(usize, &[u8], &[u8]),
) -> Result<(), Fail> {
    let mut input = MatchInput::of(WHITE, BLACK);
    input.white_write = call_of(number, flush);
    let played = play(rt, alloc, on, Position::initial(), &input)?;
    let ending = if number == 7 {
        &MATE_UNWRITTEN
    } else {
        &WHITE_UNWRITTEN
    };
    is_end(rt, &played, ending);
    let taken = blocks_taken(number, flush);
    is_blocks(
        rt,
        "to White",
        played.to_white.as_slice(),
        BLOCKS_TO_WHITE,
        taken,
        b"",
        b"",
    );
    is_blocks(
        rt,
        "to Black",
        played.to_black.as_slice(),
        BLOCKS_TO_BLACK,
        beside.0,
        beside.1,
        beside.2,
    );
    Ok(())
}

// The same with the sides exchanged.
fn is_unwritten_to_black(
    rt: &impl Abort,
    alloc: Global,
    on: On,
    number: usize,
    flush: bool,
    beside: &(usize, &[u8], &[u8]),
) -> Result<(), Fail> {
    let mut input = MatchInput::of(WHITE, BLACK);
    input.black_write = call_of(number, flush);
    let played = play(rt, alloc, on, Position::initial(), &input)?;
    let ending = if number == 6 {
        &MATE_UNWRITTEN_TO_BLACK
    } else {
        &BLACK_UNWRITTEN
    };
    is_end(rt, &played, ending);
    let taken = blocks_taken(number, flush);
    is_blocks(
        rt,
        "to Black",
        played.to_black.as_slice(),
        BLOCKS_TO_BLACK,
        taken,
        b"",
        b"",
    );
    is_blocks(
        rt,
        "to White",
        played.to_white.as_slice(),
        BLOCKS_TO_WHITE,
        beside.0,
        beside.1,
        beside.2,
    );
    Ok(())
}

// The number of a writer's call by which the block of this number is written or flushed. Each block is one write and
// one flush.
fn call_of(number: usize, flush: bool) -> u64 {
    (2 * number.min(100) + 1) as u64 + u64::from(flush)
}

// How many blocks a writer took if that call of the block of this number fails.
fn blocks_taken(number: usize, flush: bool) -> usize {
    number.min(100) + usize::from(flush)
}

// Lets each block of both sides fail in turn, at its write or at its flush.
fn all_unwritten(rt: &impl Abort, alloc: Global, on: On, flush: bool) -> Result<(), Fail> {
    for (number, beside) in BESIDE_WHITE.iter().enumerate() {
        is_unwritten_to_white(rt, alloc, on, number, flush, beside)?;
    }
    for (number, beside) in BESIDE_BLACK.iter().enumerate() {
        is_unwritten_to_black(rt, alloc, on, number, flush, beside)?;
    }
    Ok(())
}

// Does so in both ways on both boards.
#[test]
fn writes_that_fail_in_turn(rt: HostRuntime) -> Result<(), Fail> {
    for on in BOARDS {
        all_unwritten(&rt, rt.alloc(), *on, false)?;
        all_unwritten(&rt, rt.alloc(), *on, true)?;
    }
    Ok(())
}

// Writes to both engines fail at one event.
#[test]
fn writes_that_fail_at_one_event(rt: HostRuntime) -> Result<(), Fail> {
    // White's answers are taken and the flush fails; then Black's end lines fail.
    let mut input = MatchInput::of(WHITE, BLACK);
    input.white_write = 4;
    input.black_write = 1;
    ends_so(&rt, rt.alloc(), &input, &WHITE_UNWRITTEN, 0)?;
    // Both end lines fail: the outcome is kept, and White's failure is the first.
    let mut input = MatchInput::of(WHITE, BLACK);
    input.white_write = 15;
    input.black_write = 13;
    ends_so(&rt, rt.alloc(), &input, &MATE_UNWRITTEN, 4)
}

/// Writes to both engines are numbered together: how many there were, and the number of the last one to each.
#[derive(Drop)]
struct Calls {
    count: Cell<u64>,
    white: Cell<u64>,
    black: Cell<u64>,
}

/// An engine's input that takes all bytes and numbers its writes among those to both engines.
#[derive(Drop)]
struct Numbered<'a> {
    calls: &'a Calls,
    side: Colour,
}

impl Write for Numbered<'_> {
    ghost use Rattle.std.specs.Prelude.{None};

    ghost contents = { λ w. None };

    fn write(&mut self, buf: &[u8]) -> std::io::Result<usize> {
        let number = self.calls.count.get().saturating_add(1);
        self.calls.count.set(number);
        match self.side {
            Colour::White => self.calls.white.set(number),
            Colour::Black => self.calls.black.set(number),
        }
        Ok(buf.len())
    }

    fn flush(&mut self) -> std::io::Result<()> {
        Ok(())
    }
}

// An engine with such an input.
type NumberedEnds<'a> = Ends<Counted<PieceReader<'a>>, Counted<Numbered<'a>>>;

// An engine of this side that says these bytes, and whose writes are numbered.
fn numbered_ends<'a>(bytes: &'a [u8], calls: &'a Calls, side: Colour) -> NumberedEnds<'a> {
    Ends {
        reader: Counted::reading(PieceReader::new(bytes, 1024, 0)),
        writer: Counted::writing(Numbered { calls, side }),
    }
}

// In fool's mate the last write of all is that of the end lines to Black, and the one before is that to White.
#[test]
fn end_lines_to_white_first(rt: HostRuntime) -> Result<(), Fail> {
    let calls = Calls {
        count: Cell::new(0),
        white: Cell::new(0),
        black: Cell::new(0),
    };
    let setup = setup_of(&rt, b"0 0:10 0", Position::initial());
    let mut white = numbered_ends(WHITE, &calls, Colour::White);
    let mut black = numbered_ends(BLACK, &calls, Colour::Black);
    let mut moments = Listed { rest: &[] };
    let (end, _) = play_over(
        rt.alloc(),
        On::Plain,
        100,
        &mut white,
        &mut black,
        &mut moments,
        &setup,
    )?;
    assert_eq!(rt; end.outcome, Outcome::BlackWins);
    assert_eq!(rt; calls.white.get().saturating_add(1), calls.black.get());
    Ok(())
}

// What White says, as parts for `repeated`: a `feature` line with 1,700 unknown items, a long name and few others.
const MANY_ITEMS: &[(&[u8], usize)] = &[
    (b"feature ", 1),
    (b"a=1 ", 1700),
    (b"n", 1000),
    (b"=1 b=\"\" ping=1 done=1\npong 1\n\0\nresign\n", 1),
];

// What White is sent then: an answer to each item.
const MANY_ANSWERS: &[(&[u8], usize)] = &[
    (b"xboard\nprotover 2\n", 1),
    (b"rejected a\n", 1700),
    (b"rejected ", 1),
    (b"n", 1000),
    (
        b"\nrejected b\naccepted ping\naccepted done\nnew\nlevel 0 0:10 0\nnopost\neasy\nforce\nping 1\ntime 1000\notim 1000\ngo\nresult 0-1 {White resigns}\nquit\n",
        1,
    ),
];

// Plays this match, and compares what White is sent.
#[test]
fn feature_lines_of_many_items(rt: HostRuntime) -> Result<(), Fail> {
    let white = repeated(rt.alloc(), MANY_ITEMS)?;
    let sent = repeated(rt.alloc(), MANY_ANSWERS)?;
    let input = MatchInput::of(white.as_slice(), BLACK);
    let played = play(&rt, rt.alloc(), On::Plain, Position::initial(), &input)?;
    is_end(&rt, &played, &WHITE_RESIGNS);
    is_text(&rt, "to White", played.to_white.as_slice(), sent.as_slice());
    Ok(())
}
