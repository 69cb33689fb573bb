//! Engines that fall silent at any byte of what they send, or whose lines come late; and how long a match waits for
//! them.

use crate::engines::{FOOLS_MATE, Row};
use crate::plays::{BOARDS, On, check_end, is_text, play_over, setup_within};
use byte_devices::{Counted, Input, PieceReader, PieceWriter, ReadFault};
use chess_base::{Colour, Position};
use chess_game::Outcome;
use chess_match::{Ends, MatchFault, Moments, Patience};
use std::alloc::Global;
use std::cell::Cell;
use std::process::Abort;
use std::test::Fail;

/// An engine's output. It gives the first `before` bytes at once, and the others when the clock shows `comes`. A wait
/// takes the clock to that moment, or to the end of the wait if that is earlier; a read takes it to that moment.
#[derive(Drop)]
struct Late<'a> {
    input: Counted<PieceReader<'a>>,
    before: usize,
    comes: u64,
    clock: &'a Cell<u64>,
}

impl Late<'_> {
    // Sets the clock to this moment, unless it shows a later one.
    fn pass_to(&self, moment: u64) {
        self.clock.set(self.clock.get().max(moment));
    }
}

impl<'a> Input for Late<'a> {
    ghost use Rattle.byte_devices.specs.Devices.{InputState};

    ghost seen = { λ l. ⟦<Counted<PieceReader<'a>> as Input>⟧.seen l.input };

    fn read(&mut self, buf: &mut [u8]) -> Result<usize, ReadFault> {
        if self.before == 0 {
            self.pass_to(self.comes);
            return self.input.read(buf);
        }
        let len = self.before.min(buf.len());
        let count = self.input.read(&mut buf[..len])?;
        self.before = self.before.saturating_sub(count);
        Ok(count)
    }

    fn wait(&mut self, until: u64) -> bool {
        if self.before > 0 || self.clock.get() >= self.comes {
            return true;
        }
        self.pass_to(until.min(self.comes));
        if until >= self.comes {
            return true;
        }
        !self.input.fall_silent()
    }
}

/// The clock of the match, which only the engines' waits and reads move.
#[derive(Drop)]
struct Hand<'a> {
    clock: &'a Cell<u64>,
}

impl Moments for Hand<'_> {
    ghost use Rattle.std.specs.Prelude.{None};

    ghost coming = { λ m n. None };

    fn now(&mut self) -> u64 {
        self.clock.get()
    }
}

/// Which side is late in a match: from the byte `before` on its bytes come when the clock shows `comes`. When the match
/// begins the clock shows `begins`, and each read gives at most `cut` bytes.
#[derive(Clone, Copy)]
struct Lateness {
    side: Colour,
    before: usize,
    begins: u64,
    comes: u64,
    cut: usize,
}

/// What a match comes to: its outcome, comment and fault, and what the clock shows at its end.
#[derive(Clone, Copy)]
struct Came {
    outcome: Outcome,
    comment: &'static [u8],
    fault: Option<(Colour, MatchFault)>,
    clock: u64,
}

// The engine of this side, which says these bytes: late if it is the late one, or else at once.
fn late_ends<'a>(
    alloc: Global,
    bytes: &'a [u8],
    late: Lateness,
    side: Colour,
    clock: &'a Cell<u64>,
) -> Ends<Late<'a>, Counted<PieceWriter>> {
    let is_late = side == late.side;
    Ends {
        reader: Late {
            input: Counted::reading(PieceReader::new(bytes, late.cut.max(1), 0)),
            before: if is_late { late.before } else { bytes.len() },
            comes: if is_late { late.comes } else { 0 },
            clock,
        },
        writer: Counted::writing(PieceWriter::new(alloc, 1024, 0)),
    }
}

// Plays fool's mate with this patience, where one engine is late, and asserts what it comes to.
fn plays_late(
    rt: &impl Abort,
    alloc: Global,
    on: On,
    patience: Patience,
    late: Lateness,
    came: &Came,
) -> Result<(), Fail> {
    let row: &Row = &FOOLS_MATE;
    let setup = setup_within(rt, row.level, Position::initial(), patience);
    let clock = Cell::new(late.begins);
    let mut white = late_ends(alloc, row.white, late, Colour::White, &clock);
    let mut black = late_ends(alloc, row.black, late, Colour::Black, &clock);
    let mut moments = Hand { clock: &clock };
    let (end, _) = play_over(
        alloc,
        on,
        row.limit,
        &mut white,
        &mut black,
        &mut moments,
        &setup,
    )?;
    check_end(rt, &end, came.outcome, came.comment, came.fault);
    assert_eq!(rt; clock.get(), came.clock, "clock");
    Ok(())
}

/// Both limits: flags fall by themselves after ten seconds, and a reply has seven.
const BOTH: Patience = Patience {
    flag: true,
    reply: Some(7000),
};

// The moment at which a line comes that never comes.
const NEVER: u64 = u64::MAX;

/// The match where no line is late.
const MATE: Came = Came {
    outcome: Outcome::BlackWins,
    comment: b"Black mates",
    fault: None,
    clock: 0,
};

// A flag falls at the first moment beyond the ten seconds.
const WHITE_FORFEITS: Came = Came {
    outcome: Outcome::BlackWins,
    comment: b"White forfeits on time",
    fault: None,
    clock: 10001,
};

const BLACK_FORFEITS: Came = Came {
    outcome: Outcome::WhiteWins,
    comment: b"Black forfeits on time",
    fault: None,
    clock: 10001,
};

/// White didn't end its handshake within the limit of a reply.
const WHITE_NO_HANDSHAKE: Came = Came {
    outcome: Outcome::Unfinished,
    comment: b"White sent no done=1 (a UCI engine needs polyglot)",
    fault: Some((Colour::White, MatchFault::NoHandshake)),
    clock: 7001,
};

/// White sent no `pong` within that limit.
const WHITE_NO_ANSWER: Came = Came {
    outcome: Outcome::Unfinished,
    comment: b"White did not answer",
    fault: Some((Colour::White, MatchFault::NoAnswer)),
    clock: 7001,
};

/// Black didn't end its handshake within the limit of a reply.
const BLACK_NO_HANDSHAKE: Came = Came {
    outcome: Outcome::Unfinished,
    comment: b"Black sent no done=1 (a UCI engine needs polyglot)",
    fault: Some((Colour::Black, MatchFault::NoHandshake)),
    clock: 7001,
};

/// Black sent no `pong` within that limit.
const BLACK_NO_ANSWER: Came = Came {
    outcome: Outcome::Unfinished,
    comment: b"Black did not answer",
    fault: Some((Colour::Black, MatchFault::NoAnswer)),
    clock: 7001,
};

/// What the match comes to where White falls silent for ever: a row for each number of whole lines that it sent before.
const WHITE_HANGS: &[Came] = &[
    WHITE_NO_HANDSHAKE,
    WHITE_NO_ANSWER,
    WHITE_FORFEITS,
    WHITE_NO_ANSWER,
    WHITE_FORFEITS,
    WHITE_NO_ANSWER,
    MATE,
];

/// The same where Black falls silent.
const BLACK_HANGS: &[Came] = &[
    BLACK_NO_HANDSHAKE,
    BLACK_NO_ANSWER,
    BLACK_FORFEITS,
    BLACK_NO_ANSWER,
    BLACK_FORFEITS,
    MATE,
];

// How many whole lines are among the first `place` of these bytes.
fn whole_lines(bytes: &[u8], place: usize) -> usize {
    let mut count: usize = 0;
    for byte in &bytes[..place.min(bytes.len())] {
        if *byte == b'\n' {
            count = count.saturating_add(1);
        }
    }
    count
}

// How many bytes a read gives at most.
const CUTS: &[usize] = &[1, 7, 1024];

// Lets this engine, which says these bytes, fall silent for ever after each number of them: the match comes to the row
// of `table` for the whole lines that it sent.
fn hangs_anywhere(
    rt: &impl Abort,
    alloc: Global,
    side: Colour,
    bytes: &[u8],
    table: &[Came],
) -> Result<(), Fail> {
    for before in 0..bytes.len().saturating_add(1) {
        let Some(came) = table.get(whole_lines(bytes, before)) else {
            panic!(rt; "more lines than rows");
        };
        for cut in CUTS {
            let late = Lateness {
                side,
                before,
                begins: 0,
                comes: NEVER,
                cut: *cut,
            };
            plays_late(rt, alloc, On::Plain, BOTH, late, came)?;
        }
    }
    Ok(())
}

// White falls silent.
#[test]
fn white_hangs_anywhere(rt: HostRuntime) -> Result<(), Fail> {
    hangs_anywhere(
        &rt,
        rt.alloc(),
        Colour::White,
        FOOLS_MATE.white,
        WHITE_HANGS,
    )
}

// Black falls silent.
#[test]
fn black_hangs_anywhere(rt: HostRuntime) -> Result<(), Fail> {
    hangs_anywhere(
        &rt,
        rt.alloc(),
        Colour::Black,
        FOOLS_MATE.black,
        BLACK_HANGS,
    )
}

// At which byte each of White's lines begins: its handshake, `pong 1`, and two moves, each with its `pong`.
const WHITE_LINES: &[usize] = &[0, 33, 40, 50, 57, 67];

// Plays fool's mate, where White's lines from that of this number on come when the clock shows `comes`, and asserts
// what it comes to.
fn is_late_at(
    rt: &impl Abort,
    alloc: Global,
    on: On,
    line: usize,
    patience: Patience,
    comes: u64,
    came: &Came,
) -> Result<(), Fail> {
    let Some(before) = WHITE_LINES.get(line) else {
        panic!(rt; "no such line");
    };
    let late = Lateness {
        side: Colour::White,
        before: *before,
        begins: 0,
        comes,
        cut: 1024,
    };
    plays_late(rt, alloc, on, patience, late, came)
}

// The match whose only late line comes at this moment, and in time.
fn mate_at(clock: u64) -> Came {
    Came {
        outcome: Outcome::BlackWins,
        comment: b"Black mates",
        fault: None,
        clock,
    }
}

/// Which of White's lines are replies, and which are moves.
const REPLIES: &[usize] = &[0, 1, 3, 5];

const MOVES: &[usize] = &[2, 4];

// A reply may come just within its limit, and also at the last look for it, a millisecond later. A move may come just
// when the time is used up.
#[test]
fn lines_in_time(rt: HostRuntime) -> Result<(), Fail> {
    for on in BOARDS {
        for line in REPLIES {
            is_late_at(&rt, rt.alloc(), *on, *line, BOTH, 7000, &mate_at(7000))?;
            is_late_at(&rt, rt.alloc(), *on, *line, BOTH, 7001, &mate_at(7001))?;
        }
        for line in MOVES {
            is_late_at(&rt, rt.alloc(), *on, *line, BOTH, 10000, &mate_at(10000))?;
        }
    }
    Ok(())
}

// What the clock shows when a match begins: far more than the limit of a reply.
const BEGINS: u64 = 1_000_000;

// Plays the match that begins at this moment, in which White's first line comes when the clock shows `comes`.
fn begins_late(
    rt: &impl Abort,
    alloc: Global,
    on: On,
    comes: u64,
    came: &Came,
) -> Result<(), Fail> {
    let late = Lateness {
        side: Colour::White,
        before: 0,
        begins: BEGINS,
        comes,
        cut: 1024,
    };
    plays_late(rt, alloc, on, BOTH, late, came)
}

// White's first line is looked for when the clock shows 1,000,000, and has not come: by `reply_row` the time for it
// runs from there, and not from 0. A silence ends the match if `moment - 1000000` is more than 7000, first at
// 1,007,001. What comes by then is read in time, since no silence was beyond the limit before it.
#[test]
fn time_runs_from_the_first_silence(rt: HostRuntime) -> Result<(), Fail> {
    let hangs = Came {
        clock: 1_007_001,
        ..WHITE_NO_HANDSHAKE
    };
    for on in BOARDS {
        begins_late(&rt, rt.alloc(), *on, BEGINS, &mate_at(BEGINS))?;
        begins_late(&rt, rt.alloc(), *on, 1_007_000, &mate_at(1_007_000))?;
        begins_late(&rt, rt.alloc(), *on, 1_007_001, &mate_at(1_007_001))?;
        begins_late(&rt, rt.alloc(), *on, 1_007_002, &hangs)?;
        begins_late(&rt, rt.alloc(), *on, NEVER, &hangs)?;
    }
    Ok(())
}

// What the match comes to where White falls silent before its line of this number.
fn white_hangs_at(rt: &impl Abort, line: usize) -> Came {
    match WHITE_HANGS.get(line) {
        Some(came) => *came,
        None => panic!(rt; "no such line"),
    }
}

// A line that comes too late is as good as none; a move a millisecond too late is read, and the flag falls with it.
#[test]
fn lines_too_late(rt: HostRuntime) -> Result<(), Fail> {
    for on in BOARDS {
        for line in REPLIES {
            let came = white_hangs_at(&rt, *line);
            is_late_at(&rt, rt.alloc(), *on, *line, BOTH, 7002, &came)?;
        }
        for line in MOVES {
            is_late_at(&rt, rt.alloc(), *on, *line, BOTH, 10001, &WHITE_FORFEITS)?;
            is_late_at(&rt, rt.alloc(), *on, *line, BOTH, 10002, &WHITE_FORFEITS)?;
        }
    }
    Ok(())
}

// The moment of a line that comes very late.
const LATE: u64 = 900_000;

/// A move that comes then loses on time, where flags fall only with a line.
const WHITE_FORFEITS_LATE: Came = Came {
    outcome: Outcome::BlackWins,
    comment: b"White forfeits on time",
    fault: None,
    clock: LATE,
};

// Only the clocks are a limit, or only the time for a reply.
const FLAG: Patience = Patience {
    flag: true,
    reply: None,
};

const REPLY: Patience = Patience {
    flag: false,
    reply: Some(7000),
};

// Where replies have no limit, a reply may come at any time. Where flags don't fall by themselves, a move that comes
// too late loses on time, but only when it comes.
#[test]
fn one_limit_alone(rt: HostRuntime) -> Result<(), Fail> {
    for patience in [FLAG, Patience::ENDLESS] {
        for line in REPLIES {
            is_late_at(
                &rt,
                rt.alloc(),
                On::Bits,
                *line,
                patience,
                LATE,
                &mate_at(LATE),
            )?;
        }
    }
    for patience in [REPLY, Patience::ENDLESS] {
        for line in MOVES {
            is_late_at(
                &rt,
                rt.alloc(),
                On::Bits,
                *line,
                patience,
                10000,
                &mate_at(10000),
            )?;
            let came = &WHITE_FORFEITS_LATE;
            is_late_at(&rt, rt.alloc(), On::Bits, *line, patience, LATE, came)?;
        }
    }
    Ok(())
}
