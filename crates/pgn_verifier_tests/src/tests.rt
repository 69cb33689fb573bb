//! What `verify` and `verify_collection` write of texts and collections, with options of each kind, however the bytes
//! are cut by reads.

ghost use Rattle.std.specs.Prelude.{◌<◌};

use byte_devices::{Counted, PieceReader};
use pgn_verifier::{
    LENIENT, STRICT_FAULTS, Strictness, Verified, VerifyFault, VerifyOptions, verify,
    verify_collection,
};
use std::process::Abort;

// Options: a line for each game, and only the faults that are looked for without `--strict`.
const ALL: VerifyOptions = VerifyOptions {
    quiet: false,
    strict: LENIENT,
    spans: false,
    names: false,
    explain: false,
};

// Options: lines for faults alone, and all faults of `--strict`.
const STRICT: VerifyOptions = VerifyOptions {
    quiet: true,
    strict: STRICT_FAULTS,
    spans: false,
    names: false,
    explain: false,
};

// Options: a line for each game, and variations are read too.
const VARIATIONS: VerifyOptions = VerifyOptions {
    quiet: false,
    strict: Strictness {
        draws_of_2014: true,
        variations: true,
        variant: false,
        result: false,
        board: false,
    },
    spans: false,
    names: false,
    explain: true,
};

// Options: games go on after fivefold repetition and 75 moves, and all other faults are looked for.
const PAST_DRAWS: VerifyOptions = VerifyOptions {
    quiet: false,
    strict: Strictness {
        draws_of_2014: false,
        variations: true,
        variant: true,
        result: true,
        board: true,
    },
    spans: false,
    names: false,
    explain: true,
};

// Options: a line for each game, with its span of bytes.
const SPANS: VerifyOptions = VerifyOptions {
    quiet: false,
    strict: LENIENT,
    spans: true,
    names: false,
    explain: false,
};

// Options: a line for each game, and names with each fault.
const NAMES: VerifyOptions = VerifyOptions {
    quiet: false,
    strict: LENIENT,
    spans: false,
    names: true,
    explain: false,
};

// Options: lines for faults alone, each with an explanation, and all faults of `--strict`.
const EXPLAINED: VerifyOptions = VerifyOptions {
    quiet: true,
    strict: STRICT_FAULTS,
    spans: false,
    names: false,
    explain: true,
};

// A text as it is read: at most `cut` bytes by each read, of which the one numbered `fails_at` fails (0: none).
#[derive(Clone, Copy)]
struct Given {
    text: &'static [u8],
    cut: usize,
    fails_at: u64,
    ghost cut_some: { 0 < cut },
}

// Verifies a text, or a collection piece by piece, and asserts the answer and the lines that are written.
fn check(
    rt: &impl Abort,
    host: &HostRuntime,
    is_collection: bool,
    options: VerifyOptions,
    given: Given,
    wanted: Result<Verified, VerifyFault>,
    lines: &[u8],
) {
    let mut input = Counted::reading(PieceReader::new(given.text, given.cut, given.fails_at));
    let mut output = Counted::writing(Vec::<u8>::new(host.alloc()));
    let answer = if is_collection {
        verify_collection(host.alloc(), options, &mut input, &mut output)
    } else {
        verify(host.alloc(), options, &mut input, &mut output)
    };
    assert_eq!(rt; answer, wanted);
    assert!(rt; output.writer().as_slice() == lines, "other lines");
}

// The same for a text that can be read, by 1 to 5 bytes at a time.
fn check_cuts(
    rt: &impl Abort,
    host: &HostRuntime,
    is_collection: bool,
    options: VerifyOptions,
    text: &'static [u8],
    wanted: Verified,
    lines: &[u8],
) {
    for cut in 1..6 {
        let given = Given {
            text,
            cut,
            fails_at: 0,
        };
        check(rt, host, is_collection, options, given, Ok(wanted), lines);
    }
}

// Without games nothing is written; else a line for each game, or with STRICT for each fault.
#[test]
fn texts_have_a_line_for_each_game(rt: HostRuntime) {
    check_cuts(&rt, &rt, false, ALL, b"", Verified::EachGame, b"");
    check_cuts(
        &rt,
        &rt,
        false,
        ALL,
        b"1. f3 e5 2. g4 Qh4# 0-1\n\n1. e4 e4 *",
        Verified::FaultReported,
        b"game 1: 4 half-moves, 0-1\ngame 2: illegal move at byte 31\n",
    );
    check_cuts(
        &rt,
        &rt,
        false,
        STRICT,
        b"[Result \"1-0\"]\n1. e4 0-1",
        Verified::FaultReported,
        b"game 1: result differs at byte 9\n",
    );
}

// Tags `Variant` with `--strict`, and what is written of them: the names of normal chess and Chess960 are known, in
// capital or small letters; another name is a fault, which comes before that of the result. Only the last tag counts.
const VARIANTS: [(&[u8], Verified, &[u8]); 8] = [
    (b"[Variant \"Standard\"] e4 *", Verified::EachGame, b""),
    (b"[Variant \"FROM POSITION\"] e4 *", Verified::EachGame, b""),
    (b"[Variant \"chess960\"] e4 *", Verified::EachGame, b""),
    (
        b"[Variant \"Atomic\"] e4 *",
        Verified::FaultReported,
        b"game 1: unknown variant at byte 10\n",
    ),
    (
        b"[Variant \"Chess 960\"] e4 *",
        Verified::FaultReported,
        b"game 1: unknown variant at byte 10\n",
    ),
    (
        b"[Result \"1-0\"][Variant \"\"] e4 *",
        Verified::FaultReported,
        b"game 1: unknown variant at byte 24\n",
    ),
    (
        b"[Variant \"Atomic\"][Variant \"Normal\"] e4 *",
        Verified::EachGame,
        b"",
    ),
    (
        b"[Variant \"Atomic\"] e4 e4 *",
        Verified::FaultReported,
        b"game 1: illegal move at byte 22\n",
    ),
];

// Verifies each row.
#[test]
fn unknown_variants_are_faults(rt: HostRuntime) {
    for (text, wanted, lines) in &VARIANTS {
        check_cuts(&rt, &rt, false, STRICT, *text, *wanted, *lines);
    }
}

// Games with variations, and what is written of them. A variation replaces the move just before it.
const VARIATION_TEXTS: [(&[u8], Verified, &[u8]); 24] = [
    (
        b"1. e4 (1. d4 d5) e5 *",
        Verified::EachGame,
        b"game 1: 2 half-moves, *\n",
    ),
    (
        b"1. e4 e5 (1... c5 2. Nf3) 2. Nc3 *",
        Verified::EachGame,
        b"game 1: 3 half-moves, *\n",
    ),
    // Two variations replace the same move, and one is in another.
    (
        b"1. e4 (1. d4) (1. c4 c5 (1... e5) 2. Nf3) 1... e5 *",
        Verified::EachGame,
        b"game 1: 2 half-moves, *\n",
    ),
    // Black's move replaces White's: it is not Black's turn.
    (
        b"1. e4 (1... e5) e5 *",
        Verified::FaultReported,
        b"game 1: illegal move in a variation at byte 12\n# line 1 column 13 e5)\n",
    ),
    (
        b"1. e4 e5 (2. Nf3) *",
        Verified::FaultReported,
        b"game 1: illegal move in a variation at byte 13\n# line 1 column 14 Nf3)\n",
    ),
    // The second move of a variation, and one of a variation in it.
    (
        b"1. e4 (1. d4 d4) e5 *",
        Verified::FaultReported,
        b"game 1: illegal move in a variation at byte 13\n# line 1 column 14 d4)\n",
    ),
    (
        b"1. e4 (1. d4 d5 (1... c5 2. c5)) e5 *",
        Verified::FaultReported,
        b"game 1: illegal move in a variation at byte 28\n# line 1 column 29 c5))\n",
    ),
    // After a variation the line goes on where it was.
    (
        b"1. e4 (1. d4) d4 *",
        Verified::FaultReported,
        b"game 1: illegal move at byte 14\n# line 1 column 15 d4 | rnbqkbnr/pppppppp/8/8/4P3/8/PPPP1PPP/RNBQKBNR b KQkq e3 0 1\n",
    ),
    (
        b"1. d4 (1. e4 e5 (1... c5) e5) d5 *",
        Verified::FaultReported,
        b"game 1: illegal move in a variation at byte 26\n# line 1 column 27 e5)\n",
    ),
    // With no move before it in its own line.
    (
        b"(1. d4) 1. e4 *",
        Verified::FaultReported,
        b"game 1: bad token in a variation at byte 0\n# line 1 column 1 (1. | no move that this variation replaces\n",
    ),
    (
        b"1. e4 ((1. d4) c4) e5 *",
        Verified::FaultReported,
        b"game 1: bad token in a variation at byte 7\n# line 1 column 8 (1. | no move that this variation replaces\n",
    ),
    // Null moves.
    (
        b"1. e4 e5 (1... -- 2. d4) *",
        Verified::FaultReported,
        b"game 1: bad token in a variation at byte 15\n# line 1 column 16 -- | a null move, which chess does not have\n",
    ),
    (
        b"1. e4 e5 (1... Z0) *",
        Verified::FaultReported,
        b"game 1: bad token in a variation at byte 15\n# line 1 column 16 Z0) | a null move, which chess does not have\n",
    ),
    // Comments, `%` lines, glyphs, marks, numbers and results are passed over, and what is in them isn't read.
    (
        b"1. e4 (1. d4 {Ke9 (} $1 !? ; Ke9 (\n% Ke9 (\n d5 1-0 2. c4) e5 *",
        Verified::EachGame,
        b"game 1: 2 half-moves, *\n",
    ),
    // A tag is a fault, also one whose string has the `)` that ends the variation for the game.
    (
        b"1. e4 (1. d4 [a \"x\"] d5) e5 *",
        Verified::FaultReported,
        b"game 1: bad token in a variation at byte 13\n# line 1 column 14 [a | begins no token\n",
    ),
    (
        b"1. e4 (1. e4 [a \");\"]\n1... e5 (1... e5 [a \");\"]\n*",
        Verified::FaultReported,
        b"game 1: bad token in a variation at byte 13\n# line 1 column 14 [a | begins no token\n",
    ),
    (
        b"1. e4 (1. d4 & d5) e5 *",
        Verified::FaultReported,
        b"game 1: bad token in a variation at byte 13\n# line 1 column 14 & | begins no token\n",
    ),
    (
        b"1. e4 (1. d4 Ke9) e5 *",
        Verified::FaultReported,
        b"game 1: bad token in a variation at byte 13\n# line 1 column 14 Ke9) | not a move\n",
    ),
    // Castling, en passant and a promotion in variations.
    (
        b"[FEN \"r3k2r/6P1/8/8/8/8/8/R3K2R w KQkq - 0 1\"] 1. O-O (1. O-O-O) (1. gxh8=Q+) Ke7 *",
        Verified::EachGame,
        b"game 1: 2 half-moves, *\n",
    ),
    (
        b"[FEN \"4k3/8/8/8/1p6/8/P7/4K3 w - - 0 1\"] 1. a4 bxa3 (1... b3) (1... bxa3 2. Kd1 (2. Ke2)) *",
        Verified::EachGame,
        b"game 1: 2 half-moves, *\n",
    ),
    // After mate no move is legal; no draw ends a variation: here the kings are alone.
    (
        b"1. f3 e5 2. g4 d5 (2... Qh4# 3. a3) *",
        Verified::FaultReported,
        b"game 1: illegal move in a variation at byte 32\n# line 1 column 33 a3)\n",
    ),
    (
        b"[FEN \"4k3/8/8/8/8/8/4p3/4K3 w - - 0 1\"] 1. Kd2 (1. Kxe2 Ke7 2. Ke3) e1=Q+ *",
        Verified::EachGame,
        b"game 1: 2 half-moves, *\n",
    ),
    // A fault of the game itself comes first, and the games after a game are read.
    (
        b"1. e4 (1. d5) e5 2. Ke3 *",
        Verified::FaultReported,
        b"game 1: illegal move at byte 20\n# line 1 column 21 Ke3 | rnbqkbnr/pppp1ppp/8/4p3/4P3/8/PPPP1PPP/RNBQKBNR w KQkq e6 0 2\n",
    ),
    (
        b"1. e4 (1. d4) * 1. d4 (1. d5) *",
        Verified::FaultReported,
        b"game 1: 1 half-moves, *\ngame 2: illegal move in a variation at byte 26\n# line 1 column 27 d5)\n",
    ),
];

// Verifies each row.
#[test]
fn variations_are_read(rt: HostRuntime) {
    for (text, wanted, lines) in &VARIATION_TEXTS {
        check_cuts(&rt, &rt, false, VARIATIONS, *text, *wanted, *lines);
    }
}

// Games that go on after a draw by fivefold repetition or by 75 moves, which are ignored, and what is written of them.
const PAST_DRAW_TEXTS: [(&[u8], Verified, &[u8]); 10] = [
    // These games are read to their ends, and their results are not compared with such a draw.
    (
        b"Nf3 Nf6 Ng1 Ng8 Nf3 Nf6 Ng1 Ng8 Nf3 Nf6 Ng1 Ng8 Nf3 Nf6 Ng1 Ng8 e4 *",
        Verified::EachGame,
        b"game 1: 17 half-moves, *\n",
    ),
    (
        b"Nf3 Nf6 Ng1 Ng8 Nf3 Nf6 Ng1 Ng8 Nf3 Nf6 Ng1 Ng8 Nf3 Nf6 Ng1 Ng8 1-0",
        Verified::EachGame,
        b"game 1: 16 half-moves, 1-0\n",
    ),
    (
        b"[FEN \"4k3/8/8/8/8/8/8/R3K3 w - - 149 100\"] Ra2 Kd7 0-1",
        Verified::EachGame,
        b"game 1: 2 half-moves, 0-1\n",
    ),
    // But their results are compared with mate, and with the tag Result.
    (
        b"Nf3 Nf6 Ng1 Ng8 Nf3 Nf6 Ng1 Ng8 Nf3 Nf6 Ng1 Ng8 Nf3 Nf6 Ng1 Ng8 f3 e5 g4 Qh4 1-0",
        Verified::FaultReported,
        b"game 1: board says otherwise at byte 77\n# line 1 column 78 1-0 | rnb1kbnr/pppp1ppp/8/4p3/6Pq/5P2/PPPPP2P/RNBQKBNR w KQkq - 1 11 | 0-1 {Black mates}\n",
    ),
    (
        b"[Result \"0-1\"] Nf3 Nf6 Ng1 Ng8 Nf3 Nf6 Ng1 Ng8 Nf3 Nf6 Ng1 Ng8 Nf3 Nf6 Ng1 Ng8 e4 1-0",
        Verified::FaultReported,
        b"game 1: result differs at byte 9\n# line 1 column 10 0-1\"] | rnbqkbnr/pppppppp/8/8/4P3/8/PPPP1PPP/RNBQKBNR b KQkq e3 0 9 | Result 0-1, ended 1-0\n",
    ),
    // Mate ends a game.
    (
        b"1. f3 e5 2. g4 Qh4 3. a3 *",
        Verified::FaultReported,
        b"game 1: move after the end at byte 22\n# line 1 column 23 a3 | rnb1kbnr/pppp1ppp/8/4p3/6Pq/5P2/PPPPP2P/RNBQKBNR w KQkq - 1 3 | 0-1 {Black mates}\n",
    ),
    (
        b"Nf3 Nf6 Ng1 Ng8 Nf3 Nf6 Ng1 Ng8 Nf3 Nf6 Ng1 Ng8 Nf3 Nf6 Ng1 Ng8 f3 e5 g4 Qh4 a3 *",
        Verified::FaultReported,
        b"game 1: move after the end at byte 77\n# line 1 column 78 a3 | rnb1kbnr/pppp1ppp/8/4p3/6Pq/5P2/PPPPP2P/RNBQKBNR w KQkq - 1 11 | 0-1 {Black mates}\n",
    ),
    // Other faults after such a draw.
    (
        b"Nf3 Nf6 Ng1 Ng8 Nf3 Nf6 Ng1 Ng8 Nf3 Nf6 Ng1 Ng8 Nf3 Nf6 Ng1 Ng8 Ke3 *",
        Verified::FaultReported,
        b"game 1: illegal move at byte 64\n# line 1 column 65 Ke3 | rnbqkbnr/pppppppp/8/8/8/8/PPPPPPPP/RNBQKBNR w KQkq - 16 9\n",
    ),
    (
        b"Nf3 Nf6 Ng1 Ng8 Nf3 Nf6 Ng1 Ng8 Nf3 Nf6 Ng1 Ng8 Nf3 Nf6 Ng1 Ng8 e4 (d4 d4) *",
        Verified::FaultReported,
        b"game 1: illegal move in a variation at byte 71\n# line 1 column 72 d4)\n",
    ),
    // The game after it.
    (
        b"Nf3 Nf6 Ng1 Ng8 Nf3 Nf6 Ng1 Ng8 Nf3 Nf6 Ng1 Ng8 Nf3 Nf6 Ng1 Ng8 e4 * 1. e4 e4 *",
        Verified::FaultReported,
        b"game 1: 17 half-moves, *\ngame 2: illegal move at byte 75\n# line 1 column 76 e4 | rnbqkbnr/pppppppp/8/8/4P3/8/PPPP1PPP/RNBQKBNR b KQkq e3 0 1\n",
    ),
];

// Verifies each row, and the first one as a collection.
#[test]
fn games_go_on_after_ignored_draws(rt: HostRuntime) {
    for (text, wanted, lines) in &PAST_DRAW_TEXTS {
        check_cuts(&rt, &rt, false, PAST_DRAWS, *text, *wanted, *lines);
    }
    check_cuts(
        &rt,
        &rt,
        true,
        PAST_DRAWS,
        b"Nf3 Nf6 Ng1 Ng8 Nf3 Nf6 Ng1 Ng8 Nf3 Nf6 Ng1 Ng8 Nf3 Nf6 Ng1 Ng8 e4 *",
        Verified::EachGame,
        b"game 1: 17 half-moves, *\ngames 1 half-moves 17 faults 0\n",
    );
}

// A collection's second piece is read after a fault in the first, and the counts are written at the end.
#[test]
fn collections_go_on_after_a_fault(rt: HostRuntime) {
    check_cuts(
        &rt,
        &rt,
        true,
        ALL,
        b"[Event \"a\"]\n1. e4\n[Event \"b\"]\n1. d4 *",
        Verified::FaultReported,
        b"game 1: no result at byte 18\ngame 2: 1 half-moves, *\ngames 1 half-moves 1 faults 1\n",
    );
}

// A game's span begins at its first byte that is no white space, and ends with its termination; with a fault it ends
// with its text.
#[test]
fn lines_end_with_spans(rt: HostRuntime) {
    check_cuts(
        &rt,
        &rt,
        false,
        SPANS,
        b"\xEF\xBB\xBF [Event \"a\"]\n1. e4 1-0 {x}\n\n1. d4 *\n1. Ke5 *\n",
        Verified::FaultReported,
        b"game 1: 1 half-moves, 1-0, bytes 4 to 25\ngame 2: 1 half-moves, *, bytes 26 to 38\ngame 3: illegal move at byte 42, bytes 39 to 48\n",
    );
    check_cuts(
        &rt,
        &rt,
        true,
        SPANS,
        b"\n[Event \"a\"]\n1. e4\n\n[Event \"b\"]\n[Termination \"normal\"]\n1. d4 *\n{x}\n",
        Verified::FaultReported,
        b"game 1: no result at byte 20, bytes 1 to 20\ngame 2: 1 half-moves, *, normal, bytes 20 to 62\ngames 1 half-moves 1 faults 1\n",
    );
    let options = VerifyOptions {
        spans: true,
        ..EXPLAINED
    };
    check_cuts(
        &rt,
        &rt,
        false,
        options,
        b"* 1. xx *",
        Verified::FaultReported,
        b"game 2: bad token at byte 5, bytes 2 to 9\n# line 1 column 6 xx | rnbqkbnr/pppppppp/8/8/8/8/PPPPPPPP/RNBQKBNR w KQkq - 0 1 | not a move\n",
    );
}

// A fault's line ends with players, event and date. Of several tags the last counts; what isn't printable is `?`, and
// so is a tag that is missing. The line of a game without a fault has no names.
#[test]
fn faults_end_with_names(rt: HostRuntime) {
    check_cuts(
        &rt,
        &rt,
        true,
        NAMES,
        b"[Event \"a\"]\n[White \"x\"]\n[White \"M\xC3\xBC \\\"y\"]\n[Date \"2013.11.09\"]\n1. Ke3 *\n[Event \"b\"]\n1. d4 *\n",
        Verified::FaultReported,
        b"game 1: illegal move at byte 65 | M?? \\\"y - ?, a 2013.11.09\ngame 2: 1 half-moves, *\ngames 1 half-moves 1 faults 1\n",
    );
    let options = VerifyOptions {
        spans: true,
        names: true,
        ..EXPLAINED
    };
    check_cuts(
        &rt,
        &rt,
        false,
        options,
        b"[White \"0123456789012345678901234567890123456789+\"] xx",
        Verified::FaultReported,
        b"game 1: bad token at byte 52, bytes 0 to 54 | 0123456789012345678901234567890123456789 - ?, ? ?\n# line 1 column 53 xx | rnbqkbnr/pppppppp/8/8/8/8/PPPPPPPP/RNBQKBNR w KQkq - 0 1 | not a move\n",
    );
}

// The second read fails. Of a text nothing is written then. Of a collection the first game is, if the `"` of the next
// tag line was read: without it, that may be a line of moves, and the piece may go on.
#[test]
fn failed_reads_leave_the_lines_that_are_known(rt: HostRuntime) {
    let given = Given {
        text: b"1. e4 *\n[Event \"a\"]\n1. d4 *",
        cut: 16,
        fails_at: 2,
    };
    let short = Given {
        text: given.text,
        cut: 15,
        fails_at: 2,
    };
    let failed = Err(VerifyFault::ReadFailed);
    check(&rt, &rt, false, ALL, given, failed, b"");
    check(&rt, &rt, true, ALL, short, failed, b"");
    let line = b"game 1: 1 half-moves, *\n";
    check(&rt, &rt, true, ALL, given, failed, line);
}

// A fault's explanation has its place, the text there, the position and the reason.
#[test]
fn faults_are_explained(rt: HostRuntime) {
    check_cuts(
        &rt,
        &rt,
        false,
        EXPLAINED,
        b"1. e4 *",
        Verified::EachGame,
        b"",
    );
    check_cuts(
        &rt,
        &rt,
        false,
        EXPLAINED,
        b"1. f3 e5 2. g4 Qh4# 0-1\n\n1. e4 e4 *",
        Verified::FaultReported,
        b"game 2: illegal move at byte 31\n# line 3 column 7 e4 | rnbqkbnr/pppppppp/8/8/4P3/8/PPPP1PPP/RNBQKBNR b KQkq e3 0 1\n",
    );
    check_cuts(
        &rt,
        &rt,
        false,
        EXPLAINED,
        b"[Result \"1-0\"]\n1. e4 0-1",
        Verified::FaultReported,
        b"game 1: result differs at byte 9\n# line 1 column 10 1-0\"] | rnbqkbnr/pppppppp/8/8/4P3/8/PPPP1PPP/RNBQKBNR b KQkq e3 0 1 | Result 1-0, ended 0-1\n",
    );
}

// In a collection lines count from its beginning, whatever piece the fault is in.
#[test]
fn faults_in_pieces_are_explained(rt: HostRuntime) {
    check_cuts(
        &rt,
        &rt,
        true,
        EXPLAINED,
        b"[Site \"s\"]\r\n[Event \"a\"]\r\n1. e4\r\n[Site \"t\"]\n[Event \"b\"]\n1. d4 *\n[Event \"c\"]\n1. f3 e5 2. g4\nQh4 a3 0-1",
        Verified::FaultReported,
        b"game 1: no result at byte 32\n# line 1 column 1 [Site | rnbqkbnr/pppppppp/8/8/4P3/8/PPPP1PPP/RNBQKBNR b KQkq e3 0 1\ngame 3: move after the end at byte 94\n# line 9 column 5 a3 | rnb1kbnr/pppp1ppp/8/4p3/6Pq/5P2/PPPPP2P/RNBQKBNR w KQkq - 1 3 | 0-1 {Black mates}\ngames 1 half-moves 1 faults 2\n",
    );
}

// Texts with a tag FEN that is refused, one for each fault at least, and what is written of them.
const FENS: [(&[u8], &[u8]); 24] = [
    (
        b"[FEN \"4k3/8/8/8/8/8/8/4K3 w - - 0\"] *",
        b"game 1: bad FEN at byte 6\n# line 1 column 7 4k3/8/8/8/8/8/8/4K3 | fields\n",
    ),
    (
        b"[FEN \"\"] *",
        b"game 1: bad FEN at byte 6\n# line 1 column 7 (end) | fields\n",
    ),
    (
        b"[FEN \"  \"] *",
        b"game 1: bad FEN at byte 6\n# line 1 column 9 (end) | fields\n",
    ),
    (
        b"[FEN \"4k3/8/8/8/8/8/8/4K3\tw - - 0 1\"] *",
        b"game 1: bad FEN at byte 6\n# line 1 column 7 4k3/8/8/8/8/8/8/4K3?w | fields\n",
    ),
    (
        b"[FEN \"4k3/8/8/8/8/8/8/4K4 w - - 0 1\"] *",
        b"game 1: bad FEN at byte 6\n# line 1 column 7 4k3/8/8/8/8/8/8/4K4 | placement\n",
    ),
    (
        b"[FEN \"8/8\\\" w - - 0 1\"] *",
        b"game 1: bad FEN at byte 6\n# line 1 column 7 8/8\\ | placement\n",
    ),
    (
        b"[FEN \"4k3/8/8/8/8/8/8/4K3 white - - 0 1\"] *",
        b"game 1: bad FEN at byte 6\n# line 1 column 27 white | side\n",
    ),
    (
        b"[FEN \"4k3/8/8/8/8/8/8/4K3 w KX - 0 1\"] *",
        b"game 1: bad FEN at byte 6\n# line 1 column 29 KX | castling, as in normal chess unless the tag Variant names Chess960\n",
    ),
    (
        b"[FEN \"4k3/8/8/8/8/8/8/4K2R w KQ - 0 1\"] *",
        b"game 1: bad FEN at byte 6\n# line 1 column 30 KQ | castling, as in normal chess unless the tag Variant names Chess960\n",
    ),
    (
        b"[FEN \"1rr3k1/p3ppbp/3pbnp1/7P/qP1BP1P1/5P2/1PPQ4/1NKR1B1R b Kq - 0 1\"] *",
        b"game 1: bad FEN at byte 6\n# line 1 column 61 Kq | castling, as in normal chess unless the tag Variant names Chess960\n",
    ),
    (
        b"[FEN \"  4k3/8/8/8/8/8/8/4K3   b  Q - 0 1\"] *",
        b"game 1: bad FEN at byte 6\n# line 1 column 34 Q | castling, as in normal chess unless the tag Variant names Chess960\n",
    ),
    // Read as normal chess, since Variant names no variant that is known.
    (
        b"[Variant \"Chess 960\"] [FEN \"rk6/8/8/8/8/8/8/RK6 w Aa - 0 1\"] *",
        b"game 1: bad FEN at byte 28\n# line 1 column 51 Aa | castling, as in normal chess unless the tag Variant names Chess960\n",
    ),
    (
        b"[FEN \"4k3/8/8/8/8/8/8/4K3 w - e4 0 1\"] *",
        b"game 1: bad FEN at byte 6\n# line 1 column 31 e4 | en passant\n",
    ),
    (
        b"[Event \"a\"]\r\n[Site \"b\"]\r\n[FEN \"4k3/8/8/8/8/8/8/4K3 w - e6 0 1\"] *",
        b"game 1: bad FEN at byte 31\n# line 3 column 31 e6 | en passant\n",
    ),
    (
        b"[FEN \"4k3/8/8/8/8/8/8/4K3 w - - x 1\"] *",
        b"game 1: bad FEN at byte 6\n# line 1 column 33 x | counters\n",
    ),
    (
        b"[FEN \"4k3/8/8/8/8/8/8/4K3 w - - -1 y\"] *",
        b"game 1: bad FEN at byte 6\n# line 1 column 33 -1 | counters\n",
    ),
    (
        b"[FEN \"4k3/8/8/8/8/8/8/4K3 w - - 0 1000000\"] *",
        b"game 1: bad FEN at byte 6\n# line 1 column 35 1000000 | counters\n",
    ),
    (
        b"[FEN \"4k3/8/8/8/8/8/8/4K3 w - - 0 \xc2\xbd \"] *",
        b"game 1: bad FEN at byte 6\n# line 1 column 35 ?? | counters\n",
    ),
    (
        b"[FEN \"4k3/8/8/8/8/8/8/8 w - - 0 1\"] *",
        b"game 1: bad FEN at byte 6\n# line 1 column 7 4k3/8/8/8/8/8/8/8 | kings\n",
    ),
    (
        b"[FEN \"PNBRQPNB/PNBRQPNB/PNBRQPNB/PNBRQPNB/PNBRQPNB/PNBRQPNB/PNBRQPNB/PNBRQPNB w - -\"] *",
        b"game 1: bad FEN at byte 6\n# line 1 column 7 PNBRQPNB/PNBRQPNB/PNBRQPNB/PNBRQPNB/PNBRQPNB/PNBRQPNB/PNBRQPNB/PNBRQPNB | kings\n",
    ),
    (
        b"[FEN \"P3k3/8/8/8/8/8/8/4K3 w - - 0 1\"] *",
        b"game 1: bad FEN at byte 6\n# line 1 column 7 P3k3/8/8/8/8/8/8/4K3 | pawns\n",
    ),
    (
        b"[FEN \"4k3/8/8/8/8/N7/NNNNNNNN/NNNNKNNN w - - 0 1\"] *",
        b"game 1: bad FEN at byte 6\n# line 1 column 7 4k3/8/8/8/8/N7/NNNNNNNN/NNNNKNNN | men\n",
    ),
    (
        b"[FEN \"4k3/8/8/8/8/8/8/4R1K1 w - - 0 1\"] *",
        b"game 1: bad FEN at byte 6\n# line 1 column 7 4k3/8/8/8/8/8/8/4R1K1 | check\n",
    ),
    (
        b"[FEN \"111111111111111111111111111111111111111111111111111111111111111111111111111111111 w - - 0 1\"] *",
        b"game 1: bad FEN at byte 6\n# line 1 column 7 11111111111111111111111111111111111111111111111111111111111111111111111111111111 | placement\n",
    ),
];

// Asserts that each text has a fault, which these lines explain.
fn check_explained(rt: &impl Abort, host: &HostRuntime, rows: &[(&'static [u8], &[u8])]) {
    for (text, lines) in rows {
        let given = Given {
            text,
            cut: 7,
            fails_at: 0,
        };
        let wanted = Ok(Verified::FaultReported);
        check(rt, host, false, EXPLAINED, given, wanted, lines);
    }
}

// The explanation shows the field that is at fault, and its place.
#[test]
fn fens_are_explained(rt: HostRuntime) {
    check_explained(&rt, &rt, &FENS);
}

// Texts with a bad tag, and what is written of them.
const TAGS: [(&[u8], &[u8]); 18] = [
    (
        b"[",
        b"game 1: bad tag at byte 0\n# line 1 column 1 [ | no name\n",
    ),
    (
        b"[\"x\"]",
        b"game 1: bad tag at byte 0\n# line 1 column 1 [\"x\"] | no name\n",
    ),
    (
        b"[%clk 0:01:00]",
        b"game 1: bad tag at byte 0\n# line 1 column 1 [%clk | no name\n",
    ),
    (
        b"[\n%\n",
        b"game 1: bad tag at byte 0\n# line 1 column 1 [ | no name\n",
    ),
    (
        b"[Event]",
        b"game 1: bad tag at byte 0\n# line 1 column 1 [Event] | no value\n",
    ),
    (
        b"[Event x]",
        b"game 1: bad tag at byte 0\n# line 1 column 1 [Event | no value\n",
    ),
    (
        b"[Event 'x']",
        b"game 1: bad tag at byte 0\n# line 1 column 1 [Event | no value\n",
    ),
    (
        b"[Event\n%\"x\"]",
        b"game 1: bad tag at byte 0\n# line 1 column 1 [Event | no value\n",
    ),
    (
        b"[Event %\"x\"]",
        b"game 1: bad tag at byte 0\n# line 1 column 1 [Event | no value\n",
    ),
    (
        b"[Event \"x]\n\"] *",
        b"game 1: bad tag at byte 0\n# line 1 column 1 [Event | string not closed\n",
    ),
    (
        b"[Event \"x",
        b"game 1: bad tag at byte 0\n# line 1 column 1 [Event | string not closed\n",
    ),
    (
        b"[Event \"x\\\"] *",
        b"game 1: bad tag at byte 0\n# line 1 column 1 [Event | string not closed\n",
    ),
    (
        b"[Event \"x\\\n\"]",
        b"game 1: bad tag at byte 0\n# line 1 column 1 [Event | string not closed\n",
    ),
    (
        b"[\n%]\nEvent \"",
        b"game 1: bad tag at byte 0\n# line 1 column 1 [ | string not closed\n",
    ),
    (
        b"[White \"\"Socrates Expert\"\"]",
        b"game 1: bad tag at byte 0\n# line 1 column 1 [White | no bracket after the value\n",
    ),
    (
        b"[Event \"x\"",
        b"game 1: bad tag at byte 0\n# line 1 column 1 [Event | no bracket after the value\n",
    ),
    (
        b"[ Event\t\"x\\\\\"\n% ]\n 1. e4 *",
        b"game 1: bad tag at byte 0\n# line 1 column 1 [ | no bracket after the value\n",
    ),
    (
        b"[Event \"x\" \"y\"]",
        b"game 1: bad tag at byte 0\n# line 1 column 1 [Event | no bracket after the value\n",
    ),
];

// The reason is the first part of the tag that is missing.
#[test]
fn tags_are_explained(rt: HostRuntime) {
    check_explained(&rt, &rt, &TAGS);
}

// Texts with a bad token, and what is written of them.
const TOKENS: [(&[u8], &[u8]); 15] = [
    (
        b"1. e4 & *",
        b"game 1: bad token at byte 6\n# line 1 column 7 & | rnbqkbnr/pppppppp/8/8/4P3/8/PPPP1PPP/RNBQKBNR b KQkq e3 0 1 | begins no token\n",
    ),
    (
        b"]",
        b"game 1: bad token at byte 0\n# line 1 column 1 ] | rnbqkbnr/pppppppp/8/8/8/8/PPPPPPPP/RNBQKBNR w KQkq - 0 1 | begins no token\n",
    ),
    (
        b"} e4 *",
        b"game 1: bad token at byte 0\n# line 1 column 1 } | rnbqkbnr/pppppppp/8/8/8/8/PPPPPPPP/RNBQKBNR w KQkq - 0 1 | begins no token\n",
    ),
    (
        b"1. e4 1... )\n*",
        b"game 1: bad token at byte 11\n# line 1 column 12 ) | rnbqkbnr/pppppppp/8/8/4P3/8/PPPP1PPP/RNBQKBNR b KQkq e3 0 1 | begins no token\n",
    ),
    (
        b"\xe2\x99\x98f3 *",
        b"game 1: bad token at byte 0\n# line 1 column 1 ???f3 | rnbqkbnr/pppppppp/8/8/8/8/PPPPPPPP/RNBQKBNR w KQkq - 0 1 | begins no token\n",
    ),
    (
        b"1. e4\n1... --\n2. d4 *",
        b"game 1: bad token at byte 11\n# line 2 column 6 -- | rnbqkbnr/pppppppp/8/8/4P3/8/PPPP1PPP/RNBQKBNR b KQkq e3 0 1 | a null move, which chess does not have\n",
    ),
    (
        b"1. e4 Z0 *",
        b"game 1: bad token at byte 6\n# line 1 column 7 Z0 | rnbqkbnr/pppppppp/8/8/4P3/8/PPPP1PPP/RNBQKBNR b KQkq e3 0 1 | a null move, which chess does not have\n",
    ),
    (
        b"1. Sf3 *",
        b"game 1: bad token at byte 3\n# line 1 column 4 Sf3 | rnbqkbnr/pppppppp/8/8/8/8/PPPPPPPP/RNBQKBNR w KQkq - 0 1 | not a move\n",
    ),
    (
        b"1. e2-e4 *",
        b"game 1: bad token at byte 3\n# line 1 column 4 e2-e4 | rnbqkbnr/pppppppp/8/8/8/8/PPPPPPPP/RNBQKBNR w KQkq - 0 1 | not a move\n",
    ),
    (
        b"1. e9 *",
        b"game 1: bad token at byte 3\n# line 1 column 4 e9 | rnbqkbnr/pppppppp/8/8/8/8/PPPPPPPP/RNBQKBNR w KQkq - 0 1 | not a move\n",
    ),
    (
        b"+ *",
        b"game 1: bad token at byte 0\n# line 1 column 1 + | rnbqkbnr/pppppppp/8/8/8/8/PPPPPPPP/RNBQKBNR w KQkq - 0 1 | not a move\n",
    ),
    // Results as they are written elsewhere.
    (
        b"1. e4 1/2",
        b"game 1: bad token at byte 6\n# line 1 column 7 1/2 | rnbqkbnr/pppppppp/8/8/4P3/8/PPPP1PPP/RNBQKBNR b KQkq e3 0 1 | a draw is written 1/2-1/2\n",
    ),
    (
        b"1. e4 \xc2\xbd-\xc2\xbd",
        b"game 1: bad token at byte 6\n# line 1 column 7 ??-?? | rnbqkbnr/pppppppp/8/8/4P3/8/PPPP1PPP/RNBQKBNR b KQkq e3 0 1 | a draw is written 1/2-1/2\n",
    ),
    (
        b"1. e4 1\xe2\x80\x930",
        b"game 1: bad token at byte 7\n# line 1 column 8 ???0 | rnbqkbnr/pppppppp/8/8/4P3/8/PPPP1PPP/RNBQKBNR b KQkq e3 0 1 | an en dash, where results have a hyphen\n",
    ),
    (
        b"1. e4 0-0",
        b"game 1: illegal move at byte 6\n# line 1 column 7 0-0 | rnbqkbnr/pppppppp/8/8/4P3/8/PPPP1PPP/RNBQKBNR b KQkq e3 0 1 | castling, and no result of PGN\n",
    ),
];

// The reason says why that is no token, or no move.
#[test]
fn tokens_are_explained(rt: HostRuntime) {
    check_explained(&rt, &rt, &TOKENS);
}

// The second read fails. Of a text nothing is written; of a collection the fault before the second piece is explained.
#[test]
fn failed_reads_leave_the_explanations_that_are_known(rt: HostRuntime) {
    let given = Given {
        text: b"1. e4 e4\n[Site \"a\"]\n[Event \"b\"]\n1. d4 *",
        cut: 17,
        fails_at: 2,
    };
    let failed = Err(VerifyFault::ReadFailed);
    check(&rt, &rt, false, EXPLAINED, given, failed, b"");
    let lines =
        b"game 1: illegal move at byte 6\n# line 1 column 7 e4 | rnbqkbnr/pppppppp/8/8/4P3/8/PPPP1PPP/RNBQKBNR b KQkq e3 0 1 | bytes 6 to 9 not read\n";
    check(&rt, &rt, true, EXPLAINED, given, failed, lines);
}

// Tags in any order, comments and variations, and a game without tags, none of them with a fault.
const SOUND: &[u8] =
    b"[Site \"s\"]\n[Event \"a\"]\n1. e4 {x} *\n\n% x\n[Event \"b\"]\n; y\n\n[Round \"1\"]\n1. d4 d5 (1... e5) 1-0\n\n1. c4 *\n";

// A text without a fault, in which no game has two Event tags and no comment or variation a tag line, has the same
// games as a whole and piece by piece.
#[test]
fn texts_without_a_fault_have_the_same_games(rt: HostRuntime) {
    check_cuts(
        &rt,
        &rt,
        false,
        ALL,
        SOUND,
        Verified::EachGame,
        b"game 1: 1 half-moves, *\ngame 2: 2 half-moves, 1-0\ngame 3: 1 half-moves, *\n",
    );
    check_cuts(
        &rt,
        &rt,
        true,
        ALL,
        SOUND,
        Verified::EachGame,
        b"game 1: 1 half-moves, *\ngame 2: 2 half-moves, 1-0\ngame 3: 1 half-moves, *\ngames 3 half-moves 4 faults 0\n",
    );
}

// The second piece begins with a byte order mark. As a piece's front it is passed over, but in the middle of a text it
// is a bad token.
const MARKED: &[u8] = b"[Event \"a\"]\n1. e4 *\n\xEF\xBB\xBF[Event \"b\"]\n1. d4 *\n";

// So the law `a_text_without_faults_is_reported_alike` needs its premise on such marks.
#[test]
fn a_mark_before_a_later_piece_is_a_fault_of_the_text(rt: HostRuntime) {
    check_cuts(
        &rt,
        &rt,
        true,
        ALL,
        MARKED,
        Verified::EachGame,
        b"game 1: 1 half-moves, *\ngame 2: 1 half-moves, *\ngames 2 half-moves 2 faults 0\n",
    );
    check_cuts(
        &rt,
        &rt,
        false,
        ALL,
        MARKED,
        Verified::FaultReported,
        b"game 1: 1 half-moves, *\ngame 2: bad token at byte 20\n",
    );
}

// A piece that ends with a carriage return ends a comment, which goes on in the text up to a line feed. So the law
// needs its premise on such pieces too.
#[test]
fn a_comment_goes_on_after_a_piece_that_ends_with_a_return(rt: HostRuntime) {
    let text = b"1. e4 * ; x\r[Event \"b\"]\r1. d4 *\n";
    check_cuts(
        &rt,
        &rt,
        true,
        ALL,
        text,
        Verified::EachGame,
        b"game 1: 1 half-moves, *\ngame 2: 1 half-moves, *\ngames 2 half-moves 2 faults 0\n",
    );
    check_cuts(
        &rt,
        &rt,
        false,
        ALL,
        text,
        Verified::EachGame,
        b"game 1: 1 half-moves, *\n",
    );
}

// The law has no converse: a game with two tags Event has no fault, but it is cut between them.
#[test]
fn a_game_that_is_cut_between_its_tags_has_a_fault(rt: HostRuntime) {
    let text = b"[Event \"a\"]\n[Event \"b\"]\n1. e4 *\n";
    check_cuts(
        &rt,
        &rt,
        false,
        ALL,
        text,
        Verified::EachGame,
        b"game 1: 1 half-moves, *\n",
    );
    check_cuts(
        &rt,
        &rt,
        true,
        ALL,
        text,
        Verified::FaultReported,
        b"game 1: no result at byte 12\ngame 2: 1 half-moves, *\ngames 1 half-moves 1 faults 1\n",
    );
}

// Collections, and what is written of them: after a fault reading goes on where its game ends.
const READ_ON: [(&[u8], &[u8]); 11] = [
    // Tags and moves on one line, as in pgn-extract's test-nobadresults.pgn.
    (
        b"[Result \"1-0\"] 1. e4 1-0\n[Result \"0-1\"] 1. e4 Ke7 0-1\n[Result \"1-0\"] 1. e4 Qa5 1-0\n",
        b"game 1: 1 half-moves, 1-0, bytes 0 to 24\ngame 2: illegal move at byte 46, bytes 25 to 53\ngame 3: illegal move at byte 75, bytes 54 to 82\ngames 1 half-moves 1 faults 2\n",
    ),
    // Games without tags, one a line.
    (
        b"1. e4 Ke7 1-0\n1. e4 e5 1-0\n1. d4 *\n",
        b"game 1: illegal move at byte 6, bytes 0 to 13\ngame 2: 2 half-moves, 1-0, bytes 14 to 26\ngame 3: 1 half-moves, *, bytes 27 to 34\ngames 2 half-moves 3 faults 1\n",
    ),
    // On one line, after a termination marker.
    (
        b"1. Ke7 1/2-1/2 [White \"x\"] 1. e4 1-0",
        b"game 1: illegal move at byte 3, bytes 0 to 14\ngame 2: 1 half-moves, 1-0, bytes 15 to 36\ngames 1 half-moves 1 faults 1\n",
    ),
    // Without one, before the next tag.
    (
        b"[White \"a\"] 1. e4 Ke7\n[White \"b\"] 1. e4 *\n",
        b"game 1: illegal move at byte 18, bytes 0 to 22\ngame 2: 1 half-moves, *, bytes 22 to 41\ngames 1 half-moves 1 faults 1\n",
    ),
    (
        b"[White \"a\"] 1. e4\n[White \"b\"] 1. e4 *\n",
        b"game 1: no result at byte 18, bytes 0 to 18\ngame 2: 1 half-moves, *, bytes 18 to 37\ngames 1 half-moves 1 faults 1\n",
    ),
    // A comment that isn't closed hides no game that begins on a line of its own.
    (
        b"[White \"a\"] 1. e4 {\n[White \"b\"] 1. e4 *\n",
        b"game 1: unclosed comment at byte 18, bytes 0 to 20\ngame 2: 1 half-moves, *, bytes 20 to 39\ngames 1 half-moves 1 faults 1\n",
    ),
    // Markers in comments and variations don't count, nor do those among other words.
    (
        b"1. Ke7 {1-0} (1. e4 1-0) 1-0x 11-0 0-1 *",
        b"game 1: illegal move at byte 3, bytes 0 to 38\ngame 2: 0 half-moves, *, bytes 39 to 40\ngames 1 half-moves 0 faults 1\n",
    ),
    // A FEN that denotes no position, with more tags after it.
    (
        b"[FEN \"x\"] [White \"a\"] 1. e4 * 1. e4 *",
        b"game 1: bad FEN at byte 6, bytes 0 to 29\ngame 2: 1 half-moves, *, bytes 30 to 37\ngames 1 half-moves 1 faults 1\n",
    ),
    // Carriage returns alone end the lines.
    (
        b"[Event \"a\"]\r1. Ke7 1-0\r\r[Event \"b\"]\r1. e4 1-0\r",
        b"game 1: illegal move at byte 15, bytes 0 to 22\ngame 2: 1 half-moves, 1-0, bytes 24 to 45\ngames 1 half-moves 1 faults 1\n",
    ),
    // A byte that begins no token: no marker is found after it.
    (
        b"1. e4 & 1-0\n1. e4 1-0\n",
        b"game 1: bad token at byte 6, bytes 0 to 22\ngames 0 half-moves 0 faults 1\n",
    ),
    (
        b"1. e4 Ke7 {1-0\n1. e4 1-0\n",
        b"game 1: illegal move at byte 6, bytes 0 to 25\ngames 0 half-moves 0 faults 1\n",
    ),
];

// Verifies each row, with spans.
#[test]
fn games_after_a_fault_are_read(rt: HostRuntime) {
    for (text, lines) in &READ_ON {
        check_cuts(&rt, &rt, true, SPANS, text, Verified::FaultReported, lines);
    }
}

// Collections with a fault, and what is written of them. Bytes are named as not read only where no end of the game is
// found.
const UNREAD: [(&[u8], &[u8]); 4] = [
    // Lines and columns are counted from one fault to the next.
    (
        b"1. e4 Ke7 1-0\n1. e4\n Qa5 1-0 1. Ke7 *\n",
        b"game 1: illegal move at byte 6\n# line 1 column 7 Ke7 | rnbqkbnr/pppppppp/8/8/4P3/8/PPPP1PPP/RNBQKBNR b KQkq e3 0 1\ngame 2: illegal move at byte 21\n# line 3 column 2 Qa5 | rnbqkbnr/pppppppp/8/8/4P3/8/PPPP1PPP/RNBQKBNR b KQkq e3 0 1\ngame 3: illegal move at byte 32\n# line 3 column 13 Ke7 | rnbqkbnr/pppppppp/8/8/8/8/PPPPPPPP/RNBQKBNR w KQkq - 0 1\ngames 0 half-moves 0 faults 3\n",
    ),
    (
        b"1. e4 & 1-0\n1. e4 1-0\n",
        b"game 1: bad token at byte 6\n# line 1 column 7 & | rnbqkbnr/pppppppp/8/8/4P3/8/PPPP1PPP/RNBQKBNR b KQkq e3 0 1 | begins no token | bytes 6 to 22 not read\ngames 0 half-moves 0 faults 1\n",
    ),
    (
        b"[Event \"a\"]\n1. e4 e4 *\n[Event \"b\"]\n{x\n",
        b"game 1: illegal move at byte 18\n# line 2 column 7 e4 | rnbqkbnr/pppppppp/8/8/4P3/8/PPPP1PPP/RNBQKBNR b KQkq e3 0 1\ngame 2: unclosed comment at byte 35\n# line 4 column 1 {x | rnbqkbnr/pppppppp/8/8/8/8/PPPPPPPP/RNBQKBNR w KQkq - 0 1 | bytes 35 to 38 not read\ngames 0 half-moves 0 faults 2\n",
    ),
    (
        b"[Event \"a\"]\n1. e4\n",
        b"game 1: no result at byte 18\n# line 1 column 1 [Event | rnbqkbnr/pppppppp/8/8/4P3/8/PPPP1PPP/RNBQKBNR b KQkq e3 0 1\ngames 0 half-moves 0 faults 1\n",
    ),
];

// Verifies each row.
#[test]
fn what_is_not_read_is_said(rt: HostRuntime) {
    for (text, lines) in &UNREAD {
        check_cuts(
            &rt,
            &rt,
            true,
            EXPLAINED,
            text,
            Verified::FaultReported,
            lines,
        );
    }
}
