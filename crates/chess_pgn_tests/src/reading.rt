//! Reading PGN: the answers to whole games and to texts with a fault, what is left of the game then, tags, comments of
//! any length, and where games end.

use crate::equal::{is_equal, is_equal_at};
use chess_base::{FenFault, Position};
use chess_bits::{AttackTables, Bits};
use chess_fen::write_fen;
use chess_game::{Game, Outcome, Verdict};
use chess_moves::{Board, Plain};
use chess_pgn::{
    PgnEnd, PgnFault, PgnFaultKind, PgnTag, ResultTag, Termination, game_end, game_tags, read_pgn,
    result_tag, tag_text,
};
use std::alloc::Global;
use std::process::Abort;
use std::test::Fail;

// The answer that reading is to have: the game's outcome and where it ends, also with how it ended by its tag
// Termination; a fault and its offset; or that there is no game.
#[derive(Clone, Copy)]
enum Wanted {
    Ended(Outcome, usize),
    EndedAs(Outcome, Termination, usize),
    Fault(PgnFaultKind, usize),
    NoGame,
}

impl Wanted {
    // The same as a value of the reader's type.
    fn answer(self) -> Result<Option<PgnEnd>, PgnFault> {
        match self {
            Wanted::Ended(outcome, offset) => Ok(Some(PgnEnd {
                outcome,
                termination: None,
                offset,
            })),
            Wanted::EndedAs(outcome, termination, offset) => Ok(Some(PgnEnd {
                outcome,
                termination: Some(termination),
                offset,
            })),
            Wanted::Fault(kind, offset) => Err(PgnFault { kind, offset }),
            Wanted::NoGame => Ok(None),
        }
    }
}

// A text, the answer, how many half-moves the game has then, and the outcome that is declared.
struct Row {
    text: &'static [u8],
    wanted: Wanted,
    ply: usize,
    declared: Option<Outcome>,
}

// Texts of each form and with each fault.
const ROWS: [Row; 77] = [
    // The two rows of the command `verify`.
    Row {
        text: b"1.e4 {a} e5 (1...c5 2.Nf3) 2.Nf3 $1 *",
        wanted: Wanted::Ended(Outcome::Unfinished, 37),
        ply: 3,
        declared: None,
    },
    Row {
        text: b"1. e4 e4 *",
        wanted: Wanted::Fault(PgnFaultKind::IllegalMove, 6),
        ply: 1,
        declared: None,
    },
    // Each fault, with its offset.
    Row {
        text: b"1. e4",
        wanted: Wanted::Fault(PgnFaultKind::NoResult, 5),
        ply: 1,
        declared: None,
    },
    Row {
        text: b"1. e4 {x",
        wanted: Wanted::Fault(PgnFaultKind::UnclosedComment, 6),
        ply: 1,
        declared: None,
    },
    Row {
        text: b"1. e4 (e5 *",
        wanted: Wanted::Fault(PgnFaultKind::UnclosedVariation, 6),
        ply: 1,
        declared: None,
    },
    Row {
        text: b"1. e4 & *",
        wanted: Wanted::Fault(PgnFaultKind::BadToken, 6),
        ply: 1,
        declared: None,
    },
    Row {
        text: b"[Event \"x\" 1. e4 *",
        wanted: Wanted::Fault(PgnFaultKind::BadTag, 0),
        ply: 0,
        declared: None,
    },
    Row {
        text: b"[FEN \"8/8/8/8/8/8/8/8 w - - 0 1\"] *",
        wanted: Wanted::Fault(PgnFaultKind::BadFen(FenFault::Kings), 6),
        ply: 0,
        declared: None,
    },
    Row {
        text: b"[FEN \"4k3/8/8/8/8/5N2/8/1N2K3 w - - 0 1\"] Nd2 *",
        wanted: Wanted::Fault(PgnFaultKind::AmbiguousMove, 42),
        ply: 0,
        declared: None,
    },
    Row {
        text: b"1. f3 e5 2. g4 Qh4 a3 *",
        wanted: Wanted::Fault(PgnFaultKind::AfterEnd, 19),
        ply: 4,
        declared: None,
    },
    // The offset of a bad FEN is that after the quote, whatever is around it.
    Row {
        text: b"\n[ FEN \n\"x\"  ]*",
        wanted: Wanted::Fault(PgnFaultKind::BadFen(FenFault::Fields), 9),
        ply: 0,
        declared: None,
    },
    // A comment in a variation is the fault.
    Row {
        text: b"e4 (e5 {a) *",
        wanted: Wanted::Fault(PgnFaultKind::UnclosedComment, 7),
        ply: 1,
        declared: None,
    },
    // After the end any move is one too many, but a word that is no move is reported as such.
    Row {
        text: b"1. f3 e5 2. g4 Qh4# Nd2 *",
        wanted: Wanted::Fault(PgnFaultKind::AfterEnd, 20),
        ply: 4,
        declared: None,
    },
    Row {
        text: b"1. f3 e5 2. g4 Qh4# Qa9 *",
        wanted: Wanted::Fault(PgnFaultKind::BadToken, 20),
        ply: 4,
        declared: None,
    },
    // Words that are no move.
    Row {
        text: b"1. e4 1-0!",
        wanted: Wanted::Fault(PgnFaultKind::BadToken, 6),
        ply: 1,
        declared: None,
    },
    Row {
        text: b"1. e4 e5-e6 *",
        wanted: Wanted::Fault(PgnFaultKind::BadToken, 6),
        ply: 1,
        declared: None,
    },
    Row {
        text: b"1. e4 -- *",
        wanted: Wanted::Fault(PgnFaultKind::BadToken, 6),
        ply: 1,
        declared: None,
    },
    // Terminations.
    Row {
        text: b"1. e4 1-0",
        wanted: Wanted::Ended(Outcome::WhiteWins, 9),
        ply: 1,
        declared: Some(Outcome::WhiteWins),
    },
    Row {
        text: b"1. e4 0-1 1. d4",
        wanted: Wanted::Ended(Outcome::BlackWins, 9),
        ply: 1,
        declared: Some(Outcome::BlackWins),
    },
    Row {
        text: b"1/2-1/2",
        wanted: Wanted::Ended(Outcome::Draw, 7),
        ply: 0,
        declared: Some(Outcome::Draw),
    },
    Row {
        text: b"1.e4*",
        wanted: Wanted::Ended(Outcome::Unfinished, 5),
        ply: 1,
        declared: None,
    },
    // Where the board has a verdict, it takes precedence.
    Row {
        text: b"1. f3 e5 2. g4 Qh4# 1-0",
        wanted: Wanted::Ended(Outcome::WhiteWins, 23),
        ply: 4,
        declared: None,
    },
    Row {
        text: b"1. f3 e5 2. g4 Qh4# 0-1",
        wanted: Wanted::Ended(Outcome::BlackWins, 23),
        ply: 4,
        declared: None,
    },
    // A position occurs for the fifth time.
    Row {
        text: b"Nf3 Nf6 Ng1 Ng8 Nf3 Nf6 Ng1 Ng8 Nf3 Nf6 Ng1 Ng8 Nf3 Nf6 Ng1 Ng8 *",
        wanted: Wanted::Ended(Outcome::Unfinished, 65),
        ply: 16,
        declared: None,
    },
    Row {
        text: b"Nf3 Nf6 Ng1 Ng8 Nf3 Nf6 Ng1 Ng8 Nf3 Nf6 Ng1 Ng8 Nf3 Nf6 Ng1 Ng8 e4 *",
        wanted: Wanted::Fault(PgnFaultKind::AfterEnd, 64),
        ply: 16,
        declared: None,
    },
    // No tag, number, move or termination.
    Row {
        text: b"",
        wanted: Wanted::NoGame,
        ply: 0,
        declared: None,
    },
    Row {
        text: b" {1. e4} ; d4\n(c4 *) $1 !? ..\n% x\n",
        wanted: Wanted::NoGame,
        ply: 0,
        declared: None,
    },
    Row {
        text: b"[Event \"x\"]\n",
        wanted: Wanted::Fault(PgnFaultKind::NoResult, 12),
        ply: 0,
        declared: None,
    },
    Row {
        text: b"[FEN \"4k3/8/8/8/8/8/4P3/4K3 w - - 0 1\"]",
        wanted: Wanted::Fault(PgnFaultKind::NoResult, 39),
        ply: 0,
        declared: None,
    },
    Row {
        text: b"1",
        wanted: Wanted::Fault(PgnFaultKind::NoResult, 1),
        ply: 0,
        declared: None,
    },
    // A bracket after a number or move, whether it begins a tag or not.
    Row {
        text: b"e4 [White \"x\"] *",
        wanted: Wanted::Fault(PgnFaultKind::NoResult, 3),
        ply: 1,
        declared: None,
    },
    Row {
        text: b"1. [White \"x\"] e4 *",
        wanted: Wanted::Fault(PgnFaultKind::NoResult, 3),
        ply: 0,
        declared: None,
    },
    Row {
        text: b"1. e4 [x",
        wanted: Wanted::Fault(PgnFaultKind::NoResult, 6),
        ply: 1,
        declared: None,
    },
    Row {
        text: b"{a} !! $3 [White \"x\"] e4 *",
        wanted: Wanted::Ended(Outcome::Unfinished, 26),
        ply: 1,
        declared: None,
    },
    // Only the tag FEN is used.
    Row {
        text: b"[Result \"0-1\"] [SetUp \"1\"] 1. e4 1-0",
        wanted: Wanted::Ended(Outcome::WhiteWins, 36),
        ply: 1,
        declared: Some(Outcome::WhiteWins),
    },
    Row {
        text: b"[Fen \"x\"] [FEN_ \"x\"] 1. e4 *",
        wanted: Wanted::Ended(Outcome::Unfinished, 28),
        ply: 1,
        declared: None,
    },
    Row {
        text: b"[FEN \"4k3/8/8/8/8/8/4p3/K7 b - - 0 1\"] 1... e1=Q+ *",
        wanted: Wanted::Ended(Outcome::Unfinished, 51),
        ply: 1,
        declared: None,
    },
    // The last FEN counts; here e4 is no move in the first.
    Row {
        text: b"[FEN \"4k3/8/8/8/8/8/4p3/K7 b - - 0 1\"] [FEN \"4k3/8/8/8/8/8/4P3/4K3 w - - 0 1\"] e4 *",
        wanted: Wanted::Ended(Outcome::Unfinished, 83),
        ply: 1,
        declared: None,
    },
    // A start without a move left: Black is stalemated.
    Row {
        text: b"[FEN \"7k/5Q2/6K1/8/8/8/8/8 b - - 0 1\"] 0-1",
        wanted: Wanted::Ended(Outcome::BlackWins, 42),
        ply: 0,
        declared: None,
    },
    // A byte order mark at offset 0 alone.
    Row {
        text: b"\xEF\xBB\xBF1. e4 *",
        wanted: Wanted::Ended(Outcome::Unfinished, 10),
        ply: 1,
        declared: None,
    },
    Row {
        text: b" \xEF\xBB\xBF1. e4 *",
        wanted: Wanted::Fault(PgnFaultKind::BadToken, 1),
        ply: 0,
        declared: None,
    },
    // `%` lines, and `;` comments.
    Row {
        text: b"% 1. d4\n1. e4\n%e5\n*",
        wanted: Wanted::Ended(Outcome::Unfinished, 19),
        ply: 1,
        declared: None,
    },
    Row {
        text: b"1. e4 %",
        wanted: Wanted::Fault(PgnFaultKind::BadToken, 6),
        ply: 1,
        declared: None,
    },
    Row {
        text: b"1. e4 ; e5 Nf3 * {\n e5 *",
        wanted: Wanted::Ended(Outcome::Unfinished, 24),
        ply: 2,
        declared: None,
    },
    // Glyphs and marks.
    Row {
        text: b"1. e4! $1 $ $12 e5?! !? *",
        wanted: Wanted::Ended(Outcome::Unfinished, 25),
        ply: 2,
        declared: None,
    },
    // Variations in one another, with comments that hold brackets.
    Row {
        text: b"1. e4 (1. d4 (1. c4 {)} c5 ; )\n) d5) e5 *",
        wanted: Wanted::Ended(Outcome::Unfinished, 41),
        ply: 2,
        declared: None,
    },
    Row {
        text: b"1. e4 (1. d4 (1. c4) *",
        wanted: Wanted::Fault(PgnFaultKind::UnclosedVariation, 6),
        ply: 1,
        declared: None,
    },
    Row {
        text: b"1. e4 ) *",
        wanted: Wanted::Fault(PgnFaultKind::BadToken, 6),
        ply: 1,
        declared: None,
    },
    // The value of a number isn't looked at.
    Row {
        text: b"99. e4 0 007... e5 *",
        wanted: Wanted::Ended(Outcome::Unfinished, 20),
        ply: 2,
        declared: None,
    },
    // Castling with zeros, which the pawn on b7 stops; promotion without `=`, coordinates, more than SAN asks for.
    Row {
        text: b"[FEN \"r3k2r/1P6/8/8/8/8/8/R3K2R w KQkq - 0 1\"] 0-0 0-0-0 *",
        wanted: Wanted::Fault(PgnFaultKind::IllegalMove, 51),
        ply: 1,
        declared: None,
    },
    Row {
        text: b"[FEN \"r3k2r/1P6/8/8/8/8/8/R3K2R w KQkq - 0 1\"] 0-0 Ke7 b7b8q Ra8xb8 *",
        wanted: Wanted::Ended(Outcome::Unfinished, 69),
        ply: 4,
        declared: None,
    },
    // Where a move could be read as a number or an outcome, it isn't one.
    Row {
        text: b"1.e4 e5 2.0-0 *",
        wanted: Wanted::Fault(PgnFaultKind::IllegalMove, 10),
        ply: 2,
        declared: None,
    },
    Row {
        text: b"1.e4 e5 2.0-1",
        wanted: Wanted::Ended(Outcome::BlackWins, 13),
        ply: 2,
        declared: Some(Outcome::BlackWins),
    },
    // A variation that is not closed, with others in it.
    Row {
        text: b"(a (b {c} d)",
        wanted: Wanted::Fault(PgnFaultKind::UnclosedVariation, 0),
        ply: 0,
        declared: None,
    },
    Row {
        text: b"(a {)} (b) ; )\n c) e4 *",
        wanted: Wanted::Ended(Outcome::Unfinished, 23),
        ply: 1,
        declared: None,
    },
    Row {
        text: b"(a\n%)\nb) e4 *",
        wanted: Wanted::Ended(Outcome::Unfinished, 13),
        ply: 1,
        declared: None,
    },
    Row {
        text: b"(a {b) (c {d",
        wanted: Wanted::Fault(PgnFaultKind::UnclosedComment, 3),
        ply: 0,
        declared: None,
    },
    // A line that begins with `%`: at the text's first byte, or after byte 10.
    Row {
        text: b"% x y\ne4\n%z\ne5 % e6",
        wanted: Wanted::Fault(PgnFaultKind::BadToken, 15),
        ply: 2,
        declared: None,
    },
    Row {
        text: b"%",
        wanted: Wanted::NoGame,
        ply: 0,
        declared: None,
    },
    Row {
        text: b"\r%x",
        wanted: Wanted::Fault(PgnFaultKind::BadToken, 1),
        ply: 0,
        declared: None,
    },
    // Not in a comment in braces, and not in a comment to the line's end.
    Row {
        text: b"{\n%}\ne4",
        wanted: Wanted::Fault(PgnFaultKind::NoResult, 7),
        ply: 1,
        declared: None,
    },
    Row {
        text: b"e4 ; % x\ne5;",
        wanted: Wanted::Fault(PgnFaultKind::NoResult, 12),
        ply: 2,
        declared: None,
    },
    // A byte order mark is no line's first byte.
    Row {
        text: b"\xEF\xBB\xBF%x\ne4",
        wanted: Wanted::Fault(PgnFaultKind::BadToken, 3),
        ply: 0,
        declared: None,
    },
    Row {
        text: b"e4 \xEF\xBB\xBF",
        wanted: Wanted::Fault(PgnFaultKind::BadToken, 3),
        ply: 1,
        declared: None,
    },
    // Glyphs, a star by itself, and bytes that no token has.
    Row {
        text: b"$12e4 $ e5$",
        wanted: Wanted::Fault(PgnFaultKind::NoResult, 11),
        ply: 2,
        declared: None,
    },
    Row {
        text: b"e4*e8=Q",
        wanted: Wanted::Ended(Outcome::Unfinished, 3),
        ply: 1,
        declared: None,
    },
    Row {
        text: b"e4,",
        wanted: Wanted::Fault(PgnFaultKind::BadToken, 2),
        ply: 1,
        declared: None,
    },
    Row {
        text: b"\x00",
        wanted: Wanted::Fault(PgnFaultKind::BadToken, 0),
        ply: 0,
        declared: None,
    },
    Row {
        text: b"}",
        wanted: Wanted::Fault(PgnFaultKind::BadToken, 0),
        ply: 0,
        declared: None,
    },
    // Tags, with gaps and `%` lines between their parts; a backslash keeps a quote.
    Row {
        text: b"[ a_1\n%x]\n\"b%\" \t]e4 *",
        wanted: Wanted::Ended(Outcome::Unfinished, 21),
        ply: 1,
        declared: None,
    },
    Row {
        text: b"[A \"b\\\"c\\\\\"] *",
        wanted: Wanted::Ended(Outcome::Unfinished, 14),
        ply: 0,
        declared: None,
    },
    Row {
        text: b"[A \"b\nc\"] *",
        wanted: Wanted::Fault(PgnFaultKind::BadTag, 0),
        ply: 0,
        declared: None,
    },
    Row {
        text: b"[A \"b\\",
        wanted: Wanted::Fault(PgnFaultKind::BadTag, 0),
        ply: 0,
        declared: None,
    },
    Row {
        text: b"[ \"b\"]",
        wanted: Wanted::Fault(PgnFaultKind::BadTag, 0),
        ply: 0,
        declared: None,
    },
    // Words that are neither moves, nor numbers, nor terminations.
    Row {
        text: b"1/2",
        wanted: Wanted::Fault(PgnFaultKind::BadToken, 0),
        ply: 0,
        declared: None,
    },
    Row {
        text: b"!1",
        wanted: Wanted::Fault(PgnFaultKind::BadToken, 0),
        ply: 0,
        declared: None,
    },
    Row {
        text: b"1!",
        wanted: Wanted::Fault(PgnFaultKind::BadToken, 0),
        ply: 0,
        declared: None,
    },
];

// Reads a game from the offset `at` on. The contract of `read_pgn` stays in here, and tests compare values. Rounds of
// loops have functions of their own too, since a loop in a long body costs much to prove.
fn read<B: Board>(
    rt: &impl Abort,
    text: &[u8],
    at: usize,
    game: &mut Game<B>,
) -> Result<Option<PgnEnd>, PgnFault> {
    assert!(rt; at <= text.len());
    read_pgn(text, at, game)
}

// Reads a text from the offset `at` on, and asserts the answer and how many half-moves the game has then.
fn is_read_on<B: Board>(
    rt: &impl Abort,
    text: &[u8],
    game: &mut Game<B>,
    at: usize,
    wanted: Wanted,
    ply: usize,
) {
    is_equal_at(
        rt,
        at,
        text,
        &(read(rt, text, at, game), game.ply()),
        &(wanted.answer(), ply),
    );
}

// Reads a row's text, and asserts the answer, the number of half-moves and what is declared.
fn is_read<B: Board>(rt: &impl Abort, game: &mut Game<B>, row: &Row) {
    is_read_on(rt, row.text, game, 0, row.wanted, row.ply);
    is_equal_at(rt, 0, row.text, &declared(rt, game), &row.declared);
}

// The outcome that is declared, if any; its comment must be empty.
fn declared<B: Board>(rt: &impl Abort, game: &Game<B>) -> Option<Outcome> {
    let declared = game.declared()?;
    is_equal(rt, &declared.comment.as_bytes(), &b"".as_slice());
    Some(declared.outcome)
}

// Reads each row into the same game.
fn are_read<B: Board>(rt: &impl Abort, game: &mut Game<B>, rows: &[Row]) {
    for row in rows {
        is_read(rt, game, row);
    }
}

// Reads all rows into one game on this board.
fn rows_are_read<B: Board + Drop>(
    rt: &impl Abort,
    alloc: Global,
    board: B,
    rows: &[Row],
) -> Result<(), Fail> {
    let mut game = Game::open(alloc, board, 100)?;
    are_read(rt, &mut game, rows);
    Ok(())
}

// Reads the rows on both boards.
#[test]
fn games_are_read(rt: HostRuntime) -> Result<(), Fail> {
    rows_are_read(&rt, rt.alloc(), Plain::new(), &ROWS)?;
    let tables = AttackTables::open(rt.alloc())?;
    rows_are_read(&rt, rt.alloc(), Bits::new(&tables), &ROWS)
}

// Words one after another, and what ends their run.
const RUNS: [Row; 12] = [
    // The game is over: no move is played after mate.
    Row {
        text: b"1. f3 e5 2. g4 Qh4# 3. a3 *",
        wanted: Wanted::Fault(PgnFaultKind::AfterEnd, 23),
        ply: 4,
        declared: None,
    },
    // Two knights may go to b5; no pawn to e5.
    Row {
        text: b"1. Nf3 e5 2. Nc3 e4 3. Nd4 a6 4. Nb5 *",
        wanted: Wanted::Fault(PgnFaultKind::AmbiguousMove, 33),
        ply: 6,
        declared: None,
    },
    Row {
        text: b"1. e4 e5 2. e5 *",
        wanted: Wanted::Fault(PgnFaultKind::IllegalMove, 12),
        ply: 2,
        declared: None,
    },
    // Marks at a move and alone.
    Row {
        text: b"1. d4 d5 2. e4!? dxe4 3. Nc3 ?! Nf6 *",
        wanted: Wanted::Ended(Outcome::Unfinished, 37),
        ply: 6,
        declared: None,
    },
    // Numbers at a move, twice, and with any value; a number and a move in one word.
    Row {
        text: b"1.e4 1. 1... e5 007 2.Nf3 *",
        wanted: Wanted::Ended(Outcome::Unfinished, 27),
        ply: 3,
        declared: None,
    },
    Row {
        text: b"1. e4 e5 2.Nf3 3Nc6 *",
        wanted: Wanted::Fault(PgnFaultKind::BadToken, 15),
        ply: 3,
        declared: None,
    },
    // A tag after a move.
    Row {
        text: b"1. e4 e5 [Event \"a\"] *",
        wanted: Wanted::Fault(PgnFaultKind::NoResult, 9),
        ply: 2,
        declared: None,
    },
    // Three texts that end with a word: of four bytes, of five, of one.
    Row {
        text: b"1. e4 e5 2. Nf3 Nc6 3. Bb5 a6 4. Bxc6",
        wanted: Wanted::Fault(PgnFaultKind::NoResult, 37),
        ply: 7,
        declared: None,
    },
    Row {
        text: b"e4 e5 Nf3 Nc6 Bb5 a6 Bxc6 dxc6 O-O Bg4 h3 Bxf3 Qxf3+",
        wanted: Wanted::Fault(PgnFaultKind::NoResult, 52),
        ply: 13,
        declared: None,
    },
    Row {
        text: b"1. e4 e5 2. Nf3 Nc6 3",
        wanted: Wanted::Fault(PgnFaultKind::NoResult, 21),
        ply: 4,
        declared: None,
    },
    Row {
        text: b"1. e4 e5 2. Ng1f3 Nb8-c6 *",
        wanted: Wanted::Fault(PgnFaultKind::BadToken, 18),
        ply: 3,
        declared: None,
    },
    // Variations and `%` lines between moves.
    Row {
        text: b"1. e4 (1. d4) e5\n% e4\n2. Nf3 *",
        wanted: Wanted::Ended(Outcome::Unfinished, 30),
        ply: 3,
        declared: None,
    },
];

// Reads the rows on both boards.
#[test]
fn runs_of_words_are_read(rt: HostRuntime) -> Result<(), Fail> {
    rows_are_read(&rt, rt.alloc(), Plain::new(), &RUNS)?;
    let tables = AttackTables::open(rt.alloc())?;
    rows_are_read(&rt, rt.alloc(), Bits::new(&tables), &RUNS)
}

// Texts with tags Variant and Termination, and what is read of them.
const VARIANTS: [Row; 14] = [
    Row {
        text: b"[Variant \"Chess960\"] [FEN \"4k3/8/8/8/8/8/8/RK5R w HA - 0 1\"] 1. O-O-O *",
        wanted: Wanted::Ended(Outcome::Unfinished, 71),
        ply: 1,
        declared: None,
    },
    // The tag may come after the FEN, and the last one counts.
    Row {
        text: b"[FEN \"4k3/8/8/8/8/8/8/RK5R w HA - 0 1\"] [Variant \"x\"] [Variant \"FISCHERRANDOM\"] b1h1 *",
        wanted: Wanted::Ended(Outcome::Unfinished, 86),
        ply: 1,
        declared: None,
    },
    Row {
        text: b"[Variant \"fischerandom\"] [Variant \"x\"] [FEN \"4k3/8/8/8/8/8/8/RK5R w HA - 0 1\"] *",
        wanted: Wanted::Fault(PgnFaultKind::BadFen(FenFault::Castling), 45),
        ply: 0,
        declared: None,
    },
    // Without a FEN it is the initial position of Chess960, in which the king takes its rook to castle.
    Row {
        text: b"[Variant \"fischerandom\"] e4 e5 Nf3 Nf6 Be2 Be7 e1h1 e8g8 *",
        wanted: Wanted::Fault(PgnFaultKind::IllegalMove, 52),
        ply: 7,
        declared: None,
    },
    Row {
        text: b"[variant \"fischerandom\"] e4 e5 Nf3 Nf6 Be2 Be7 e1g1 e8h8 *",
        wanted: Wanted::Fault(PgnFaultKind::IllegalMove, 52),
        ply: 7,
        declared: None,
    },
    // Comments, marks and variations don't end the look for the tag; a number, a move and an outcome do.
    Row {
        text: b"{x} !? (e4) [Variant \"chess960\"] e4 e5 Nf3 Nf6 Be2 Be7 e1h1 *",
        wanted: Wanted::Ended(Outcome::Unfinished, 61),
        ply: 7,
        declared: None,
    },
    Row {
        text: b"1. [Variant \"chess960\"] e4 *",
        wanted: Wanted::Fault(PgnFaultKind::NoResult, 3),
        ply: 0,
        declared: None,
    },
    Row {
        text: b"e4 e5 Nf3 Nf6 Be2 Be7 e1h1 [Variant \"chess960\"] *",
        wanted: Wanted::Fault(PgnFaultKind::IllegalMove, 22),
        ply: 6,
        declared: None,
    },
    Row {
        text: b"e4 e5 Nf3 Nf6 Be2 Be7 e1g1 * [Variant \"chess960\"] *",
        wanted: Wanted::Ended(Outcome::Unfinished, 28),
        ply: 7,
        declared: None,
    },
    // How a game ended: the last tag counts, and only before the first number or move.
    Row {
        text: b"[Termination \"death\"] [Termination \"Rules Infraction\"] 0-1",
        wanted: Wanted::EndedAs(Outcome::BlackWins, Termination::RulesInfraction, 58),
        ply: 0,
        declared: Some(Outcome::BlackWins),
    },
    Row {
        text: b"[Termination \"death\"] [Termination \"normal \"] 0-1",
        wanted: Wanted::Ended(Outcome::BlackWins, 49),
        ply: 0,
        declared: Some(Outcome::BlackWins),
    },
    Row {
        text: b"[Termination \"UNTERMINATED\"] [termination \"x\"] 1-0",
        wanted: Wanted::EndedAs(Outcome::WhiteWins, Termination::Unterminated, 50),
        ply: 0,
        declared: Some(Outcome::WhiteWins),
    },
    Row {
        text: b"[Termination \"emergency\"] [FEN \"4k3/8/8/8/8/8/4P3/4K3 w - - 0 1\"] e4 *",
        wanted: Wanted::EndedAs(Outcome::Unfinished, Termination::Emergency, 70),
        ply: 1,
        declared: None,
    },
    Row {
        text: b"[Termination \"adjudication\"] e4 [Termination \"death\"] *",
        wanted: Wanted::Fault(PgnFaultKind::NoResult, 32),
        ply: 1,
        declared: None,
    },
];

// Reads the rows on both boards.
#[test]
fn variants_and_terminations_are_read(rt: HostRuntime) -> Result<(), Fail> {
    rows_are_read(&rt, rt.alloc(), Plain::new(), &VARIANTS)?;
    let tables = AttackTables::open(rt.alloc())?;
    rows_are_read(&rt, rt.alloc(), Bits::new(&tables), &VARIANTS)
}

// Asserts the outcome of a game.
fn has_outcome<B: Board>(rt: &impl Abort, game: &Game<B>, outcome: Outcome) {
    is_equal(rt, &game.outcome(), &outcome);
}

// Reads a text whose second move, at byte 6, has no room: it is too long, and the first move stays.
fn is_too_long<B: Board>(rt: &impl Abort, text: &[u8], game: &mut Game<B>) {
    is_read_on(
        rt,
        text,
        game,
        0,
        Wanted::Fault(PgnFaultKind::TooLong, 6),
        1,
    );
    has_outcome(rt, game, Outcome::Unfinished);
}

// In a game of at most one half-move a second one is too long, whether it is legal or not; one move and a termination
// are read.
fn one_move_is_read<B: Board + Drop>(rt: &impl Abort, alloc: Global, board: B) -> Result<(), Fail> {
    let mut game = Game::open(alloc, board, 1)?;
    is_too_long(rt, b"1. e4 e5 *", &mut game);
    is_too_long(rt, b"1. e4 e4 *", &mut game);
    let ended = Wanted::Ended(Outcome::WhiteWins, 9);
    is_read_on(rt, b"1. e4 1-0", &mut game, 0, ended, 1);
    has_outcome(rt, &game, Outcome::WhiteWins);
    Ok(())
}

// Does so on both boards.
#[test]
fn a_game_of_one_move_is_full(rt: HostRuntime) -> Result<(), Fail> {
    one_move_is_read(&rt, rt.alloc(), Plain::new())?;
    let tables = AttackTables::open(rt.alloc())?;
    one_move_is_read(&rt, rt.alloc(), Bits::new(&tables))
}

// Reads a text from each of these offsets on.
fn are_read_on<B: Board>(
    rt: &impl Abort,
    text: &[u8],
    game: &mut Game<B>,
    rows: &[(usize, Wanted, usize)],
) {
    for row in rows {
        is_read_on(rt, text, game, row.0, row.1, row.2);
    }
}

// A text of three games; and offsets in it, what is answered where reading begins there, and how many half-moves the
// game has then.
const THREE_GAMES: &[u8] = b"* 1. d4 1/2-1/2[White \"x\"]\ne4 0-1 {end}\n";

const PLACES: [(usize, Wanted, usize); 5] = [
    (0, Wanted::Ended(Outcome::Unfinished, 1), 0),
    (1, Wanted::Ended(Outcome::Draw, 15), 1),
    (15, Wanted::Ended(Outcome::BlackWins, 33), 1),
    (33, Wanted::NoGame, 0),
    (40, Wanted::NoGame, 0),
];

// Asserts the FEN of a position.
fn has_fen(rt: &impl Abort, position: &Position, fen: &[u8]) {
    is_equal(rt, &write_fen(position).as_slice(), &fen);
}

// Reads the three games, and finds no fourth, on this board.
fn three_games_are_read<B: Board + Drop>(
    rt: &impl Abort,
    alloc: Global,
    board: B,
) -> Result<(), Fail> {
    let mut game = Game::open(alloc, board, 100)?;
    are_read_on(rt, THREE_GAMES, &mut game, &PLACES);
    // With no game left, it is the initial position with nothing declared.
    assert!(rt; game.declared().is_none());
    let initial = b"rnbqkbnr/pppppppp/8/8/8/8/PPPPPPPP/RNBQKBNR w KQkq - 0 1";
    has_fen(rt, &game.position(), initial);
    Ok(())
}

// Does so on both boards.
#[test]
fn games_are_read_one_after_the_other(rt: HostRuntime) -> Result<(), Fail> {
    three_games_are_read(&rt, rt.alloc(), Plain::new())?;
    let tables = AttackTables::open(rt.alloc())?;
    three_games_are_read(&rt, rt.alloc(), Bits::new(&tables))
}

// Of two tags FEN the second is bad: the fault is at its text, and the game is at the first one's position.
fn bad_fen_is_read<B: Board + Drop>(rt: &impl Abort, alloc: Global, board: B) -> Result<(), Fail> {
    let mut game = Game::open(alloc, board, 100)?;
    let text = b"[FEN \"4k3/8/8/8/8/8/4P3/4K3 w - - 0 1\"]\n[FEN \"x\"] e4 *";
    let fault = Wanted::Fault(PgnFaultKind::BadFen(FenFault::Fields), 46);
    is_read_on(rt, text, &mut game, 0, fault, 0);
    let fen = b"4k3/8/8/8/8/8/4P3/4K3 w - - 0 1";
    has_fen(rt, &game.start(), fen);
    has_fen(rt, &game.position(), fen);
    Ok(())
}

// Does so on both boards.
#[test]
fn a_bad_fen_leaves_the_start_before_it(rt: HostRuntime) -> Result<(), Fail> {
    bad_fen_is_read(&rt, rt.alloc(), Plain::new())?;
    let tables = AttackTables::open(rt.alloc())?;
    bad_fen_is_read(&rt, rt.alloc(), Bits::new(&tables))
}

// Morphy against the Duke of Brunswick and Count Isouard, Paris 1858.
const OPERA: &[u8] = b"[Event \"?\"]
[Site \"Paris FRA\"]
[Date \"1858.11.02\"]
[Round \"?\"]
[White \"Paul Morphy\"]
[Black \"Duke Karl \\\"Brunswick\\\" / Count Isouard\"]
[Result \"1-0\"]

1. e4 e5 2. Nf3 d6 {This is the Philidor Defence.} 3. d4 Bg4?! 4. dxe5 Bxf3 (4...
dxe5 5. Qxd8+ Kxd8 6. Nxe5) 5. Qxf3 dxe5 6. Bc4 Nf6 ; 6... Qf6 is better
7. Qb3 Qe7 8. Nc3 (8. Qxb7 Qb4+ {an exchange of queens}) 8... c6 9. Bg5 b5 $2
10. Nxb5 cxb5 11. Bxb5+ Nbd7 12. O-O-O Rd8 13. Rxd7 Rxd7 14. Rd1 Qe6
15. Bxd7+ Nxd7 16. Qb8+!! Nxb8 17. Rd8# 1-0
";

// Asserts where that game ends: by mate, at this position, with nothing declared.
fn white_mates_in_the_opera<B: Board>(rt: &impl Abort, game: &Game<B>) {
    is_equal(rt, &game.verdict(), &Some(Verdict::WhiteMates));
    assert!(rt; game.declared().is_none());
    has_fen(
        rt,
        &game.position(),
        b"1n1Rkb1r/p4ppp/4q3/4p1B1/4P3/8/PPP2PPP/2K5 b k - 1 17",
    );
}

// Reads that game of 33 half-moves on this board.
fn the_opera_is_read<B: Board + Drop>(
    rt: &impl Abort,
    alloc: Global,
    board: B,
) -> Result<(), Fail> {
    let mut game = Game::open(alloc, board, 100)?;
    let ended = Wanted::Ended(Outcome::WhiteWins, OPERA.len() - 1);
    is_read_on(rt, OPERA, &mut game, 0, ended, 33);
    white_mates_in_the_opera(rt, &game);
    Ok(())
}

// Does so on both boards.
#[test]
fn a_whole_game_is_read(rt: HostRuntime) -> Result<(), Fail> {
    the_opera_is_read(&rt, rt.alloc(), Plain::new())?;
    let tables = AttackTables::open(rt.alloc())?;
    the_opera_is_read(&rt, rt.alloc(), Bits::new(&tables))
}

// A comment of `len` bytes between two moves is skipped, whether the text ends with the game or goes on for 32 bytes;
// without its brace it is not closed.
fn comment_is_skipped<B: Board>(
    rt: &impl Abort,
    alloc: Global,
    game: &mut Game<B>,
    len: usize,
) -> Result<(), Fail> {
    let comment = vec![in alloc; b'x'; len]?;
    let mut text = vec![in alloc; b' '; 0]?;
    text.extend_from_slice(b"1. e4 {")?;
    text.extend_from_slice(comment.as_slice())?;
    let open = Wanted::Fault(PgnFaultKind::UnclosedComment, 6);
    is_read_on(rt, text.as_slice(), game, 0, open, 1);
    text.extend_from_slice(b"} e5 *")?;
    let closed = Wanted::Ended(Outcome::Unfinished, text.len());
    is_read_on(rt, text.as_slice(), game, 0, closed, 2);
    text.extend_from_slice(b" 32 bytes are after the outcome.")?;
    is_read_on(rt, text.as_slice(), game, 0, closed, 2);
    Ok(())
}

// A comment's end is looked for by blocks of bytes, and byte by byte where fewer are left: it is found at each place in
// a block, and among the last bytes.
#[test]
fn comments_of_up_to_99_bytes_are_skipped(rt: HostRuntime) -> Result<(), Fail> {
    let mut game = Game::open(rt.alloc(), Plain::new(), 100)?;
    for len in 0..100 {
        comment_is_skipped(&rt, rt.alloc(), &mut game, len)?;
    }
    Ok(())
}

// What may follow the plain bytes that a tag's string begins with; and how many bytes the string has more than these,
// or `None` where it has no end, so that there is no tag.
const STRING_ENDS: [(&[u8], Option<usize>); 8] = [
    (b"\"] ", Some(0)),
    (b"\\\"\"] ", Some(2)),
    (b"\\\\\"] ", Some(2)),
    (b"\\\\\\\"\"] ", Some(4)),
    (b"\\\"] ", None),
    (b"\\\\\\\"] ", None),
    (b"\n\"] ", None),
    (b"\\\n\"] ", None),
];

// Reads a tag whose string begins with `len` plain bytes, followed by `end`, and asserts the length of its string, or
// that it is a bad tag.
fn string_is_read<B: Board>(
    rt: &impl Abort,
    alloc: Global,
    game: &mut Game<B>,
    len: usize,
    end: (&[u8], Option<usize>),
) -> Result<(), Fail> {
    let plain = vec![in alloc; b'x'; len]?;
    let mut text = vec![in alloc; b' '; 0]?;
    text.extend_from_slice(b"[Result \"")?;
    text.extend_from_slice(plain.as_slice())?;
    text.extend_from_slice(end.0)?;
    text.extend_from_slice(b"{so that many bytes follow} *")?;
    let (tag, wanted) = match end.1 {
        Some(more) => (
            Some(ResultTag {
                outcome: None,
                offset: 9,
                len: len.saturating_add(more),
            }),
            Wanted::Ended(Outcome::Unfinished, text.len()),
        ),
        None => (None, Wanted::Fault(PgnFaultKind::BadTag, 0)),
    };
    is_equal_at(
        rt,
        0,
        text.as_slice(),
        &result_tag(text.as_slice(), 0),
        &tag,
    );
    is_read_on(rt, text.as_slice(), game, 0, wanted, 0);
    Ok(())
}

// Does so with each of the ends.
fn strings_are_read<B: Board>(
    rt: &impl Abort,
    alloc: Global,
    game: &mut Game<B>,
    len: usize,
) -> Result<(), Fail> {
    for end in STRING_ENDS {
        string_is_read(rt, alloc, game, len, end)?;
    }
    Ok(())
}

// The bytes of a tag's string that are neither quotes, backslashes nor line ends are skipped by blocks: what ends the
// string is found at each place in them.
#[test]
fn strings_of_any_length_are_read(rt: HostRuntime) -> Result<(), Fail> {
    let mut game = Game::open(rt.alloc(), Plain::new(), 100)?;
    for len in 0..66 {
        strings_are_read(&rt, rt.alloc(), &mut game, len)?;
    }
    Ok(())
}

// A game with three tags, and the tag of the next game after its move.
const TAGGED: &[u8] =
    b"\xEF\xBB\xBF{x} [Event \"a\\\"b\"]\n!?\n[ Site\n\"\"] [Event \"c\"]\n1. e4 [White \"w\"] *";

// The tags from an offset on: the name of each, its text, and where that begins.
const LISTED: [(usize, &[(&[u8], &[u8], usize)]); 3] = [
    (
        0,
        &[
            (b"Event", b"a\\\"b", 15),
            (b"Site", b"", 33),
            (b"Event", b"c", 44),
        ],
    ),
    (48, &[]),
    (53, &[(b"White", b"w", 62)]),
];

// A game's tags are those before its first number or move, in order, with what is between their quotes.
#[test]
fn tags_are_listed(rt: HostRuntime) {
    for (at, listed) in &LISTED {
        let mut tags = game_tags(TAGGED, *at);
        for (name, text, offset) in *listed {
            let wanted = PgnTag {
                name: *name,
                text: *text,
                offset: *offset,
            };
            is_equal(&rt, &tags.next(), &Some(wanted));
        }
        is_equal(&rt, &tags.next(), &None);
        is_equal(&rt, &tags.next(), &None);
    }
    is_equal(&rt, &tag_text(TAGGED, 0, b"Event"), &Some(b"c".as_slice()));
    is_equal(&rt, &tag_text(TAGGED, 0, b"White"), &None);
}

// Where the first game of a text ends; `None` if what can't be read, or the text's end, comes before its end.
const ENDS: [(&[u8], Option<usize>); 11] = [
    (b"1. e4 e5 1-0 *", Some(12)),
    (b"[Event \"a\"] 1. e4 [White \"w\"] *", Some(18)),
    (b"1. e9 Ke7 {*} (1-0) 0-1", Some(23)),
    (b"1. e4 1-0x [", None),
    (b"1. e4 & 1-0", None),
    (b"1. e4 {1-0", None),
    (b"1. e4 (1-0", None),
    (b"[Event \"a\" *", None),
    (b"", None),
    (b"[Event \"a\"] ", None),
    (b"\xEF\xBB\xBF*", Some(4)),
];

// A game ends after its termination marker, or before a tag that comes after its moves, also if a move is illegal.
#[test]
fn games_end(rt: HostRuntime) {
    for (text, end) in &ENDS {
        is_equal(&rt, &game_end(text, 0), end);
    }
    is_equal(
        &rt,
        &game_end(b"1. e4 * 1. d4 0-1".as_slice(), 7),
        &Some(17),
    );
}
