//! Writing PGN: tags, moves and results, over writers that fail at some call, and texts of tags.

use crate::equal::is_equal;
use byte_devices::{Counted, PieceWriter, WriteFault};
use chess_base::Variant;
use chess_bits::{AttackTables, Bits};
use chess_fen::{read_fen, read_fen_as};
use chess_game::{Comment, Game, Outcome};
use chess_moves::{Board, Plain};
use chess_pgn::{faults_have_offsets, half_moves_have_bytes, unreadable_games_have_no_end};
use chess_pgn_laws::{
    a_game_is_tags_and_moves, a_text_has_one_split, empty_games_are_read, games_are_laid_out,
    games_are_of_tokens, lines_are_filled, normal_is_kept, pgn_is_read_back, texts_are_worked_out,
    variations_are_legal,
};
use chess_text::{Reading, read_move};
use pgn_writer::{HowEnded, TagText, Tags, write_pgn};
use std::alloc::Global;
use std::process::Abort;
use std::test::Fail;

// Plays the move that a word denotes; another word is passed over. The big contracts stay in here.
fn play<B: Board>(game: &mut Game<B>, word: &[u8]) -> Result<(), Fail> {
    if let Reading::Move(m) = read_move(game.board(), word) {
        game.play(m).or(Err("played"))?;
    }
    Ok(())
}

// Declares a result.
fn declare<B: Board>(game: &mut Game<B>, outcome: Outcome, comment: &[u8]) -> Result<(), Fail> {
    game.declare(outcome, Comment::cut(comment))
        .or(Err("declared"))?;
    Ok(())
}

// A game from the position of a FEN, or from the initial one if that is empty, with these moves, which have blanks
// between them.
fn played<B: Board + Drop>(
    alloc: Global,
    board: B,
    fen: &[u8],
    moves: &[u8],
) -> Result<Game<B>, Fail> {
    let mut game = Game::open(alloc, board, 100)?;
    if !fen.is_empty() {
        game.restart(&read_fen(fen).ok().ok_or("sound")?);
    }
    for word in moves.split(|byte| *byte == b' ') {
        play(&mut game, word)?;
    }
    Ok(game)
}

// The text of a game, by a writer that takes at most `cut` bytes at a time.
fn written<B: Board>(
    alloc: Global,
    game: &Game<B>,
    scratch: &mut B,
    tags: &Tags,
    prefix: &[u8],
    cut: usize,
) -> Result<Vec<u8>, Fail> {
    let mut writer = Counted::writing(PieceWriter::new(alloc, cut, 0));
    write_pgn(game, scratch, tags, prefix, &mut writer).or(Err("written"))?;
    Ok(writer.into_writer().bytes)
}

/// A game whose tags are those by default: its start (empty: the initial position), its moves, and its text from the
/// seventh line on, with `# ` before each line.
#[derive(Drop)]
struct GameRow {
    fen: &'static [u8],
    moves: &'static [u8],
    text: &'static [u8],
}

// The first six lines of the text of such a game.
const FIRST_LINES: &[u8] =
    b"# [Event \"?\"]\n# [Site \"?\"]\n# [Date \"????.??.??\"]\n# [Round \"?\"]\n# [White \"?\"]\n# [Black \"?\"]\n";

// Black moves first and promotes.
const PROMOTION: GameRow = GameRow {
    fen: b"4k3/8/8/8/8/8/4p3/K7 b - - 0 1",
    moves: b"e2e1q",
    text: b"# [Result \"*\"]\n# [FEN \"4k3/8/8/8/8/8/4p3/K7 b - - 0 1\"]\n# [SetUp \"1\"]\n# [Termination \"unterminated\"]\n# \n# 1... e1=Q+ *\n# \n",
};

// Games, and their texts.
const GAMES: [GameRow; 10] = [
    GameRow {
        fen: b"",
        moves: b"",
        text: b"# [Result \"*\"]\n# [Termination \"unterminated\"]\n# \n# *\n# \n",
    },
    // Both knights go to and fro eight times: the position comes for the fifth time.
    GameRow {
        fen: b"",
        moves: b"g1f3 g8f6 f3g1 f6g8 g1f3 g8f6 f3g1 f6g8 g1f3 g8f6 f3g1 f6g8 g1f3 g8f6 f3g1 f6g8",
        text: b"# [Result \"1/2-1/2\"]\n# [Termination \"normal\"]\n# \n# 1. Nf3 Nf6 2. Ng1 Ng8 3. Nf3 Nf6 4. Ng1 Ng8 5. Nf3 Nf6 6. Ng1 Ng8 7. Nf3 Nf6 8.\n# Ng1 Ng8 1/2-1/2\n# \n",
    },
    // The same from move 10 on, so that fewer are in the first line.
    GameRow {
        fen: b"rnbqkbnr/pppppppp/8/8/8/8/PPPPPPPP/RNBQKBNR w KQkq - 0 10",
        moves: b"g1f3 g8f6 f3g1 f6g8 g1f3 g8f6 f3g1 f6g8 g1f3 g8f6 f3g1 f6g8 g1f3 g8f6 f3g1 f6g8",
        text: b"# [Result \"1/2-1/2\"]\n# [FEN \"rnbqkbnr/pppppppp/8/8/8/8/PPPPPPPP/RNBQKBNR w KQkq - 0 10\"]\n# [SetUp \"1\"]\n# [Termination \"normal\"]\n# \n# 10. Nf3 Nf6 11. Ng1 Ng8 12. Nf3 Nf6 13. Ng1 Ng8 14. Nf3 Nf6 15. Ng1 Ng8 16. Nf3\n# Nf6 17. Ng1 Ng8 1/2-1/2\n# \n",
    },
    // Mate.
    GameRow {
        fen: b"",
        moves: b"f2f3 e7e5 g2g4 d8h4",
        text: b"# [Result \"0-1\"]\n# [Termination \"normal\"]\n# \n# 1. f3 e5 2. g4 Qh4# 0-1\n# \n",
    },
    PROMOTION,
    // The number is written only before the first of Black's moves.
    GameRow {
        fen: b"4k3/8/8/8/8/8/4p3/K7 b - - 0 1",
        moves: b"e2e1q a1a2 e1e2 a2a1",
        text: b"# [Result \"*\"]\n# [FEN \"4k3/8/8/8/8/8/4p3/K7 b - - 0 1\"]\n# [SetUp \"1\"]\n# [Termination \"unterminated\"]\n# \n# 1... e1=Q+ 2. Ka2 Qe2+ 3. Ka1 *\n# \n",
    },
    // The other knight is pinned.
    GameRow {
        fen: b"4k3/8/8/8/1b6/2N5/8/4K1N1 w - - 0 1",
        moves: b"g1e2",
        text: b"# [Result \"*\"]\n# [FEN \"4k3/8/8/8/1b6/2N5/8/4K1N1 w - - 0 1\"]\n# [SetUp \"1\"]\n# [Termination \"unterminated\"]\n# \n# 1. Ne2 *\n# \n",
    },
    // The other knight is not.
    GameRow {
        fen: b"4k3/8/8/8/8/5N2/8/1N2K3 w - - 0 1",
        moves: b"Nbd2",
        text: b"# [Result \"*\"]\n# [FEN \"4k3/8/8/8/8/5N2/8/1N2K3 w - - 0 1\"]\n# [SetUp \"1\"]\n# [Termination \"unterminated\"]\n# \n# 1. Nbd2 *\n# \n",
    },
    // The pieces of the initial position at another clock are another start.
    GameRow {
        fen: b"rnbqkbnr/pppppppp/8/8/8/8/PPPPPPPP/RNBQKBNR w KQkq - 1 1",
        moves: b"e2e4",
        text: b"# [Result \"*\"]\n# [FEN \"rnbqkbnr/pppppppp/8/8/8/8/PPPPPPPP/RNBQKBNR w KQkq - 1 1\"]\n# [SetUp \"1\"]\n# [Termination \"unterminated\"]\n# \n# 1. e4 *\n# \n",
    },
    // The greatest number, at which it stays.
    GameRow {
        fen: b"4k3/8/8/8/8/8/8/R3K3 b Q - 0 999999",
        moves: b"e8e7 e1c1",
        text: b"# [Result \"*\"]\n# [FEN \"4k3/8/8/8/8/8/8/R3K3 b Q - 0 999999\"]\n# [SetUp \"1\"]\n# [Termination \"unterminated\"]\n# \n# 999999... Ke7 999999. O-O-O *\n# \n",
    },
];

// Writes a game, at most `cut` bytes at a time, and asserts its text.
fn is_written<B: Board>(
    rt: &impl Abort,
    alloc: Global,
    game: &Game<B>,
    scratch: &mut B,
    cut: usize,
    text: &[u8],
) -> Result<(), Fail> {
    let found = written(alloc, game, scratch, &Tags::default(), b"# ", cut)?;
    is_equal(rt, &found.as_slice(), &text);
    Ok(())
}

// The text of a game of which a row has the text from the seventh line on.
fn whole_text(alloc: Global, text: &[u8]) -> Result<Vec<u8>, Fail> {
    let mut whole = Vec::new(alloc);
    whole.extend_from_slice(FIRST_LINES)?;
    whole.extend_from_slice(text)?;
    Ok(whole)
}

// Plays the game of a row on this board, and writes it in one piece and byte by byte.
fn game_is_written<B: Board + Drop>(
    rt: &impl Abort,
    alloc: Global,
    board: B,
    scratch: &mut B,
    row: &GameRow,
) -> Result<(), Fail> {
    let text = whole_text(alloc, row.text)?;
    let game = played(alloc, board, row.fen, row.moves)?;
    is_written(rt, alloc, &game, scratch, 9000, text.as_slice())?;
    is_written(rt, alloc, &game, scratch, 1, text.as_slice())
}

// Does so on both boards.
fn is_written_on_both(rt: &impl Abort, alloc: Global, row: &GameRow) -> Result<(), Fail> {
    game_is_written(rt, alloc, Plain::new(), &mut Plain::new(), row)?;
    let tables = AttackTables::open(alloc)?;
    game_is_written(rt, alloc, Bits::new(&tables), &mut Bits::new(&tables), row)
}

// Does so for each row.
fn are_written(rt: &impl Abort, alloc: Global, rows: &[GameRow]) -> Result<(), Fail> {
    for row in rows {
        is_written_on_both(rt, alloc, row)?;
    }
    Ok(())
}

// Writes all games.
#[test]
fn games_are_written(rt: HostRuntime) -> Result<(), Fail> {
    are_written(&rt, rt.alloc(), &GAMES)
}

// Writes a game with tags and a declared result: quotes and backslashes are escaped, and what isn't printable is `?`.
fn tags_are_written<B: Board + Drop>(
    rt: &impl Abort,
    alloc: Global,
    board: B,
    scratch: &mut B,
) -> Result<(), Fail> {
    let mut game = played(alloc, board, b"", b"e4 c5")?;
    declare(&mut game, Outcome::WhiteWins, b"Black resigns")?;
    let tags = Tags {
        event: TagText::cut(b"A \"B\" \\"),
        site: TagText::cut(b""),
        date: TagText::cut(b"2024.12.31"),
        round: TagText::cut(b"3.1"),
        white: TagText::cut(b"]{}"),
        black: TagText::cut(b"\n"),
        ended: HowEnded::RulesInfraction,
    };
    let text = written(alloc, &game, scratch, &tags, b"", 9000)?;
    is_equal(
        rt,
        &text.as_slice(),
        &b"[Event \"A \\\"B\\\" \\\\\"]\n[Site \"\"]\n[Date \"2024.12.31\"]\n[Round \"3.1\"]\n[White \"]{}\"]\n[Black \"?\"]\n[Result \"1-0\"]\n[Termination \"rules infraction\"]\n\n1. e4 c5 1-0\n\n".as_slice(),
    );
    Ok(())
}

// Does so on both boards.
#[test]
fn tags_and_declared_results_are_written(rt: HostRuntime) -> Result<(), Fail> {
    tags_are_written(&rt, rt.alloc(), Plain::new(), &mut Plain::new())?;
    let tables = AttackTables::open(rt.alloc())?;
    tags_are_written(&rt, rt.alloc(), Bits::new(&tables), &mut Bits::new(&tables))
}

// Writes a game with these tags, and asserts the end of its text.
fn ends_with<B: Board>(
    rt: &impl Abort,
    alloc: Global,
    game: &Game<B>,
    scratch: &mut B,
    tags: &Tags,
    end: &[u8],
) -> Result<(), Fail> {
    let text = written(alloc, game, scratch, tags, b"", 9000)?;
    assert!(rt; text.as_slice().ends_with(end));
    Ok(())
}

// Writes a game of Chess960, unfinished and then drawn. The tag Termination comes after those of the start and before
// Variant.
fn chess960_is_written<B: Board + Drop>(
    rt: &impl Abort,
    alloc: Global,
    board: B,
    scratch: &mut B,
) -> Result<(), Fail> {
    let mut game = Game::open(alloc, board, 100)?;
    let start = read_fen_as(Variant::Fischerandom, b"4k3/8/8/8/8/8/8/RK5R w HA - 0 1");
    game.restart(&start.ok().ok_or("sound")?);
    play(&mut game, b"O-O-O")?;
    let tags = Tags {
        ended: HowEnded::TimeForfeit,
        ..Tags::default()
    };
    let unended: &[u8] =
        b"[FEN \"4k3/8/8/8/8/8/8/RK5R w HA - 0 1\"]\n[SetUp \"1\"]\n[Termination \"unterminated\"]\n[Variant \"fischerandom\"]\n\n1. O-O-O *\n\n";
    ends_with(rt, alloc, &game, scratch, &tags, unended)?;
    declare(&mut game, Outcome::Draw, b"")?;
    let ended: &[u8] =
        b"[FEN \"4k3/8/8/8/8/8/8/RK5R w HA - 0 1\"]\n[SetUp \"1\"]\n[Termination \"time forfeit\"]\n[Variant \"fischerandom\"]\n\n1. O-O-O 1/2-1/2\n\n";
    ends_with(rt, alloc, &game, scratch, &tags, ended)
}

// Does so on both boards.
#[test]
fn the_end_of_a_game_of_chess960_is_written(rt: HostRuntime) -> Result<(), Fail> {
    chess960_is_written(&rt, rt.alloc(), Plain::new(), &mut Plain::new())?;
    let tables = AttackTables::open(rt.alloc())?;
    chess960_is_written(&rt, rt.alloc(), Bits::new(&tables), &mut Bits::new(&tables))
}

// Outcomes that are declared, and the line of moves that is written then.
const DECLARED: [(Outcome, &[u8]); 3] = [
    (Outcome::BlackWins, b"\n1. e4 0-1\n\n"),
    (Outcome::Draw, b"\n1. e4 1/2-1/2\n\n"),
    (Outcome::Unfinished, b"\n1. e4 *\n\n"),
];

// Declares an outcome, and asserts the end of the text.
fn ends_as_declared<B: Board>(
    rt: &impl Abort,
    alloc: Global,
    game: &mut Game<B>,
    scratch: &mut B,
    outcome: Outcome,
    line: &[u8],
) -> Result<(), Fail> {
    declare(game, outcome, b"")?;
    ends_with(rt, alloc, game, scratch, &Tags::default(), line)
}

// Does so after 1. e4 for each row.
fn all_end_as_declared<B: Board + Drop>(
    rt: &impl Abort,
    alloc: Global,
    board: B,
    scratch: &mut B,
    rows: &[(Outcome, &[u8])],
) -> Result<(), Fail> {
    let mut game = played(alloc, board, b"", b"e4")?;
    for row in rows {
        ends_as_declared(rt, alloc, &mut game, scratch, row.0, row.1)?;
    }
    Ok(())
}

// Does so on both boards.
#[test]
fn each_declared_result_is_written(rt: HostRuntime) -> Result<(), Fail> {
    all_end_as_declared(&rt, rt.alloc(), Plain::new(), &mut Plain::new(), &DECLARED)?;
    let tables = AttackTables::open(rt.alloc())?;
    let board = Bits::new(&tables);
    all_end_as_declared(&rt, rt.alloc(), board, &mut Bits::new(&tables), &DECLARED)
}

// Writes a game by seven bytes at a time, where the call with this number fails (0: none). Gives the answer, and what
// was taken.
fn failing_at<B: Board>(
    alloc: Global,
    game: &Game<B>,
    scratch: &mut B,
    fails_at: u64,
) -> (Result<(), WriteFault>, Vec<u8>) {
    let mut writer = Counted::writing(PieceWriter::new(alloc, 7, fails_at));
    // Where the scratch board was makes no difference.
    let result = write_pgn(game, scratch, &Tags::default(), b"# ", &mut writer);
    (result, writer.into_writer().bytes)
}

// Asserts what is answered where that call fails, and what was taken; a failure of this test shows the call's number.
fn leaves<B: Board>(
    rt: &impl Abort,
    alloc: Global,
    game: &Game<B>,
    scratch: &mut B,
    fails_at: u64,
    answer: Result<(), WriteFault>,
    text: Option<&[u8]>,
) {
    let (result, taken) = failing_at(alloc, game, scratch, fails_at);
    is_equal(
        rt,
        &(fails_at, result, Some(taken.as_slice())),
        &(fails_at, answer, text),
    );
}

// Lets each call fail in turn, before which only whole sevens of bytes were taken, and then the call after the last,
// which isn't made.
fn each_call_fails<B: Board>(
    rt: &impl Abort,
    alloc: Global,
    game: &Game<B>,
    scratch: &mut B,
) -> Result<(), Fail> {
    let whole = written(alloc, game, scratch, &Tags::default(), b"# ", 9000)?;
    let calls = whole.len().div_ceil(7);
    for taken in 0..calls {
        let beginning = whole.get(..7 * taken);
        leaves(
            rt,
            alloc,
            game,
            scratch,
            taken as u64 + 1,
            Err(WriteFault),
            beginning,
        );
    }
    leaves(
        rt,
        alloc,
        game,
        scratch,
        calls as u64 + 1,
        Ok(()),
        Some(&whole),
    );
    Ok(())
}

// Does so for a short game on this board.
fn failures_leave_one<B: Board + Drop>(
    rt: &impl Abort,
    alloc: Global,
    board: B,
    scratch: &mut B,
) -> Result<(), Fail> {
    let game = played(alloc, board, PROMOTION.fen, PROMOTION.moves)?;
    each_call_fails(rt, alloc, &game, scratch)
}

// Wherever the writer fails, a beginning of the text was taken, and just then the fault is returned.
#[test]
fn failures_leave_a_beginning(rt: HostRuntime) -> Result<(), Fail> {
    failures_leave_one(&rt, rt.alloc(), Plain::new(), &mut Plain::new())?;
    let tables = AttackTables::open(rt.alloc())?;
    failures_leave_one(&rt, rt.alloc(), Bits::new(&tables), &mut Bits::new(&tables))
}

// Asserts a tag's text.
fn is_tag_text(rt: &impl Abort, found: &TagText, text: &[u8]) {
    is_equal(rt, &found.as_bytes(), &text);
}

// Asserts that the texts of all tags are those by default.
fn are_unknown(rt: &impl Abort, tags: &Tags) {
    for text in [
        &tags.event,
        &tags.site,
        &tags.round,
        &tags.white,
        &tags.black,
    ] {
        is_tag_text(rt, text, b"?");
    }
    is_tag_text(rt, &tags.date, b"????.??.??");
}

// A tag's text is cut to 60 bytes, with `?` for each that isn't printable; the texts by default are unknown.
#[test]
fn tag_texts_are_cut(rt: HostRuntime) {
    let long = b"123456789012345678901234567890123456789012345678901234567890X";
    is_tag_text(&rt, &TagText::cut(long), &long[..60]);
    is_tag_text(&rt, &TagText::cut(b"\x1F\xC3\xA9~\x7F \n{}"), b"???~? ?{}");
    are_unknown(&rt, &Tags::default());
}

// The lines of the text of a game without moves.
const NO_MOVES: [&[u8]; 11] = [
    b"[Event \"?\"]\n",
    b"[Site \"?\"]\n",
    b"[Date \"????.??.??\"]\n",
    b"[Round \"?\"]\n",
    b"[White \"?\"]\n",
    b"[Black \"?\"]\n",
    b"[Result \"*\"]\n",
    b"[Termination \"unterminated\"]\n",
    b"\n",
    b"*\n",
    b"\n",
];

// These lines, each after this prefix.
fn prefixed(alloc: Global, prefix: &[u8], lines: &[&[u8]]) -> Result<Vec<u8>, Fail> {
    let mut text = Vec::new(alloc);
    for line in lines {
        text.extend_from_slice(prefix)?;
        text.extend_from_slice(line)?;
    }
    Ok(text)
}

// Writes a game without moves on this board, each line after this prefix.
fn is_written_after<B: Board + Drop>(
    rt: &impl Abort,
    alloc: Global,
    board: B,
    scratch: &mut B,
    prefix: &[u8],
) -> Result<(), Fail> {
    let text = prefixed(alloc, prefix, &NO_MOVES)?;
    let game = played(alloc, board, b"", b"")?;
    let found = written(alloc, &game, scratch, &Tags::default(), prefix, 9000)?;
    is_equal(rt, &found.as_slice(), &text.as_slice());
    Ok(())
}

// Does so on both boards.
fn is_written_after_on_both(rt: &impl Abort, alloc: Global, prefix: &[u8]) -> Result<(), Fail> {
    is_written_after(rt, alloc, Plain::new(), &mut Plain::new(), prefix)?;
    let tables = AttackTables::open(alloc)?;
    is_written_after(
        rt,
        alloc,
        Bits::new(&tables),
        &mut Bits::new(&tables),
        prefix,
    )
}

// The buffer of the text has 4,096 bytes; a prefix may have more.
#[test]
fn a_prefix_longer_than_the_buffer_is_written(rt: HostRuntime) -> Result<(), Fail> {
    let prefix = vec![in rt.alloc(); b'p'; 5000]?;
    is_written_after_on_both(&rt, rt.alloc(), prefix.as_slice())
}

// Each law of chess_pgn and of chess_pgn_laws can be called, without a condition.
#[test]
fn laws_are_called() {
    a_game_is_tags_and_moves();
    a_text_has_one_split();
    empty_games_are_read();
    faults_have_offsets();
    games_are_laid_out();
    games_are_of_tokens();
    variations_are_legal();
    half_moves_have_bytes();
    lines_are_filled();
    normal_is_kept();
    pgn_is_read_back();
    texts_are_worked_out();
    unreadable_games_have_no_end();
}
