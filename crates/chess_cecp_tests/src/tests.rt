//! The rows of sessions, run in each way; and sessions that are looked into after a fault.

ghost use Rattle.std.specs.Prelude.{◌≤◌};

use crate::hostile::{Way, check};
use crate::rows::{CHESS960, COMMANDS, ENDS, LIMITED, LONG, MOVES, STARTS};
use crate::running::{is_equal, run_on};
use byte_devices::{Counted, PieceReader, PieceWriter};
use chess_base::{Move, Position, Square};
use chess_cecp::{Command, End, Fault, Session, read_command};
use chess_fen::write_fen;
use chess_moves::{Board, Plain};
use itoa::Buffer;
use perft_positions::{NORMAL, Perft};
use pgn_writer::Tags;
use std::alloc::{AllocError, Global};
use std::io::{Read, Write};
use std::process::Abort;
use std::test::Fail;

// A session on plain boards, whose games have at most `limit` half-moves.
fn open(alloc: Global, limit: u32) -> Result<Session<Plain>, AllocError>
    requires some { 1 ≤ limit }
    requires few { limit ≤ 20000 }
{
    Session::open(alloc, Plain::new(), Plain::new(), Tags::default(), limit)
}

// Runs a session over these devices, and asserts how it ends.
fn ends_so<R: Read, W: Write>(
    rt: &impl Abort,
    session: &mut Session<Plain>,
    reader: &mut Counted<R>,
    writer: &mut Counted<W>,
    end: Result<End, Fault>,
) {
    is_equal(rt, &run_on(session, reader, writer), &end);
}

// An input of which each read gives at most `cut` bytes, and the read numbered `fails_at` fails (0: none).
fn pieces(input: &[u8], cut: usize, fails_at: u64) -> Counted<PieceReader<'_>> {
    Counted::reading(PieceReader::new(input, cut.max(1), fails_at))
}

// An output of which each write takes at most `cut` bytes, and the call numbered `fails_at` fails (0: none).
fn taking(alloc: Global, cut: usize, fails_at: u64) -> Counted<PieceWriter> {
    Counted::writing(PieceWriter::new(alloc, cut, fails_at))
}

// A table in a function of its own, since several named in one body cost much to prove.

fn check_commands(rt: &impl Abort, alloc: Global, way: Way) -> Result<(), Fail> {
    check(rt, alloc, way, COMMANDS, 100)
}

fn check_long_lines(rt: &impl Abort, alloc: Global, way: Way) -> Result<(), Fail> {
    check(rt, alloc, way, LONG, 100)
}

fn check_moves(rt: &impl Abort, alloc: Global, way: Way) -> Result<(), Fail> {
    check(rt, alloc, way, MOVES, 100)
}

fn check_starts(rt: &impl Abort, alloc: Global, way: Way) -> Result<(), Fail> {
    check(rt, alloc, way, STARTS, 100)
}

fn check_ends(rt: &impl Abort, alloc: Global, way: Way) -> Result<(), Fail> {
    check(rt, alloc, way, ENDS, 100)
}

fn check_chess960(rt: &impl Abort, alloc: Global, way: Way) -> Result<(), Fail> {
    check(rt, alloc, way, CHESS960, 100)
}

fn check_limited(rt: &impl Abort, alloc: Global, way: Way) -> Result<(), Fail> {
    check(rt, alloc, way, LIMITED, 3)
}

// Runs the sessions of all tables in this way.
fn check_all(rt: &impl Abort, alloc: Global, way: Way) -> Result<(), Fail> {
    check_commands(rt, alloc, way)?;
    if way.takes_long_lines() {
        check_long_lines(rt, alloc, way)?;
    }
    check_moves(rt, alloc, way)?;
    check_starts(rt, alloc, way)?;
    check_ends(rt, alloc, way)?;
    check_chess960(rt, alloc, way)?;
    check_limited(rt, alloc, way)
}

#[test]
fn rows_in_pieces(rt: HostRuntime) -> Result<(), Fail> {
    check_all(&rt, rt.alloc(), Way::Pieces)
}

#[test]
fn rows_cut_after_each_byte(rt: HostRuntime) -> Result<(), Fail> {
    check_all(&rt, rt.alloc(), Way::Cut)
}

#[test]
fn rows_with_each_read_failing(rt: HostRuntime) -> Result<(), Fail> {
    check_all(&rt, rt.alloc(), Way::FailingReads)
}

#[test]
fn rows_with_each_write_and_flush_failing(rt: HostRuntime) -> Result<(), Fail> {
    check_all(&rt, rt.alloc(), Way::FailingWrites)
}

#[test]
fn rows_by_a_writer_that_takes_nothing(rt: HostRuntime) -> Result<(), Fail> {
    check_all(&rt, rt.alloc(), Way::FullWriter)
}

#[test]
fn rows_by_a_gate_that_each_flush_opens(rt: HostRuntime) -> Result<(), Fail> {
    check_all(&rt, rt.alloc(), Way::Gated)
}

// Asserts that a position is that after 1. e4.
fn is_after_e4(rt: &impl Abort, position: &Position) {
    is_equal(rt, &position.at(Square::new(12)), &None);
    is_equal(
        rt,
        &write_fen(position).as_slice(),
        &b"rnbqkbnr/pppppppp/8/8/4P3/8/PPPP1PPP/RNBQKBNR b KQkq e3 0 1".as_slice(),
    );
}

// After e2e4 the answer to `showfen` fails once three bytes of it were taken. The session is at the position after the
// move all the same.
#[test]
fn a_move_is_kept_where_writing_fails(rt: HostRuntime) -> Result<(), Fail> {
    let mut session = open(rt.alloc(), 100)?;
    let mut reader = pieces(b"e2e4\nshowfen\n", 100, 0);
    let mut writer = taking(rt.alloc(), 3, 3);
    ends_so(
        &rt,
        &mut session,
        &mut reader,
        &mut writer,
        Err(Fault::Write),
    );
    is_equal(&rt, &writer.writer().bytes.as_slice(), &b"# f".as_slice());
    is_after_e4(&rt, &session.position());
    Ok(())
}

// The writer takes the whole text of a game by one call, and fails at the flush, its second call. The session ends
// there.
#[test]
fn the_flush_after_a_game_may_fail(rt: HostRuntime) -> Result<(), Fail> {
    let mut session = open(rt.alloc(), 1)?;
    let mut reader = pieces(b"showpgn\nping 1\n", 100, 0);
    let mut writer = taking(rt.alloc(), 9000, 2);
    ends_so(
        &rt,
        &mut session,
        &mut reader,
        &mut writer,
        Err(Fault::Write),
    );
    assert!(rt; writer.writer().bytes.ends_with(b"# *\n# \n"));
    is_equal(&rt, &writer.writer().calls, &2);
    Ok(())
}

// Lines, and the commands that they are read as.
const NAMED: &[(&[u8], Command)] = &[
    (b"", Command::Silent),
    (b"new game", Command::New),
    (b"usermove\te7e8q", Command::UserMove),
    (b"e7e8q", Command::BareMove),
    (b"undo", Command::Undo),
    (b"ping 000000012", Command::Ping(12)),
    (b"ping -1", Command::BadNumber),
    (b"showfen", Command::ShowFen),
    (b"showmoves", Command::ShowMoves),
    (b"setboard", Command::SetBoard),
    (b"protover 2", Command::Protover(2)),
    (b"variant normal", Command::Variant),
    (b"go", Command::Go),
    (b"xboard", Command::Silent),
    (b"?", Command::Silent),
    (b"quit", Command::Quit),
    (b"newgame", Command::Unknown),
];

// Reads each line, of which only `ping` and `protover` have an argument in their command.
#[test]
fn commands_are_named_by_their_first_word(rt: HostRuntime) {
    for (text, command) in NAMED {
        is_equal(&rt, &read_command(text), command);
    }
}

// A transcript that sets up the position of a row and asks for its moves. Of the answer it has the beginning, with
// their number.
fn moves_row(alloc: Global, row: &Perft) -> Result<Vec<u8>, AllocError> {
    let moves = row.lines[0];
    let mut text = Vec::new(alloc);
    text.extend_from_slice(b"> setboard ")?;
    text.extend_from_slice(row.fen)?;
    text.extend_from_slice(b"\n> showmoves\n# moves ")?;
    text.extend_from_slice(Buffer::new().format(moves).as_bytes())?;
    text.extend_from_slice(b" ")?;
    Ok(text)
}

// Runs such a session for each row.
fn check_counts(rt: &impl Abort, alloc: Global, rows: &[Perft]) -> Result<(), Fail> {
    for row in rows {
        let text = moves_row(alloc, row)?;
        check(rt, alloc, Way::Begun, [text.as_slice()].as_slice(), 100)?;
    }
    Ok(())
}

// A session finds as many legal moves at the positions of perft_positions as other programs.
#[test]
fn moves_of_test_positions_are_counted(rt: HostRuntime) -> Result<(), Fail> {
    check_counts(&rt, rt.alloc(), NORMAL.as_slice())
}

// A session opened on a board that is elsewhere, after 1. e4, begins at the initial position.
#[test]
fn a_session_opens_at_the_initial_position(rt: HostRuntime) -> Result<(), Fail> {
    let mut board = Plain::new();
    let e4 = Move {
        from: Square::new(12),
        to: Square::new(28),
        promotion: None,
    };
    let (judged, made) = (e4, e4);
    let initial = Position::initial();
    assert!(rt; initial.is_legal(judged));
    board.set(&initial.after(made));
    let session = Session::open(rt.alloc(), board, Plain::new(), Tags::default(), 20_000)?;
    assert!(rt; session.position() == Position::initial());
    Ok(())
}
