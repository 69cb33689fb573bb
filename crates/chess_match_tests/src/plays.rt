//! Plays matches on both boards, and asserts what comes of them, for the other tests.

use byte_devices::{Counted, Input, Output, PieceReader, PieceWriter};
use cecp_engine::Level;
use chess_base::{ByColour, Colour, Position, Variant};
use chess_bits::{AttackTables, Bits};
use chess_fen::read_fen_as;
use chess_game::{Game, Outcome};
use chess_match::{Draws, Ends, MatchEnd, MatchFault, Moments, Patience, Setup, run_match};
use chess_moves::{Board, Plain};
use pgn_writer::{Tags, write_pgn};
use std::alloc::Global;
use std::process::Abort;
use std::test::Fail;

/// A clock that shows these moments, one for each time it is read, and then zeros.
#[derive(Drop)]
pub struct Listed<'a> {
    pub rest: &'a [u64],
}

impl Moments for Listed<'_> {
    ghost use Rattle.std.specs.Prelude.{Some, get_or};

    ghost coming = { λ m n. Some (get_or m.rest.now n 0) };

    fn now(&mut self) -> u64 {
        match self.rest {
            [] => 0,
            [first, tail @ ..] => {
                let moment = *first;
                self.rest = tail;
                moment
            }
        }
    }
}

/// A match from this start, with this level for both sides and this patience. Draws must be claimed.
pub fn setup_within(rt: &impl Abort, level: &[u8], start: Position, patience: Patience) -> Setup {
    match Level::read(level) {
        Some(level) => Setup {
            start,
            levels: ByColour {
                white: level,
                black: level,
            },
            patience,
            draws: Draws::Claimed,
        },
        None => panic!(rt; "level"),
    }
}

/// The same where engines are waited for as long as it takes.
pub fn setup_of(rt: &impl Abort, level: &[u8], start: Position) -> Setup {
    setup_within(rt, level, start, Patience::ENDLESS)
}

/// The position of a FEN of this variant, which must be sound.
pub fn position_of(rt: &impl Abort, variant: Variant, fen: &[u8]) -> Position {
    match read_fen_as(variant, fen) {
        Ok(position) => position,
        Err(_) => panic!(rt; "position"),
    }
}

/// An engine over memory: what it says is read from a slice, what it is sent is kept.
pub type TestEnds<'a> = Ends<Counted<PieceReader<'a>>, Counted<PieceWriter>>;

/// An engine that says these bytes, at most `piece` of them for each read. The read and the call of its writer with
/// these numbers fail (0: none).
pub fn ends(
    alloc: Global,
    bytes: &[u8],
    piece: usize,
    read_fails: u64,
    write_fails: u64,
) -> TestEnds<'_> {
    Ends {
        reader: Counted::reading(PieceReader::new(bytes, piece.max(1), read_fails)),
        writer: Counted::writing(PieceWriter::new(alloc, 1024, write_fails)),
    }
}

/// The board on which a match is played.
#[derive(Clone, Copy)]
pub enum On {
    /// 64 squares.
    Plain,
    /// Sets of squares.
    Bits,
}

/// Each of the boards.
pub const BOARDS: &[On] = &[On::Plain, On::Bits];

// Plays a match on this board. The game has room for `limit` half-moves, but at least 1 and at most 100. Gives the end,
// and how many half-moves the game has.
fn play_with<R: Input, W: Output, M: Moments, B: Board + Drop>(
    alloc: Global,
    board: B,
    limit: u32,
    white: &mut Ends<R, W>,
    black: &mut Ends<R, W>,
    moments: &mut M,
    setup: &Setup,
) -> Result<(MatchEnd, usize), Fail> {
    let mut game = Game::open(alloc, board, limit.max(1).min(100))?;
    let end = run_match(white, black, moments, setup, &mut game);
    Ok((end, game.ply()))
}

// The same on a board of bit sets.
fn play_with_bits<R: Input, W: Output, M: Moments>(
    alloc: Global,
    limit: u32,
    white: &mut Ends<R, W>,
    black: &mut Ends<R, W>,
    moments: &mut M,
    setup: &Setup,
) -> Result<(MatchEnd, usize), Fail> {
    let tables = AttackTables::open(alloc)?;
    play_with(
        alloc,
        Bits::new(&tables),
        limit,
        white,
        black,
        moments,
        setup,
    )
}

/// The same on the board that `on` names. (The big contract of `run_match` stays in here: tests compare values.)
pub fn play_over<R: Input, W: Output, M: Moments>(
    alloc: Global,
    on: On,
    limit: u32,
    white: &mut Ends<R, W>,
    black: &mut Ends<R, W>,
    moments: &mut M,
    setup: &Setup,
) -> Result<(MatchEnd, usize), Fail> {
    match on {
        On::Plain => play_with(alloc, Plain::new(), limit, white, black, moments, setup),
        On::Bits => play_with_bits(alloc, limit, white, black, moments, setup),
    }
}

// Plays a match on this board, and gives the PGN of its game; of the tags only that of its end isn't as it is by
// default.
fn pgn_with<R: Input, W: Output, B: Board + Drop>(
    alloc: Global,
    board: B,
    mut scratch: B,
    white: &mut Ends<R, W>,
    black: &mut Ends<R, W>,
    setup: &Setup,
) -> Result<Vec<u8>, Fail> {
    let mut game = Game::open(alloc, board, 100)?;
    let mut moments = Listed { rest: &[] };
    let end = run_match(white, black, &mut moments, setup, &mut game);
    let mut tags = Tags::default();
    tags.ended = end.ended;
    let mut writer = Counted::writing(PieceWriter::new(alloc, 1024, 0));
    write_pgn(&game, &mut scratch, &tags, b"", &mut writer).or(Err("written"))?;
    Ok(writer.into_writer().bytes)
}

/// The same on the board that `on` names.
pub fn pgn_over<R: Input, W: Output>(
    alloc: Global,
    on: On,
    white: &mut Ends<R, W>,
    black: &mut Ends<R, W>,
    setup: &Setup,
) -> Result<Vec<u8>, Fail> {
    match on {
        On::Plain => pgn_with(alloc, Plain::new(), Plain::new(), white, black, setup),
        On::Bits => {
            let tables = AttackTables::open(alloc)?;
            let (board, scratch) = (Bits::new(&tables), Bits::new(&tables));
            pgn_with(alloc, board, scratch, white, black, setup)
        }
    }
}

/// Asserts that a text is `wanted`; a failure shows `name`.
pub fn is_text(rt: &impl Abort, name: &str, text: &[u8], wanted: &[u8]) {
    assert_eq!(rt; text, wanted, "{name}");
}

/// Asserts the outcome, the comment and the fault, if any, of a match's end.
pub fn check_end(
    rt: &impl Abort,
    end: &MatchEnd,
    outcome: Outcome,
    comment: &[u8],
    fault: Option<(Colour, MatchFault)>,
) {
    is_text(rt, "comment", end.comment.as_bytes(), comment);
    assert_eq!(rt;
        (end.outcome, end.fault),
        (outcome, fault),
        "outcome and fault"
    );
}
