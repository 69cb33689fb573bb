//! Writes a game's text (PGN standard of 1994, sections 3.2, 8 and 9.7). All parts are written to one `LineWriter`, the
//! parameter `lines`, which collects them in a buffer.
//!
//! In contracts the last argument of `added` (`Adds`) is the text that a function adds. What waited in the buffer,
//! followed by this text, are the bytes that the writer took, followed by those that now wait. `ended prefix lines` is
//! the text of these lines, each with the prefix before it and `\n` after it. `prefix`, `writer` and `kept` say what
//! stays as it was; `column` says how long the line is that is begun, `position` which position the board has, and
//! `playable` that the game's moves are legal.

ghost use Rattle.std.specs.Prelude.{◌≡◌, ℕ, ◌≤◌, ◌<◌, List, [], ◌∷◌, ◌++◌, true, length, decimal, OnOk, OnErr, IsTrue};
ghost use Rattle.arrayvec.specs.ArrayVec.{array_vec_len};
ghost use Rattle.byte_devices.specs.Devices.{Puts};
ghost use Rattle.chess_base.specs.Moves.{is_legal, after};
ghost use Rattle.chess_game.specs.Game.{outcome_now, IsPlayable};
ghost use Rattle.pgn_writer.specs.GameText.{tag_lines, game_tokens, pgn};
ghost use Rattle.pgn_writer.specs.shared.TagGroups.{roster_lines, fen_lines, start_lines_in, last_lines, further_lines};
ghost use Rattle.pgn_writer.specs.shared.NumberedMoves.{number_if_due, numbered_move, numbered_moves};
ghost use Rattle.chess_fen.specs.Writing.{is_initial};
ghost use Rattle.pgn_writer.specs.PgnText.{IsPgn};
ghost use Rattle.pgn_writer.specs.shared.Lines.{placed_all, column_after_all};
ghost use Rattle.pgn_writer.specs.ties.Kept.{KeepsLine, KeepsWriter};
ghost use Rattle.pgn_writer.specs.ties.Waiting.{Adds};
ghost use Rattle.pgn_writer.specs.Written.{ended, lines_of};

use crate::line_writer::LineWriter;
use crate::tag_lines::put_tags;
use crate::tags::{TagPair, Tags};
use crate::termination::Termination;
use arrayvec::ArrayVec;
use byte_devices::{Output, WriteFault, append, append_number};
use chess_base::{Colour, Move, Position, Setup, Variant};
use chess_fen::{is_initial, write_fen};
use chess_game::{Game, Outcome};
use chess_moves::Board;
use chess_text::{make_san, san_is_a_word};

// The text of a move number with its dots, such as `12...`. It has room for 20 digits and three dots.
type NumberText = ArrayVec<u8, 23>;

/// Writes a game's text (PGN standard of 1994, section 3.2, the form for exchange): its tags, an empty line, its moves
/// in SAN with the outcome last, and an empty line. Each line begins with `prefix` (`# ` in a session, or empty) and
/// ends with `\n`. The writer is not flushed. The moves are played on the board `scratch` for their SAN; it is left at
/// some position.
///
/// `laid_out` states the same as `written`, by what such a text looks like (`IsPgn`).
///
/// # Errors
/// If the writer fails; a beginning of the text was written then.
pub fn write_pgn<B: Board, W: Output>(
    game: &Game<B>,
    scratch: &mut B,
    tags: &Tags,
    prefix: &[u8],
    writer: &mut W,
) -> Result<(), WriteFault>
    ensures written { Puts (W.seen writer.old) (W.seen writer.new) result
        (pgn prefix.now tags.now game.now.state) }
    ensures laid_out { (text : List ℕ) → IsPgn prefix.now tags.now game.now.state text
        → Puts (W.seen writer.old) (W.seen writer.new) result text }
{
    let mut lines = LineWriter::new(prefix, writer);
    put_game(&mut lines, game, scratch, tags)?;
    lines.finish()
}

// Writes a game's whole text to `lines`, where no line is begun: tags, an empty line, moves with the outcome, an empty
// line. Its end may still wait in the buffer: `write_pgn` calls `finish`. The moves are played on the board `scratch`
// for their SAN.
//
// `Adds`: what waited in the buffer, followed by the text (`pgn`), are the bytes that the writer took, followed by
// those that now wait.
fn put_game<B: Board, W: Output>(
    lines: &mut LineWriter<'_, '_, W>,
    game: &Game<B>,
    scratch: &mut B,
    tags: &Tags,
) -> Result<(), WriteFault>
    requires { lines.old.column ≡ 0 }
    ensures added { Adds (W.seen lines.old.writer.now) (W.seen lines.new.writer.now) lines.old.waiting lines.new.waiting
        result (pgn lines.old.prefix.now tags.now game.now.state) }
    ensures writer { lines.new.writer.ghost_name ≡ lines.old.writer.ghost_name }
{
    let outcome = game.outcome();
    put_tag_lines(lines, game, outcome, tags)?;
    put_move_text(lines, game, outcome, scratch)?;
    lines.put_line(b"")
}

// Writes the lines of all tags of a game, from `[Event "?"]` on, and an empty line. `outcome` is the game's outcome, by
// which the tags `Result` and `Termination` are written.
fn put_tag_lines<B: Board, W: Output>(
    lines: &mut LineWriter<'_, '_, W>,
    game: &Game<B>,
    outcome: Outcome,
    tags: &Tags,
) -> Result<(), WriteFault>
    requires { outcome ≡ outcome_now game.now.state }
    ensures added { Adds (W.seen lines.old.writer.now) (W.seen lines.new.writer.now) lines.old.waiting
        lines.new.waiting result (ended lines.old.prefix.now (tag_lines tags.now game.now.state ++ [] ∷ [])) }
    ensures kept { KeepsLine lines.old lines.new }
{
    put_roster(lines, tags, outcome)?;
    let termination = Termination::of(tags.ended, outcome);
    put_further(lines, &game.start(), termination)?;
    lines.put_line(b"")
}

// Writes the lines of the Seven Tag Roster, the tags that each game has, from `[Event "?"]` to `[Result "1-0"]`. The
// text of `Result` is that of `outcome`; `tags` has the other six.
fn put_roster<W: Output>(
    lines: &mut LineWriter<'_, '_, W>,
    tags: &Tags,
    outcome: Outcome,
) -> Result<(), WriteFault>
    ensures added { Adds (W.seen lines.old.writer.now) (W.seen lines.new.writer.now) lines.old.waiting
        lines.new.waiting result (ended lines.old.prefix.now (roster_lines tags.now outcome)) }
    ensures kept { KeepsLine lines.old lines.new }
{
    let roster = [
        TagPair {
            name: b"Event",
            text: tags.event.as_bytes(),
        },
        TagPair {
            name: b"Site",
            text: tags.site.as_bytes(),
        },
        TagPair {
            name: b"Date",
            text: tags.date.as_bytes(),
        },
        TagPair {
            name: b"Round",
            text: tags.round.as_bytes(),
        },
        TagPair {
            name: b"White",
            text: tags.white.as_bytes(),
        },
        TagPair {
            name: b"Black",
            text: tags.black.as_bytes(),
        },
        TagPair {
            name: b"Result",
            text: outcome.text(),
        },
    ];
    put_tags(lines, &roster)
}

// Writes the lines of the tags that follow the seven of the roster: `FEN` and `SetUp`, if the game doesn't begin from
// the initial position of normal chess; `Termination`; and `Variant`, if it is of Chess960. `start` is the position
// from which the game begins, and its variant is the game's.
fn put_further<W: Output>(
    lines: &mut LineWriter<'_, '_, W>,
    start: &Position,
    termination: Termination,
) -> Result<(), WriteFault>
    ensures added { Adds (W.seen lines.old.writer.now) (W.seen lines.new.writer.now) lines.old.waiting
        lines.new.waiting result (ended lines.old.prefix.now (further_lines start.now termination)) }
    ensures kept { KeepsLine lines.old lines.new }
{
    put_start(lines, start)?;
    put_last(lines, start.variant(), termination)
}

// Writes the lines of the tags `FEN` and `SetUp` for a game that begins from the position `start`; nothing, if `start`
// is the initial position of normal chess. A game of Chess960 always has these tags.
fn put_start<W: Output>(
    lines: &mut LineWriter<'_, '_, W>,
    start: &Position,
) -> Result<(), WriteFault>
    ensures added { Adds (W.seen lines.old.writer.now) (W.seen lines.new.writer.now) lines.old.waiting
        lines.new.waiting result (ended lines.old.prefix.now (start_lines_in start.now.variant start.now)) }
    ensures kept { KeepsLine lines.old lines.new }
{
    match start.variant() {
        Variant::Normal if is_initial(start) => Ok(()),
        _ => put_fen(lines, start),
    }
}

// Writes the lines of two tags: `FEN` with the FEN of the position `start`, and `[SetUp "1"]`, which says that there is
// a FEN.
fn put_fen<W: Output>(lines: &mut LineWriter<'_, '_, W>, start: &Position) -> Result<(), WriteFault>
    ensures added { Adds (W.seen lines.old.writer.now) (W.seen lines.new.writer.now) lines.old.waiting
        lines.new.waiting result (ended lines.old.prefix.now (fen_lines start.now)) }
    ensures kept { KeepsLine lines.old lines.new }
{
    let fen = write_fen(start);
    let tags = [
        TagPair {
            name: b"FEN",
            text: fen.as_slice(),
        },
        TagPair {
            name: b"SetUp",
            text: b"1",
        },
    ];
    put_tags(lines, &tags)
}

// Writes the lines of the last tags: `Termination`, such as `[Termination "normal"]`, and for a game of Chess960 also
// `[Variant "fischerandom"]`.
fn put_last<W: Output>(
    lines: &mut LineWriter<'_, '_, W>,
    variant: Variant,
    termination: Termination,
) -> Result<(), WriteFault>
    ensures added { Adds (W.seen lines.old.writer.now) (W.seen lines.new.writer.now) lines.old.waiting
        lines.new.waiting result (ended lines.old.prefix.now (last_lines variant termination)) }
    ensures kept { KeepsLine lines.old lines.new }
{
    let tags = [
        TagPair {
            name: b"Termination",
            text: termination.text(),
        },
        TagPair {
            name: b"Variant",
            text: b"fischerandom",
        },
    ];
    match variant {
        Variant::Normal => put_tags(lines, &tags[..1]),
        Variant::Fischerandom => put_tags(lines, &tags),
    }
}

// Writes the lines of the moves, such as `1. e4 e5 1-0`. Their last token is `outcome`, the game's outcome. The moves
// are played on the board `scratch` for their SAN. `column`: before the call no line is begun.
fn put_move_text<B: Board, W: Output>(
    lines: &mut LineWriter<'_, '_, W>,
    game: &Game<B>,
    outcome: Outcome,
    scratch: &mut B,
) -> Result<(), WriteFault>
    requires outcome { outcome ≡ outcome_now game.now.state }
    requires column { lines.old.column ≡ 0 }
    ensures added { Adds (W.seen lines.old.writer.now) (W.seen lines.new.writer.now) lines.old.waiting
        lines.new.waiting result (ended lines.old.prefix.now (lines_of (game_tokens game.now.state))) }
    ensures kept { KeepsWriter lines.old lines.new }
{
    put_moves(lines, game, scratch)?;
    lines.put_token(outcome.text())?;
    lines.end_line()
}

// Writes the numbers and the SAN of all moves of the game, such as `1. e4 e5 2. Nf3`. The last line is not ended, since
// the outcome follows. The board `scratch` is set to the game's start, and the moves are played on it for their SAN.
//
// `added`, `column`: the tokens of the moves (`numbered_moves`) are put into lines (`placed_all`). `playable`: the
// game's moves are legal and no more than its limit, as in each game; the caller's proof needs it.
fn put_moves<B: Board, W: Output>(
    lines: &mut LineWriter<'_, '_, W>,
    game: &Game<B>,
    scratch: &mut B,
) -> Result<(), WriteFault>
    ensures added { Adds (W.seen lines.old.writer.now) (W.seen lines.new.writer.now) lines.old.waiting
        lines.new.waiting result (placed_all lines.old.prefix.now lines.old.column (numbered_moves true
        game.now.state.start game.now.state.moves)) }
    ensures column { OnOk result
        (lines.new.column
        ≡ column_after_all lines.old.column (numbered_moves true game.now.state.start game.now.state.moves)) }
    ensures kept { KeepsWriter lines.old lines.new }
    ensures playable { IsPlayable game.now }
{
    // The call is only for the prover, which needs a clause of it: each move of a game is legal where it is made.
    let _playable = game.position();
    scratch.set(&game.start());
    for ply in 0..game.ply() {
        put_move(lines, scratch, game.move_at(ply), ply == 0)?;
    }
    Ok(())
}

// Writes the SAN of the move `m`, which is legal in the board's position, and makes it on the board. A number comes
// before it, if one is due (`put_number`): `12. Nf3` for White, mostly `Nf6` for Black. If writing fails, the board has
// its old position. `is_first`: whether `m` is the game's first move.
fn put_move<B: Board, W: Output>(
    lines: &mut LineWriter<'_, '_, W>,
    board: &mut B,
    m: Move,
    is_first: bool,
) -> Result<(), WriteFault>
    requires { IsTrue (is_legal (B.position board.old) m) }
    ensures added { Adds (W.seen lines.old.writer.now) (W.seen lines.new.writer.now) lines.old.waiting
        lines.new.waiting result (placed_all lines.old.prefix.now lines.old.column (numbered_move is_first
        (B.position board.old) m)) }
    ensures column { OnOk result
        (lines.new.column ≡ column_after_all lines.old.column (numbered_move is_first (B.position board.old) m)) }
    ensures kept { KeepsWriter lines.old lines.new }
    ensures position { OnOk result (B.position board.new ≡ after (B.position board.old) m) }
    ensures same { OnErr result (B.position board.new ≡ B.position board.old) }
{
    // This law is called only for the prover: the SAN of a legal move has some bytes, and is short enough for a line.
    san_is_a_word();
    put_number(lines, board.setup(), is_first)?;
    // The prover wants two variables: one has the move for `make_san`, the other for `take_back`.
    let again = m;
    let (text, saved) = make_san(board, m);
    match lines.put_token(text.as_slice()) {
        Ok(()) => Ok(()),
        Err(fault) => {
            board.take_back(again, saved);
            Err(fault)
        }
    }
}

// Writes the number that comes before a move in the position `setup`: `12.` before a move of White, `12...` before a
// move of Black that is the game's first (`is_first`), and nothing before any other move of Black.
fn put_number<W: Output>(
    lines: &mut LineWriter<'_, '_, W>,
    setup: &Setup,
    is_first: bool,
) -> Result<(), WriteFault>
    ensures added { Adds (W.seen lines.old.writer.now) (W.seen lines.new.writer.now) lines.old.waiting
        lines.new.waiting result (placed_all lines.old.prefix.now lines.old.column (number_if_due setup.now.side
        is_first setup.now.fullmove)) }
    ensures column { lines.new.column
        ≡ column_after_all lines.old.column (number_if_due setup.now.side is_first setup.now.fullmove) }
    ensures kept { KeepsWriter lines.old lines.new }
{
    let dots = match (setup.side, is_first) {
        (Colour::White, _) => b".".as_slice(),
        (Colour::Black, true) => b"...".as_slice(),
        (Colour::Black, false) => return Ok(()),
    };
    lines.put_token(number_text(setup.fullmove, dots).as_slice())
}

// The text of a move number and then `dots`, such as `12.` or `12...`. One to three dots are given.
fn number_text(number: u32, dots: &[u8]) -> NumberText
    requires some { 0 < length dots.now }
    requires few { length dots.now ≤ 3 }
    ensures text { result.items ≡ decimal number ++ dots.now }
    ensures some { 0 < array_vec_len result }
{
    let mut text = NumberText::new();
    append_number(&mut text, u64::from(number));
    append(&mut text, dots);
    text
}
