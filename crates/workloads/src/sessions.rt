//! Sessions with an interface or a script, which sends its lines all at once.

use crate::digest::Digest;
use crate::random::Random;
use crate::starts::fischerandom_start;
use crate::texts::add;
use crate::walk::{Style, Texts, walk_on};
use byte_devices::Counted;
use chess_base::{Position, Variant};
use chess_bits::{AttackTables, Bits};
use chess_cecp::{End, Session, run_session};
use chess_fen::write_fen;
use chess_game::{Game, MOST_MOVES};
use chess_pgn::Tags;
use chess_text::{coordinate, move_text};
use std::alloc::{AllocError, Global};

// Adds the lines that set up the start of a game, by its variant.
fn add_start(text: &mut Vec<u8>, start: &Position) -> Result<(), AllocError> {
    match start.variant() {
        Variant::Normal => add(text, b"variant normal\nnew\n"),
        Variant::Fischerandom => {
            add(text, b"variant fischerandom\nsetboard ")?;
            add(text, write_fen(start).as_slice())?;
            add(text, b"\n")
        }
    }
}

// The lines that come between moves, some more often than others; `claim` is mostly refused, and `e2e5x` is never a
// legal move.
const QUESTIONS: [&[u8]; 8] = [
    b"showfen\n",
    b"showfen\n",
    b"showstate\n",
    b"showstate\n",
    b"showmoves\n",
    b"ping 12\n",
    b"claim\n",
    b"e2e5x\n",
];

// Adds the half-move `ply` of the game by squares, such as `e2e4`; in Chess960 castling is `O-O`. Adds nothing if the
// game has no such half-move.
fn add_squares(text: &mut Vec<u8>, game: &Game<Bits<'_>>, ply: usize) -> Result<(), AllocError> {
    if ply >= game.ply() {
        return Ok(());
    }
    match game.start().variant() {
        Variant::Normal => add(text, coordinate(game.move_at(ply)).as_slice()),
        Variant::Fischerandom => {
            let position = game.position_at(ply);
            add(text, move_text(&position, game.move_at(ply)).as_slice())
        }
    }
}

// Adds the line of the half-move `ply` of the game: its SAN (`san`) alone if `in_san`, otherwise `usermove` and the
// move by squares.
fn add_move(
    text: &mut Vec<u8>,
    game: &Game<Bits<'_>>,
    ply: usize,
    san: &[u8],
    in_san: bool,
) -> Result<(), AllocError> {
    if in_san {
        add(text, san)?;
    } else {
        add(text, b"usermove ")?;
        add_squares(text, game, ply)?;
    }
    add(text, b"\n")
}

// Adds the moves of a game as an interface sends them, each as `usermove e2e4` or as SAN alone, with a question or an
// `undo` at times.
fn add_moves(
    text: &mut Vec<u8>,
    game: &Game<Bits<'_>>,
    texts: &Texts,
    in_san: bool,
    random: &mut Random,
) -> Result<(), AllocError> {
    for (ply, san) in texts.as_slice().iter().enumerate() {
        add_move(text, game, ply, san.as_slice(), in_san)?;
        if random.once_in(3) {
            add(text, random.one_of(&QUESTIONS))?;
        }
        if random.once_in(5) {
            add(text, b"undo\n")?;
            add_move(text, game, ply, san.as_slice(), in_san)?;
        }
    }
    Ok(())
}

// Adds the lines that set up eight random positions of a game by their FEN, each followed by the game's next six moves,
// or by as many as there are. Adds nothing if the game has no moves.
fn add_late_start(
    text: &mut Vec<u8>,
    game: &Game<Bits<'_>>,
    texts: &Texts,
    random: &mut Random,
) -> Result<(), AllocError> {
    for _ in 0..8 {
        let ply = random.below(game.ply());
        if ply < game.ply() {
            add(text, b"setboard ")?;
            add(text, write_fen(&game.position_at(ply)).as_slice())?;
            add(text, b"\n")?;
            for san in texts.as_slice().iter().skip(ply).take(6) {
                add(text, san.as_slice())?;
                add(text, b"\n")?;
            }
        }
    }
    Ok(())
}

// Adds all lines about one game: its moves as SAN, its PGN, its moves by squares, a result and the PGN again, and some
// of its positions.
fn add_game(
    text: &mut Vec<u8>,
    game: &Game<Bits<'_>>,
    texts: &Texts,
    random: &mut Random,
) -> Result<(), AllocError> {
    add_start(text, &game.start())?;
    add_moves(text, game, texts, true, random)?;
    add(text, b"showpgn\n")?;
    add_start(text, &game.start())?;
    add_moves(text, game, texts, false, random)?;
    add(text, b"result 1-0 {Black resigns}\nshowpgn\n")?;
    add_late_start(text, game, texts, random)
}

// Writes the lines of a session about `games` games of random moves, every fourth one of Chess960.
fn write_lines(alloc: Global, games: usize, random: &mut Random) -> Result<Vec<u8>, AllocError> {
    let tables = AttackTables::open(alloc)?;
    let mut game = Game::open(alloc, Bits::new(&tables), MOST_MOVES)?;
    let mut texts = Vec::new(alloc);
    let mut text = Vec::new(alloc);
    for number in 0..games {
        if number % 4 == 3 {
            game.restart(&fischerandom_start(random));
        } else {
            game.restart(&Position::initial());
        }
        texts.clear();
        walk_on(
            &mut game,
            Style::Lively,
            40 + random.below(120),
            random,
            &mut texts,
        )?;
        add_game(&mut text, &game, &texts, random)?;
    }
    Ok(text)
}

/// Runs a session on these lines, and adds how it ended and all that it wrote to the digest.
///
/// # Errors
/// If memory runs out.
pub fn answer_lines(alloc: Global, lines: &[u8], digest: &mut Digest) -> Result<(), AllocError> {
    let tables = AttackTables::open(alloc)?;
    let board = Bits::new(&tables);
    let scratch = Bits::new(&tables);
    let mut session = Session::open(alloc, board, scratch, Tags::default(), MOST_MOVES)?;
    let mut input = Counted::reading(lines);
    let mut output = Counted::writing(Vec::<u8>::new(alloc));
    match run_session(&mut input, &mut output, &mut session) {
        Ok(End::InputEnded) => digest.add(1),
        Ok(End::Quit) => digest.add(2),
        Err(_) => return Err(AllocError),
    }
    digest.add_bytes(output.writer().as_slice());
    Ok(())
}

/// Makes `games` games by random moves, and asks a session about each: its moves as SAN and by squares, its positions,
/// its PGN. Adds the answers to the digest.
///
/// # Errors
/// If memory runs out.
pub fn ask_session(
    alloc: Global,
    games: usize,
    random: &mut Random,
    digest: &mut Digest,
) -> Result<(), AllocError> {
    let lines = write_lines(alloc, games, random)?;
    answer_lines(alloc, lines.as_slice(), digest)
}
