//! Games made of random legal moves.

use crate::random::Random;
use chess_base::{Kind, Move, Setup};
use chess_bits::Bits;
use chess_game::Game;
use chess_moves::Board;
use chess_text::{SanText, add_check_mark, unmarked_san};
use std::alloc::AllocError;

/// How moves are chosen.
#[derive(Clone, Copy, PartialEq, Eq)]
pub enum Style {
    /// As in games: pawns and minor pieces move most, captures and castling are seldom left out.
    Lively,
    /// Nothing is captured and no pawn moves, as long as the clock allows it.
    Long,
}

// How often in 8 draws a move of this kind of piece is played in a lively game.
fn liveliness(kind: Kind) -> usize {
    match kind {
        Kind::King => 1,
        Kind::Queen => 2,
        Kind::Rook => 3,
        Kind::Bishop | Kind::Knight => 6,
        Kind::Pawn => 7,
    }
}

// How often in 8 draws this move is played in a lively game: a capture or castling always, any other move by its kind
// of piece. `setup` is the position before the move.
fn lively_weight(setup: &Setup, m: &Move) -> usize {
    if setup.men[m.to.index()].is_some() {
        return 8;
    }
    let Some(man) = setup.men[m.from.index()] else {
        return 0;
    };
    if man.kind == Kind::King && m.from.file().abs_diff(m.to.file()) > 1 {
        return 8;
    }
    liveliness(man.kind)
}

// In a long game only pawns move from this halfmove clock on, and only other pieces before it. At 150 the game would be
// over (75 moves), so there are 29 half-moves at which a pawn's move can be drawn.
const PAWNS_FROM: u32 = 121;

// How often in 8 draws this move is played in a long game: always if it captures nothing, and is a pawn's exactly if
// the halfmove clock is at least `PAWNS_FROM`; otherwise never. `setup` is the position before the move.
fn long_weight(setup: &Setup, m: &Move) -> usize {
    let is_pawn = setup.men[m.from.index()].is_some_and(|man| man.kind == Kind::Pawn);
    let is_capture = setup.men[m.to.index()].is_some();
    if !is_capture && is_pawn == (setup.halfmove >= PAWNS_FROM) {
        8
    } else {
        0
    }
}

/// Draws one of these moves of a position at random, by the style. Of up to 24 moves drawn it returns the first that
/// the style takes, or else the last; `None` if there are no moves.
pub fn choose(setup: &Setup, moves: &[Move], style: Style, random: &mut Random) -> Option<Move> {
    let mut chosen = None;
    for _ in 0..24 {
        let m = *moves.get(random.below(moves.len()))?;
        let weight = match style {
            Style::Lively => lively_weight(setup, &m),
            Style::Long => long_weight(setup, &m),
        };
        if random.below(8) < weight {
            return Some(m);
        }
        chosen = Some(m);
    }
    chosen
}

/// A random legal move of the board's position, drawn by the style; `None` if there is none.
pub fn next_move(board: &Bits<'_>, style: Style, random: &mut Random) -> Option<Move> {
    let moves = board.legal_moves();
    choose(board.setup(), moves.as_slice(), style, random)
}

/// The moves of a walk, each as SAN.
pub type Texts = Vec<SanText>;

// Plays a move in the game and adds its SAN to `texts`; returns whether it was played, which it isn't if it is illegal
// or the game is over.
fn play_on(game: &mut Game<Bits<'_>>, m: Move, texts: &mut Texts) -> Result<bool, AllocError> {
    let again = m;
    if !game.board().is_legal(&m) {
        return Ok(false);
    }
    let mut text = unmarked_san(game.board(), &m);
    if game.play(again).is_err() {
        return Ok(false);
    }
    add_check_mark(game.board(), &mut text);
    texts.push(text)?;
    Ok(true)
}

/// Plays up to `half_moves` more half-moves, drawn by the style, and adds their SAN to `texts`. It stops if the game is
/// over.
///
/// # Errors
/// If memory runs out.
pub fn walk_on(
    game: &mut Game<Bits<'_>>,
    style: Style,
    half_moves: usize,
    random: &mut Random,
    texts: &mut Texts,
) -> Result<(), AllocError> {
    for _ in 0..half_moves {
        let Some(m) = next_move(game.board(), style, random) else {
            return Ok(());
        };
        if !play_on(game, m, texts)? {
            return Ok(());
        }
    }
    Ok(())
}

/// Takes back half-moves until the game has `ply` of them, and drops their SAN.
pub fn walk_back(game: &mut Game<Bits<'_>>, ply: usize, texts: &mut Texts) {
    for _ in ply..game.ply() {
        if game.take_back().is_err() {
            return;
        }
        texts.pop();
    }
}
