//! A game: its start, its current moves, the positions that they led to, and a declared result.
//!
//! `play_legal` and `refusal_of_moving` are inlined with what they call, for the loop in which chess_pgn plays the
//! moves of a game. What that gains was not measured apart.

ghost use Rattle.std.specs.Prelude.{false, ◌≡◌, ◌≢◌, ◌≤◌, ◌<◌, ◌+◌, ◌↔◌, IsTrue, IsFalse, IsNone, IsOk, IsErr, IfOk, OnOk, OnErr, Err, None, Some, [], ◌∷◌, ◌++◌, length, take, slice_get, nat_le, nat_lt};
ghost use Rattle.chess_base.specs.MoveList.{moves};
ghost use Rattle.chess_base.specs.Moves.{is_legal};
ghost use Rattle.chess_game.specs.declared.game.TheConstants.{MOST_MOVES};
ghost use Rattle.std.specs.Option.{option_map};
ghost use Rattle.chess_game.specs.Line.{position_after, positions_of};
ghost use Rattle.chess_game.specs.Same.{repetition_count};
ghost use Rattle.chess_game.specs.Ends.{verdict, claims};
ghost use Rattle.chess_game.specs.Game.{with_state, from_start, current, verdict_now, outcome_now, opened, is_over, is_full, refusal_now, play_refusal, unless_refused, after_play, last_move, after_take_back, declare_refusal, after_declare, IsPlayable};
ghost use Rattle.chess_game.specs.ties.PlayedMoves.{moves_of, Follows, IsKept};
ghost use Rattle.chess_game.specs.ties.Buckets.{HaveEntries};
ghost use Rattle.chess_game.specs.declared.repetition.Hashed.{Hashed};

use crate::index::{Entry, Index};
use crate::iter::{Moves, Positions};
use crate::packed::PackedPosition;
use crate::repetition::Hashed;
use crate::results::{Comment, Declared, Outcome};
use crate::verdicts::{Claims, Verdict, has_insufficient_material, mate_by};
use chess_base::{Colour, Man, Move, Position, Variant};
use chess_moves::Board;
use std::alloc::{AllocError, Global};
use std::fmt;
use std::marker::Model;

/// The greatest limit, in half-moves, that a game can be opened with.
pub const MOST_MOVES: u32 = chess_base::MOST_MOVES;

/// Why a move is refused; the first reason in this order.
#[derive(Clone, Copy, Debug, PartialEq, Eq, Hash, thiserror::Error)]
pub enum PlayRefusal {
    /// The game is over, by a verdict or a declared result.
    #[error("the game is over")]
    Over,
    /// The game has as many half-moves as its limit allows.
    #[error("the game has no room for another move")]
    TooLong,
    /// The move is not legal in the present position.
    #[error("the move is not legal")]
    Illegal,
}

/// The error that the game has no move that could be taken back.
#[derive(Clone, Copy, Debug, PartialEq, Eq, Hash, thiserror::Error)]
#[error("there is no move to take back")]
pub struct NoMove;

/// The error that there is a verdict on the game with another outcome than the one to be declared.
#[derive(Clone, Copy, Debug, PartialEq, Eq, Hash, thiserror::Error)]
#[error("the verdict on the game has another outcome")]
pub struct BoardSaysOtherwise;

// A move that was played, with the piece that it captured, the position that it reached, and the entry of this position
// in the index. What else has to be saved to take it back is in the position before it.
#[derive(Drop)]
pub(crate) struct PlayedMove {
    pub(crate) made: Move,
    pub(crate) captured: Option<Man>,
    pub(crate) reached: Hashed,
    pub(crate) entry: Entry,
}

/// A game of at most `limit` half-moves on a board. In contracts it is its limit and its state: the start, the current
/// moves (those not taken back), and the result that was declared, if one was.
#[derive(Drop)]
pub struct Game<B: Board> {
    board: B,
    start: Hashed,
    played_moves: Vec<PlayedMove>,
    index: Index,
    declared: Option<Declared>,
    limit: u32,
}

impl<B: Board> Model for Game<B> {
    ghost use Rattle.chess_game.specs.Game.{Seen};

    ghost Value = { Seen };

    ghost use Rattle.std.specs.Prelude.{vec_len, vec_capacity};
    ghost use Rattle.chess_game.specs.ties.PlayedMoves.{moves_of, IsKept, IsUnended, HasRoom};
    ghost use Rattle.chess_game.specs.ties.Buckets.{IsIndexed};

    ghost view = { λ g. record {
      limit = g.limit;
      state = record { start = g.start.position; moves = moves_of g.played_moves.items; declared = g.declared };
    } };

    ghost invariant = { λ g. IsKept B.word_of g.start g.played_moves.items (B.position g.board)
        × IsUnended g.start.position (moves_of g.played_moves.items)
        × HasRoom (vec_len g.played_moves) g.limit (vec_capacity g.played_moves)
        × IsIndexed g.index.heads.items g.start g.played_moves.items };
}

// The position that the played moves lead to from the start. Inlined, so that `Game::position_at` is inlined whole.
#[inline(always)]
fn last_position<'g>(start: &'g Hashed, played_moves: &'g [PlayedMove]) -> &'g PackedPosition
    requires { Follows start.now.position played_moves.now }
    ensures { result.now ≡ position_after start.now.position (moves_of played_moves.now) }
{
    if played_moves.is_empty() {
        &start.position
    } else {
        &played_moves[played_moves.len() - 1].reached.position
    }
}

// How many positions of the game, from the start to the present one, are the same as the present one. `played_moves`
// are the game's moves; the entry of the last one holds this count, and without moves it is 1.
fn repetitions(played_moves: &[PlayedMove]) -> u32
    ensures { (start : Hashed) → Follows start.position played_moves.now → HaveEntries start played_moves.now
        → result ≡ repetition_count start.position (moves_of played_moves.now) }
{
    if played_moves.is_empty() {
        1
    } else {
        played_moves[played_moves.len() - 1].entry.count
    }
}

// The verdict on a game whose present position has a legal move, so that it is neither mate nor stalemate: the first of
// the others that holds (the 75-move rule from 150 half-moves on). The board is at this position, and `played_moves`
// led to it.
#[tactic(auto, unfolding(crate::specs::Ends::verdict))]
#[inline(always)]
fn verdict_of_moving<B: Board>(board: &B, played_moves: &[PlayedMove]) -> Option<Verdict>
    requires { IsTrue (nat_lt 0 (length (moves (B.position board.now)))) }
    ensures { (start : Hashed) → IsKept B.word_of start played_moves.now (B.position board.now)
        → HaveEntries start played_moves.now → result ≡ verdict start.position (moves_of played_moves.now) }
{
    if has_insufficient_material(board) {
        Some(Verdict::InsufficientMaterial)
    } else if repetitions(played_moves) >= 5 {
        Some(Verdict::FivefoldRepetition)
    } else if board.setup().halfmove >= 150 {
        Some(Verdict::SeventyFiveMoves)
    } else {
        None
    }
}

// The verdict on a game, such as mate or stalemate, if there is one. The board is at the game's present position, and
// `played_moves` led to it.
#[tactic(auto, unfolding(crate::specs::Ends::verdict))]
fn verdict_on<B: Board>(board: &B, played_moves: &[PlayedMove]) -> Option<Verdict>
    ensures { (start : Hashed) → IsKept B.word_of start played_moves.now (B.position board.now)
        → HaveEntries start played_moves.now → result ≡ verdict start.position (moves_of played_moves.now) }
{
    if board.has_legal_move() {
        verdict_of_moving(board, played_moves)
    } else if board.in_check() {
        Some(mate_by(board.setup().side.other()))
    } else {
        Some(Verdict::Stalemate)
    }
}

impl<B: Board + Drop> Game<B> {
    /// Opens a game of at most `limit` half-moves at the initial position, whatever position the board was at. All
    /// memory is allocated here.
    ///
    /// # Errors
    /// If there is no memory; what was allocated is freed, and the board is dropped.
    pub fn open(alloc: Global, mut board: B, limit: u32) -> Result<Self, AllocError>
        requires some { 1 ≤ limit }
        requires few { limit ≤ MOST_MOVES }
        ensures { IfOk result (λ g. g ≡ opened limit) }
    {
        board.set(&Position::initial());
        let start = Hashed::on(&board);
        let played_moves = Vec::with_capacity(alloc, limit as usize)?;
        let mut index = Index::open(alloc)?;
        index.begin(&start);
        Ok(Game {
            board,
            start,
            played_moves,
            index,
            declared: None,
            limit,
        })
    }
}

impl<B: Board> Game<B> {
    /// Begins a new game from the position `start`: no moves, nothing declared; the limit stays.
    pub fn restart(&mut self, start: &Position)
        ensures { self.new ≡ with_state self.old (from_start start.now) }
    {
        self.board.set(start);
        self.index.clear(&self.start, self.played_moves.as_slice());
        self.start = Hashed::on(&self.board);
        self.index.begin(&self.start);
        self.played_moves.clear();
        self.declared = None;
    }

    /// Plays a move.
    ///
    /// # Errors
    /// The first reason against it, in the order of `PlayRefusal`. The game stays as it was.
    pub fn play(&mut self, m: Move) -> Result<(), PlayRefusal>
        ensures answer { result ≡ unless_refused (play_refusal self.old m) }
        ensures game { self.new ≡ after_play self.old m (play_refusal self.old m) }

        // The same in single facts.
        ensures refused { OnErr result (self.new ≡ self.old) }
        ensures over { (result ≡ Err PlayRefusal.Over) ↔ IsTrue (is_over self.old.state) }
        ensures too_long { result ≡ Err PlayRefusal.TooLong → self.old.limit ≤ length self.old.state.moves }
        ensures illegal { result ≡ Err PlayRefusal.Illegal → IsFalse (is_legal (current self.old.state) m) }
        ensures legal { OnOk result (IsTrue (is_legal (current self.old.state) m)) }
        ensures moves { OnOk result (self.new.state.moves ≡ self.old.state.moves ++ m ∷ []) }
        ensures undeclared { OnOk result (IsNone self.new.state.declared) }
        ensures kept { (self.new.limit ≡ self.old.limit) × (self.new.state.start ≡ self.old.state.start) }
    {
        if let Some(refusal) = self.refusal() {
            return Err(refusal);
        }
        // The prover wants two variables here: one move is lent, and one is given away.
        let judged = m;
        if !self.board.is_legal(&judged) {
            return Err(PlayRefusal::Illegal);
        }
        self.play_legal(m);
        Ok(())
    }

    /// Plays a move that is known to be legal, in a game that is not over and has fewer half-moves than its limit.
    #[inline(always)]
    pub fn play_legal(&mut self, m: Move)
        requires { play_refusal self.old m ≡ None }
        ensures { self.new ≡ after_play self.old m None }
    {
        // The prover wants two variables here: one move is given to the board, and one is kept.
        let made = m;
        let saved = self.board.make(made);
        let played_move = PlayedMove {
            made: m,
            captured: saved.captured,
            reached: Hashed::on(&self.board),
            entry: Entry {
                earlier: 0,
                count: 1,
            },
        };
        // There is room: `open` allocated memory for all half-moves that the limit allows.
        if self.played_moves.push(played_move).is_err() {
            unreachable!();
        }
        // The entry is written only now, into the played move in the list: so its position is copied once less than if
        // the entry were computed before the push.
        let last = self.played_moves.len() - 1;
        let (earlier, latest) = self.played_moves.as_slice().split_at(last);
        let entry = self.index.push(&self.start, earlier, &latest[0].reached);
        self.played_moves[last].entry = entry;
    }

    /// Takes the last move back, clears what was declared, and returns the move.
    ///
    /// # Errors
    /// If there is no move. The game stays as it was.
    pub fn take_back(&mut self) -> Result<Move, NoMove>
        ensures answer { result ≡ last_move self.old.state.moves }
        ensures game { self.new ≡ after_take_back self.old }

        // The same in single facts.
        ensures refused { OnErr result (self.new ≡ self.old) }
        ensures none { IsErr result ↔ (self.old.state.moves ≡ []) }
        ensures last { IfOk result (λ m. self.old.state.moves ≡ self.new.state.moves ++ m ∷ []) }
        ensures undeclared { OnOk result (IsNone self.new.state.declared) }
        ensures kept { (self.new.limit ≡ self.old.limit) × (self.new.state.start ≡ self.old.state.start) }
    {
        match self.played_moves.pop() {
            None => Err(NoMove),
            Some(played_move) => {
                self.index.pop(&played_move);
                let before = last_position(&self.start, self.played_moves.as_slice());
                let saved = before.saved(played_move.captured);
                // The prover wants two variables here: one move is given to the board, and one is returned.
                let made = played_move.made;
                self.board.take_back(made, saved);
                self.declared = None;
                Ok(played_move.made)
            }
        }
    }

    /// Declares a result, as after a resignation, in place of what was declared before. The game is then over, even if
    /// the outcome is `Unfinished`.
    ///
    /// # Errors
    /// If there is a verdict with another outcome. The game stays as it was.
    pub fn declare(&mut self, outcome: Outcome, comment: Comment) -> Result<(), BoardSaysOtherwise>
        ensures answer { result ≡ unless_refused (declare_refusal self.old outcome) }
        ensures game { self.new ≡ after_declare self.old (record { outcome = outcome; comment = comment }) }

        // The same in single facts.
        ensures refused { OnErr result (self.new ≡ self.old) }
        ensures free { IsNone (verdict_now self.old.state) → IsOk result }
        ensures declared { OnOk result
            (self.new.state.declared ≡ Some (record { outcome = outcome; comment = comment })) }
        ensures moves { self.new.state.moves ≡ self.old.state.moves }
        ensures kept { (self.new.limit ≡ self.old.limit) × (self.new.state.start ≡ self.old.state.start) }
    {
        if let Some(verdict) = self.verdict()
            && !verdict.outcome().is(outcome)
        {
            return Err(BoardSaysOtherwise);
        }
        self.declared = Some(Declared { outcome, comment });
        Ok(())
    }

    /// Like `declare`, but for a game that is known to have no verdict: it doesn't look for one, and can't fail.
    pub fn declare_open(&mut self, outcome: Outcome, comment: Comment)
        requires { verdict_now self.old.state ≡ None }
        ensures { self.new ≡ with_state self.old
            (record self.old.state { declared = Some (record { outcome = outcome; comment = comment }) }) }
    {
        let declared = Declared { outcome, comment };
        self.declared = Some(declared);
    }

    /// Clears the declared result.
    pub fn clear_declared(&mut self)
        ensures { self.new ≡ with_state self.old (record self.old.state { declared = None }) }
    {
        self.declared = None;
    }

    /// The position from which the game starts.
    // Inlined: where a caller uses only a field or two, the compiler then drops the unpacking of the pieces.
    #[inline(always)]
    pub fn start(&self) -> Position
        ensures { result ≡ self.now.state.start }
    {
        self.start.position.unpacked()
    }

    /// The variant of the position from which the game starts.
    pub fn variant(&self) -> Variant
        ensures { result ≡ self.now.state.start.variant }
    {
        self.start.position.variant()
    }

    /// The colour on move in the position from which the game starts.
    pub fn start_side(&self) -> Colour
        ensures { result ≡ self.now.state.start.side }
    {
        self.start.position.side()
    }

    /// The present position: the one that the current moves lead to from the start.
    pub fn position(&self) -> Position
        ensures value { result ≡ current self.now.state }
        ensures playable { IsPlayable self.now }
    {
        // The prover wants this fact: the start is sound, as the start of a playable game is.
        let _sound = self.start.position.halfmove();
        self.board.position()
    }

    /// The position after the first `ply` half-moves; at 0 the start.
    // Inlined for the same reason as `start`.
    #[inline(always)]
    pub fn position_at(&self, ply: usize) -> Position
        requires { ply ≤ length self.now.state.moves }
        ensures { result ≡ position_after self.now.state.start (take ply self.now.state.moves) }
    {
        let (first, _) = self.played_moves.as_slice().split_at(ply);
        last_position(&self.start, first).unpacked()
    }

    /// How many half-moves the game has.
    pub fn ply(&self) -> usize
        ensures { result ≡ length self.now.state.moves }
    {
        self.played_moves.len()
    }

    /// The half-move at index `ply`: 0 is the first.
    pub fn move_at(&self, ply: usize) -> Move
        requires { ply < length self.now.state.moves }
        ensures { slice_get self.now.state.moves ply ≡ Some result }
    {
        self.played_moves[ply].made
    }

    /// The current moves, from the first to the last.
    ///
    /// ```
    /// for m in game.moves() {
    ///     println!(rt; "{m}")?;
    /// }
    /// ```
    pub fn moves(&self) -> Moves<'_>
        ensures { result ≡ self.now.state.moves }
    {
        Moves::of(self.played_moves.as_slice())
    }

    /// The start, and the position after each of the current moves: one position more than there are moves.
    ///
    /// ```
    /// for position in game.positions() {
    ///     println!(rt; "{}", Fen::from(&position))?;
    /// }
    /// ```
    pub fn positions(&self) -> Positions<'_>
        ensures { result ≡ positions_of self.now.state.start self.now.state.moves }
    {
        Positions::of(&self.start.position, self.played_moves.as_slice())
    }

    /// The board, at the present position.
    pub fn board(&self) -> &B
        ensures { B.position result.now ≡ current self.now.state }
    {
        &self.board
    }

    /// How many positions from the start on are the same as the present one, itself among them (Laws of Chess 2023,
    /// article 9.2.3).
    pub fn repetitions(&self) -> u32
        ensures { result ≡ repetition_count self.now.state.start self.now.state.moves }
    {
        repetitions(self.played_moves.as_slice())
    }

    /// By what the player on move may claim a draw: the position is there for at least the third time, or each side has
    /// made at least 50 moves (100 half-moves in all) without a pawn move or capture.
    pub fn claims(&self) -> Claims
        ensures { result ≡ claims self.now.state.start self.now.state.moves }
    {
        Claims {
            threefold: self.repetitions() >= 3,
            fifty_moves: self.board.setup().halfmove >= 100,
        }
    }

    /// Why the game is over by its position and its moves (mate, stalemate, insufficient material, fivefold repetition,
    /// 75 moves), if it is.
    pub fn verdict(&self) -> Option<Verdict>
        ensures { result ≡ verdict_now self.now.state }
    {
        verdict_on(&self.board, self.played_moves.as_slice())
    }

    /// The same as `verdict`, but without its search for a legal move, for a caller that has one, `m`: so the game is
    /// neither mate nor stalemate. `m` is not played; only the contract names it, and a parameter can't be ghost.
    // Looking for a verdict only where it is needed, and by this function if a legal move is known, was one of four
    // changes that together took `verify` from 477 to 317 million instructions on 1.6 MB of games.
    #[inline(always)]
    pub fn verdict_of_moving(&self, m: &Move) -> Option<Verdict>
        requires { IsTrue (is_legal (current self.now.state) m.now) }
        ensures { result ≡ verdict_now self.now.state }
    {
        verdict_of_moving(&self.board, self.played_moves.as_slice())
    }

    /// The declared result, if there is one.
    pub fn declared(&self) -> Option<&Declared>
        ensures { option_map (λ d. d.now) result ≡ self.now.state.declared }
    {
        self.declared.as_ref()
    }

    /// The outcome of the verdict, otherwise of the declared result, otherwise `Unfinished`.
    pub fn outcome(&self) -> Outcome
        ensures { result ≡ outcome_now self.now.state }
    {
        match (self.verdict(), &self.declared) {
            (Some(verdict), _) => verdict.outcome(),
            (None, Some(declared)) => declared.outcome,
            (None, None) => Outcome::Unfinished,
        }
    }

    /// Whether the game is over: there is a verdict, or a result was declared.
    pub fn is_over(&self) -> bool
        ensures { result ≡ is_over self.now.state }
    {
        self.declared.is_some() || self.verdict().is_some()
    }

    // Why no move at all is played, given whether the game is over (`over`): it is over, or it has as many half-moves
    // as its limit allows; `None` if a move may be played.
    #[inline(always)]
    fn refusal_by(&self, over: bool) -> Option<PlayRefusal>
        requires { over ≡ is_over self.now.state }
        ensures value { result ≡ refusal_now self.now }
        ensures possible { result ≢ Some PlayRefusal.Illegal }
    {
        if over {
            Some(PlayRefusal::Over)
        } else if self.is_full() {
            Some(PlayRefusal::TooLong)
        } else {
            None
        }
    }

    /// Why the game takes no more moves: it is over, or else it has as many half-moves as its limit allows; `None` if a
    /// move may be played.
    pub fn refusal(&self) -> Option<PlayRefusal>
        ensures value { result ≡ refusal_now self.now }
        ensures possible { result ≢ Some PlayRefusal.Illegal }
    {
        self.refusal_by(self.is_over())
    }

    /// The same as `refusal`, but without its search for a legal move, for a caller that has one, `m` (see
    /// `verdict_of_moving`). `m` is not played; only the contract names it, and a parameter can't be ghost.
    #[inline(always)]
    pub fn refusal_of_moving(&self, m: &Move) -> Option<PlayRefusal>
        requires { IsTrue (is_legal (current self.now.state) m.now) }
        ensures value { result ≡ refusal_now self.now }
        ensures possible { result ≢ Some PlayRefusal.Illegal }
    {
        self.refusal_by(self.declared.is_some() || self.verdict_of_moving(m).is_some())
    }

    /// Whether the game has as many half-moves as its limit allows.
    pub fn is_full(&self) -> bool
        ensures value { result ≡ is_full self.now }
        ensures few { result ≡ false → length self.now.state.moves < MOST_MOVES }
    {
        self.played_moves.len() >= self.limit as usize
    }
}

impl<B: Board> fmt::Debug for Game<B> {
    // Writes the start, the moves, the declared result and the limit.
    fn fmt<W: fmt::Write>(&self, f: &mut fmt::Formatter<W>) -> fmt::Result {
        let start = self.start();
        let moves = self.moves();
        let declared = self.declared();
        f.debug_struct("Game")
            .field("start", &start)
            .field("moves", &moves)
            .field("declared", &declared)
            .field("limit", &self.limit)
            .finish()
    }
}
