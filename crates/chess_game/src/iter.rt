//! The iterators over a game: its moves, and its positions.

ghost use Rattle.std.specs.Prelude.{◌≡◌, ⊤, length, IfSome};
ghost use Rattle.std.specs.Iterator.{UpTo, YieldsFirst, YieldsLast, item_count};
ghost use Rattle.std.specs.Iterator.SizeHint.{IsExactHint, IsWithinCount};
ghost use Rattle.chess_game.specs.Line.{positions_of};
ghost use Rattle.chess_game.specs.ties.PlayedMoves.{moves_of, Follows};

use crate::game::PlayedMove;
use crate::packed::PackedPosition;
use chess_base::{Move, Position};
use std::alloc::AllocError;
use std::fmt;
use std::iter::FusedIterator;
use std::marker::Model;

/// The moves of a game in order, as `Game::moves` returns them. In contracts it is the list of those that are left.
#[derive(Drop)]
pub struct Moves<'g> {
    left: &'g [PlayedMove],
}

impl<'g> Model for Moves<'g> {
    ghost use Rattle.std.specs.Prelude.{List};
    ghost use Rattle.chess_base.specs.declared.man.Move.{Move};

    ghost Value = { List Move };

    ghost use Rattle.chess_game.specs.ties.PlayedMoves.{moves_of};

    ghost view = { λ it. moves_of it.left.now };
}

impl<'g> Moves<'g> {
    // The iterator over a game's moves; `played_moves` is what the game keeps of each of them.
    pub(crate) fn of(played_moves: &'g [PlayedMove]) -> Self
        ensures { result ≡ moves_of played_moves.now }
    {
        Moves { left: played_moves }
    }
}

impl<'g> Clone for Moves<'g> {
    ghost is_clone = { λ it copy. copy ≡ it };

    ghost is_infallible = { λ _. ⊤ };

    // A copy, with the same moves left.
    fn clone(&self) -> Result<Self, AllocError> {
        Ok(Moves { left: self.left })
    }
}

impl<'g> Iterator for Moves<'g> {
    type Item = Move;

    ghost next_gives = { YieldsFirst (λ left. left) };

    ghost remaining = { item_count (λ left. left) };

    // The first of the moves that are left; `None` if none is.
    fn next(&mut self) -> Option<Move> {
        let (first, others) = self.left.split_first()?;
        self.left = others;
        Some(first.made)
    }

    // How many moves are left, as lower and as upper bound.
    fn size_hint(&self) -> (usize, Option<usize>)
        ensures lower { IsWithinCount result.0 (item_count (λ left. left) self.now) }
        ensures upper { IfSome result.1 (UpTo (item_count (λ left. left) self.now)) }
        ensures exact { IsExactHint result (length self.now) }
    {
        (self.left.len(), Some(self.left.len()))
    }
}

impl<'g> DoubleEndedIterator for Moves<'g> {
    ghost next_back_gives = { YieldsLast (λ left. left) };

    // The last of the moves that are left; `None` if none is.
    fn next_back(&mut self) -> Option<Move> {
        let (last, others) = self.left.split_last()?;
        self.left = others;
        Some(last.made)
    }
}

impl<'g> ExactSizeIterator for Moves<'g> {
    // How many moves are left.
    fn len(&self) -> usize {
        self.left.len()
    }
}

impl<'g> FusedIterator for Moves<'g> {}

impl<'g> fmt::Debug for Moves<'g> {
    // Writes the list of the moves that are left.
    fn fmt<W: fmt::Write>(&self, f: &mut fmt::Formatter<W>) -> fmt::Result {
        let left = Moves { left: self.left };
        f.debug_list().entries(left).finish()
    }
}

/// The positions of a game in order, as `Game::positions` returns them. In contracts it is the list of those that are
/// left.
#[derive(Drop)]
pub struct Positions<'g> {
    // The start, until it was returned.
    start: Option<&'g PackedPosition>,
    left: &'g [PlayedMove],
}

impl<'g> Model for Positions<'g> {
    ghost use Rattle.std.specs.Prelude.{List};
    ghost use Rattle.chess_base.specs.declared.setup.Setup.{Setup};

    ghost Value = { List Setup };

    ghost use Rattle.chess_game.specs.ties.PositionsLeft.{positions_left};

    ghost view = { λ it. positions_left it.start it.left.now };
}

impl<'g> Positions<'g> {
    // The iterator over a game's positions: `start`, and the position that each of `played_moves` reached.
    #[tactic(auto, using(crate::proofs::Reached::reached_are))]
    pub(crate) fn of(start: &'g PackedPosition, played_moves: &'g [PlayedMove]) -> Self
        requires { Follows start.now played_moves.now }
        ensures { result ≡ positions_of start.now (moves_of played_moves.now) }
    {
        Positions {
            start: Some(start),
            left: played_moves,
        }
    }
}

impl<'g> Clone for Positions<'g> {
    ghost is_clone = { λ it copy. copy ≡ it };

    ghost is_infallible = { λ _. ⊤ };

    // A copy, with the same positions left.
    fn clone(&self) -> Result<Self, AllocError> {
        Ok(Positions {
            start: self.start,
            left: self.left,
        })
    }
}

impl<'g> Iterator for Positions<'g> {
    type Item = Position;

    ghost next_gives = { YieldsFirst (λ left. left) };

    ghost remaining = { item_count (λ left. left) };

    // The first of the positions that are left; `None` if none is.
    fn next(&mut self) -> Option<Position> {
        if let Some(start) = self.start {
            self.start = None;
            return Some(start.unpacked());
        }
        let (first, others) = self.left.split_first()?;
        self.left = others;
        Some(first.reached.position.unpacked())
    }

    // How many positions are left, as lower and as upper bound.
    fn size_hint(&self) -> (usize, Option<usize>)
        ensures lower { IsWithinCount result.0 (item_count (λ left. left) self.now) }
        ensures upper { IfSome result.1 (UpTo (item_count (λ left. left) self.now)) }
        ensures exact { IsExactHint result (length self.now) }
    {
        (self.len(), Some(self.len()))
    }
}

impl<'g> DoubleEndedIterator for Positions<'g> {
    ghost next_back_gives = { YieldsLast (λ left. left) };

    // The last of the positions that are left; `None` if none is.
    fn next_back(&mut self) -> Option<Position> {
        if let Some((last, others)) = self.left.split_last() {
            self.left = others;
            return Some(last.reached.position.unpacked());
        }
        let start = self.start?;
        self.start = None;
        Some(start.unpacked())
    }
}

impl<'g> ExactSizeIterator for Positions<'g> {
    // How many positions are left.
    fn len(&self) -> usize {
        if self.start.is_some() {
            self.left.len() + 1
        } else {
            self.left.len()
        }
    }
}

impl<'g> FusedIterator for Positions<'g> {}

impl<'g> fmt::Debug for Positions<'g> {
    // Writes only how many positions are left: each, written out, has 64 squares.
    fn fmt<W: fmt::Write>(&self, f: &mut fmt::Formatter<W>) -> fmt::Result {
        let left = self.len();
        f.debug_struct("Positions").field("left", &left).finish()
    }
}
