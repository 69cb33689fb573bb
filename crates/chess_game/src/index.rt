//! The index of a game's positions, which finds how often a position occurred with few comparisons.
//!
//! A position's hash puts it in one of 32,768 buckets. A bucket's head is the latest position in it. Each played move
//! has an entry for the position that it reached: a link to the latest earlier position in the same bucket, and how
//! often the position has occurred so far. Positions are numbered from 0, the start, on; a head or a link is a number
//! plus one, or 0 where there is no such position.

ghost use Rattle.std.specs.Prelude.{◌≡◌, ◌≤◌, ◌<◌, ◌+◌, ℕ, suc, false, [], ◌∷◌, ◌++◌, List, length, set, IfOk, cond};
ghost use Rattle.chess_game.specs.declared.game.PlayedMove.{PlayedMove};
ghost use Rattle.chess_game.specs.declared.game.TheConstants.{MOST_MOVES};
ghost use Rattle.chess_game.specs.declared.index.TheConstants.{BUCKETS};
ghost use Rattle.chess_game.specs.declared.repetition.Hashed.{Hashed};
ghost use Rattle.chess_game.specs.ties.PlayedMoves.{IsKnown, Hashing, HasHash, HaveHashes, Follows};
ghost use Rattle.chess_game.specs.ties.Buckets.{bucket, is_in, is_same_at, latest_below, count_below, IsNext, IsEmpty, HaveEntries, IsIndexed};

use crate::game::PlayedMove;
use crate::repetition::Hashed;
use chess_base::reserve_never_grows;
use std::alloc::{AllocError, Global};

// How many buckets there are: more than a game has positions, which are at most 20,001 (`MOST_MOVES` and the start).
const BUCKETS: usize = 32_768;

// What the index keeps for a position that a played move reached.
#[derive(Clone, Copy, PartialEq, Eq)]
pub(crate) struct Entry {
    // The latest earlier position in the bucket of this one: its number plus one, or 0 if there is none.
    pub(crate) earlier: u16,
    // How many of the positions up to this one, itself among them, are the same.
    pub(crate) count: u32,
}

// The index: for each bucket its head, the number plus one of the latest position in it, or 0.
#[derive(Drop)]
pub(crate) struct Index {
    heads: Vec<u16>,
}

// The number of the bucket that a position is put into, by its hash.
fn bucket(known: &Hashed) -> usize
    ensures value { result ≡ bucket known.now }
    ensures low { result < BUCKETS }
{
    (known.hash % BUCKETS as u64) as usize
}

// The number of the earliest position of the game that can be the same as `now`, the position after `played_moves` and
// one move more. It is the position to which the last capture or pawn move led: no placement of the pieces from before
// such a move can come again. The halfmove clock says how many half-moves ago the move was. If the game has no such
// move there, the result is 0, the start.
fn oldest(played_moves: &[PlayedMove], now: &Hashed) -> usize
    requires { IsKnown now.now }
    ensures { (start : Hashed) → Follows start.position played_moves.now → IsNext start played_moves.now now.now
        → (k : ℕ) → k < result → is_same_at start played_moves.now now.now.position k ≡ false }
{
    // The prover wants this law: the reserve of the pieces (each counts 1, a pawn also its ranks to go) falls with each
    // capture and pawn move, and never grows.
    reserve_never_grows();
    let ago = now.position.halfmove() as usize;
    if ago == 0 {
        return played_moves.len() + 1;
    }
    if ago > played_moves.len() {
        return 0;
    }
    let first = played_moves.len() - ago;
    let reached = &played_moves[first].reached;
    if reached.position.halfmove() == 0 {
        first + 1
    } else {
        0
    }
}

// How many positions of the game are the same as `now`, the position after `played_moves` and one move more, itself
// included: one more than the count of the latest earlier position that is the same, or 1 if none is. That position is
// looked for along the links of the bucket, from `head`, the bucket's latest position (its number plus one, or 0), back
// to `oldest`: none before that can be the same. In the walk `at` is a number plus one too: 0 is the end of the links,
// 1 the start, 2 what the first played move reached.
fn count_same(head: u16, start: &Hashed, played_moves: &[PlayedMove], now: &Hashed) -> u32
    requires start { IsKnown start.now }
    requires now { IsKnown now.now }
    requires follows { Follows start.now.position played_moves.now }
    requires made { IsNext start.now played_moves.now now.now }
    requires hashes { (f : Hashing) × HaveHashes f start.now played_moves.now × HasHash f now.now }
    requires few { length played_moves.now < MOST_MOVES }
    requires entries { HaveEntries start.now played_moves.now }
    requires head { head ≡ latest_below (is_in start.now played_moves.now (bucket now.now))
        (suc (length played_moves.now)) }
    ensures { result ≡ suc (count_below (is_same_at start.now played_moves.now now.now.position)
        (suc (length played_moves.now))) }
{
    // The prover wants this fact: a position is sound, so it has an element for each of the 64 squares.
    let _sound = now.position.halfmove();
    if head == 0 {
        return 1;
    }
    let oldest = oldest(played_moves, now);
    let mut at = head as usize;
    while at > 1 {
        if at <= oldest {
            return 1;
        }
        let played_move = &played_moves[at - 2];
        if played_move.reached.is_same(now) {
            return played_move.entry.count + 1;
        }
        at = played_move.entry.earlier as usize;
    }
    if at == 0 {
        1
    } else {
        1 + start.times_same(now)
    }
}

impl Index {
    // An index without positions. Its heads are all the memory that it allocates.
    pub(crate) fn open(alloc: Global) -> Result<Self, AllocError>
        ensures { IfOk result (λ x. IsEmpty x.heads.items) }
    {
        Ok(Index {
            heads: vec![in alloc; 0; BUCKETS]?,
        })
    }

    // Adds the start of a game to an empty index: as the head of its bucket, which is its number plus one, 1.
    pub(crate) fn begin(&mut self, start: &Hashed)
        requires { IsEmpty self.old.heads.items }
        ensures { IsIndexed self.new.heads.items start.now [] }
    {
        self.heads[bucket(start)] = 1;
    }

    // Adds the position `reached`, to which one move after `played_moves` led, to its bucket, and returns its entry.
    // Its number is that of the moves before it plus one; as the head of its bucket it is written as one more.
    pub(crate) fn push(
        &mut self,
        start: &Hashed,
        played_moves: &[PlayedMove],
        reached: &Hashed,
    ) -> Entry
        requires start { IsKnown start.now }
        requires known { IsKnown reached.now }
        requires follows { Follows start.now.position played_moves.now }
        requires made { IsNext start.now played_moves.now reached.now }
        requires hashes { (f : Hashing) × HaveHashes f start.now played_moves.now × HasHash f reached.now }
        requires few { length played_moves.now < MOST_MOVES }
        requires indexed { IsIndexed self.old.heads.items start.now played_moves.now }
        ensures { (x : PlayedMove) → x.reached ≡ reached.now → x.entry ≡ result
            → IsIndexed self.new.heads.items start.now (played_moves.now ++ x ∷ []) }
    {
        let number = bucket(reached);
        let head = self.heads[number];
        let count = count_same(head, start, played_moves, reached);
        self.heads[number] = played_moves.len() as u16 + 2;
        Entry {
            earlier: head,
            count,
        }
    }

    // Removes the latest position of its bucket, which this played move reached; the bucket's head is then the position
    // that its entry links to.
    fn remove(&mut self, played_move: &PlayedMove)
        requires { length self.old.heads.items ≡ BUCKETS }
        ensures { self.new.heads.items ≡ set self.old.heads.items (bucket played_move.now.reached)
            played_move.now.entry.earlier }
    {
        self.heads[bucket(&played_move.reached)] = played_move.entry.earlier;
    }

    // Removes the last position of a game, the one that this played move reached.
    pub(crate) fn pop(&mut self, played_move: &PlayedMove)
        requires { (start : Hashed) × (xs : List PlayedMove) × IsIndexed self.old.heads.items start
            (xs ++ played_move.now ∷ []) }
        ensures { (start : Hashed) (xs : List PlayedMove) → IsIndexed self.old.heads.items start
            (xs ++ played_move.now ∷ []) → IsIndexed self.new.heads.items start xs }
    {
        self.remove(played_move);
    }

    // Removes all positions of the game from `start` by `played_moves`, one by one from the last, and the start: so the
    // time that this takes depends on the game's length, not on the number of buckets.
    pub(crate) fn clear(&mut self, start: &Hashed, played_moves: &[PlayedMove])
        requires { IsIndexed self.old.heads.items start.now played_moves.now }
        ensures { IsEmpty self.new.heads.items }
    {
        let mut left = played_moves.len();
        while left > 0 {
            left -= 1;
            self.remove(&played_moves[left]);
        }
        self.heads[bucket(start)] = 0;
    }
}
