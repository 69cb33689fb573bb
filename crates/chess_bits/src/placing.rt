//! Moves made and taken back in place: in a `Setup`, with its list of pieces, and in the sets of squares of these
//! pieces.

ghost use Rattle.std.specs.Prelude.{◌≡◌, ◌==◌, ◌&&◌, ◌||◌, IsTrue, Some, None, if◌then◌else◌};
ghost use Rattle.chess_base.specs.Before.{before, saved_of};
ghost use Rattle.chess_base.specs.Men.{man_at, other};
ghost use Rattle.chess_base.specs.shared.OneSquare.{with_man};
ghost use Rattle.chess_base.specs.Moves.{after, fullmove_after, is_legal, rights_after, target_after};
ghost use Rattle.chess_base.specs.Sound.{IsSound};
ghost use Rattle.chess_base.specs.Steps.{men_stepped};
ghost use Rattle.chess_bits.specs.ties.BoardSets.{IsSets};
ghost use Rattle.chess_bits.specs.ties.Changes.{clock_left, goes_plainly, has_no_right, is_king_or_rook, shifted, shifts};
ghost use Rattle.chess_bits.specs.ties.Occupancy.{IsOccupied};
ghost use Rattle.chess_moves.specs.Made.{IsMade};

use crate::keys::KeyTable;
use crate::sets::Sets;
use crate::squares::single_if;
use crate::targets::is_pawn;
use chess_base::rules::{
    Steps, fullmove_after, halfmove_after, is_at, is_man, rights_after, saved_of, steps_back,
    steps_of, target_after,
};
use chess_base::{COUNTER_LIMIT, Kind, Man, Move, Rights, Saved, Setup, Square};
use chess_moves::SquareSet;

// Puts `man`, a piece or nothing, on `square` in place of its content, both in the list of pieces and in the sets. It
// does nothing if `square` is `None`, as for a move without a second piece. `keys` are the Zobrist keys, with which the
// hash in `sets` is kept up to date.
#[inline(always)]
fn place(
    men: &mut [Option<Man>; 64],
    sets: &mut Sets,
    keys: &KeyTable,
    square: Option<Square>,
    man: Option<Man>,
)
    ensures men { men.new ≡ with_man men.old square man }
    ensures sets { IsSets sets.old men.old → IsSets sets.new men.new }
{
    if let Some(square) = square {
        let old = men[square.index()];
        sets.write(keys, square, old, man);
        men[square.index()] = man;
    }
}

// The squares that are not empty, found without a branch. The loop begins with h8 and ends with a1: at each square the
// bits found so far move up by one, and bit 0 becomes whether a piece is there. With a branch for each square, boards
// were set more slowly, and the workload puzzles took 6 % longer.
fn occupied_by(men: &[Option<Man>; 64]) -> SquareSet
    ensures { IsOccupied result men.now }
{
    let mut occupied = SquareSet::empty();
    for number in 0..64 {
        let square = Square::new(63 - number);
        let here = single_if(men[square.index()].is_some(), Square::new(0));
        occupied = occupied.raised(1).union(here);
    }
    occupied
}

impl Sets {
    /// Makes the sets of the pieces in `men`, the list of what is on each square (a1 first, h8 last), and their hash
    /// from the Zobrist keys `keys`. It is for a board that is set to a position; moves only change the sets.
    pub fn standing(keys: &KeyTable, men: &[Option<Man>; 64]) -> Sets
        ensures { IsSets result men.now }
    {
        let mut sets = Sets::empty();
        let mut rest = occupied_by(men);
        while let Some(square) = rest.take_first() {
            sets.fill(keys, square, men[square.index()]);
        }
        sets
    }
}

// Changes the pieces by the steps of a move, or of taking one back, both in the list of pieces and in the sets.
// (chess_base's `take_steps` changes a list alone.) Both pieces leave before one arrives, since in Chess960 a castling
// king and rook may change places. The second piece is the castling rook, a pawn taken en passant (it only leaves) or,
// when a move is taken back, the captured piece (it only arrives). `keys` are the Zobrist keys, with which the hash in
// `sets` is kept up to date.
fn take_steps(men: &mut [Option<Man>; 64], sets: &mut Sets, keys: &KeyTable, steps: &Steps)
    ensures men { men.new ≡ men_stepped men.old steps.now }
    ensures sets { IsSets sets.old men.old → IsSets sets.new men.new }
{
    place(men, sets, keys, Some(steps.from), None);
    place(men, sets, keys, steps.second_from, None);
    place(men, sets, keys, steps.second_to, steps.second);
    place(men, sets, keys, Some(steps.to), steps.mover);
}

// Whether neither colour has a castling right. Then no move is castling, and no move can cost a right.
#[inline(always)]
fn has_no_right(rights: &Rights) -> bool
    ensures { result ≡ has_no_right rights.now }
{
    rights.white.king_side.is_none()
        && rights.white.queen_side.is_none()
        && rights.black.king_side.is_none()
        && rights.black.queen_side.is_none()
}

// Whether `man`, the content of a square, is a king or a rook, of either colour; false for an empty square. Only moves
// and captures of these can cost a castling right.
#[inline(always)]
fn is_king_or_rook(man: Option<Man>) -> bool
    ensures { result ≡ is_king_or_rook man }
{
    match man {
        None => false,
        Some(man) => man.kind == Kind::King || man.kind == Kind::Rook,
    }
}

// Whether a move of `mover` to a square with the content `taken` (`None` if empty) may cost a castling right: one of
// the two is a king or a rook. If it is true, the right may be kept all the same.
#[inline(always)]
fn may_lose_right(mover: Man, taken: Option<Man>) -> bool
    ensures { result ≡ (is_king_or_rook (Some mover) || is_king_or_rook taken) }
{
    is_king_or_rook(Some(mover)) || is_king_or_rook(taken)
}

// The castling rights after the move `m` of `mover` to a square with the content `taken`. Two quick tests find most
// moves that cost no right: neither piece is a king or a rook, or no right is left. Only otherwise `rights_after`
// computes them.
#[inline(always)]
#[tactic(auto, using(crate::proofs::Making::none_lost, crate::proofs::Making::rights_kept))]
fn rights_left(setup: &Setup, m: &Move, mover: Man, taken: Option<Man>) -> Rights
    requires sound { IsSound setup.now }
    requires mover { man_at setup.now.men m.now.from ≡ Some mover }
    requires taken { man_at setup.now.men m.now.to ≡ taken }
    ensures { result ≡ rights_after setup.now m.now }
{
    if !may_lose_right(mover, taken) {
        return setup.rights;
    }
    if has_no_right(&setup.rights) {
        return setup.rights;
    }
    rights_after(setup, m)
}

// Whether the move `m`, of a piece of this kind, is surely neither castling nor en passant, so that it changes only its
// two squares. A king's move counts as sure only if no castling right is left. (The enemy's rights don't matter for
// that, but `has_no_right` asks for all four at once, and `rights_left` needs it too.) A pawn's move is sure if it
// doesn't go to the en passant target, and an officer's always.
#[inline(always)]
fn goes_plainly(setup: &Setup, m: &Move, kind: Kind) -> bool
    ensures { result ≡ goes_plainly setup.now m.now kind }
{
    match kind {
        Kind::King => has_no_right(&setup.rights),
        Kind::Pawn => !is_at(setup.target, m.to),
        _ => true,
    }
}

// Whether the move `m`, of a piece of this kind, surely takes the piece unchanged from its start to its end square, and
// changes no other square. It is false for promotions, castling and en passant, and for all king's moves while a
// castling right is left.
#[inline(always)]
fn shifts(setup: &Setup, m: &Move, kind: Kind) -> bool
    ensures { result ≡ shifts setup.now m.now kind }
{
    m.promotion.is_none() && goes_plainly(setup, m, kind)
}

// The piece that makes the move `m`, if `m` surely takes it from its start to its end square and changes no other
// square: then `make_move` makes it the fast way. `None` for a promotion, en passant, or a king's move with a castling
// right left, which may be castling; also if the start square is empty.
#[inline(always)]
fn shifted(setup: &Setup, m: &Move) -> Option<Man>
    ensures { result ≡ shifted setup.now m.now (man_at setup.now.men m.now.from) }
{
    let man = setup.men[m.from.index()]?;
    if shifts(setup, m, man.kind) {
        Some(man)
    } else {
        None
    }
}

// The en passant target after the move `m` of the piece `man`: the square that a pawn passes by a double step (e3 for
// e2e4); `None` after any other move. Only for a pawn is `target_after` asked, which looks at the board again.
#[inline(always)]
#[tactic(auto, using(crate::proofs::Making::officer_leaves_no_target))]
fn target_left(setup: &Setup, m: &Move, man: Man) -> Option<Square>
    requires { man_at setup.now.men m.now.from ≡ Some man }
    ensures { result ≡ target_after setup.now m.now }
{
    if is_pawn(man.kind) {
        target_after(setup, m)
    } else {
        None
    }
}

// The halfmove clock after a move of `man` to a square with the content `taken`: 0 after a pawn's move or a capture,
// otherwise one more than before, at most `COUNTER_LIMIT`. `shift` knows both contents; `halfmove_after`, which gives
// the same clock, would look at both squares again.
#[inline(always)]
fn halfmove_left(setup: &Setup, man: Man, taken: Option<Man>) -> u32
    ensures { result ≡ clock_left setup.now.halfmove man.kind taken }
{
    if is_pawn(man.kind) || taken.is_some() {
        0
    } else {
        setup.halfmove.saturating_add(1).min(COUNTER_LIMIT)
    }
}

// Changes in `setup` all that a move changes besides the pieces: the other side is on move, and the fullmove number
// rises after Black's move. Castling rights, en passant target and halfmove clock become the given ones. `move_on` of
// chess_moves ends with the same lines, but is private there, and changes the pieces without the sets.
#[inline(always)]
fn end_turn(setup: &mut Setup, rights: Rights, target: Option<Square>, halfmove: u32)
    ensures { setup.new ≡ record {
      variant = setup.old.variant;
      men = setup.old.men;
      side = other setup.old.side;
      rights = rights;
      target = target;
      halfmove = halfmove;
      fullmove = fullmove_after setup.old.side setup.old.fullmove;
    } }
{
    setup.fullmove = fullmove_after(setup.side, setup.fullmove);
    setup.side = setup.side.other();
    setup.rights = rights;
    setup.target = target;
    setup.halfmove = halfmove;
}

// Makes the legal move `m` of the piece `man` in place, in the setup and its sets: the fast way, for a move that only
// takes `man` from one square to another, perhaps with a capture (`shifted`). `make_in_steps` would do the same, but
// first finds out which squares change, where just two are known to do so here. The fast way, together with a faster
// reading of PGN's words and comments, took `verify` from 295 to 269 million instructions on 1.6 MB of games. Returns
// what is needed to take the move back. `keys` are the Zobrist keys, with which the hash in `sets` is kept up to date.
#[inline(always)]
fn shift(setup: &mut Setup, sets: &mut Sets, keys: &KeyTable, m: &Move, man: Man) -> Saved
    requires sound { IsSound setup.old }
    requires legal { IsTrue (is_legal setup.old m.now) }
    requires shifted { shifted setup.old m.now (man_at setup.old.men m.now.from) ≡ Some man }
    ensures setup { setup.new ≡ after setup.old m.now }
    ensures saved { result ≡ saved_of setup.old m.now }
    ensures sets { IsSets sets.old setup.old.men → IsSets sets.new setup.new.men }
{
    let taken = setup.men[m.to.index()];
    // `saved_of` gives this too, but would ask again what is captured, and where.
    let saved = Saved {
        captured: taken,
        rights: setup.rights,
        target: setup.target,
        halfmove: setup.halfmove,
        fullmove: setup.fullmove,
    };
    let rights = rights_left(setup, m, man, taken);
    let target = target_left(setup, m, man);
    let halfmove = halfmove_left(setup, man, taken);
    end_turn(setup, rights, target, halfmove);
    sets.clear(keys, m.to, taken);
    sets.shift(keys, man, m.from, m.to);
    setup.men[m.from.index()] = None;
    setup.men[m.to.index()] = Some(man);
    saved
}

// Makes the move `m`, of any kind, in place, in the setup and its sets, and returns what is needed to take it back. It
// changes up to four squares, `shift` only two. Few moves need it (castling, en passant, promotions, and a king's moves
// while a castling right is left), so it is not inlined. `keys` are the Zobrist keys, with which the hash in `sets` is
// kept up to date.
#[inline(never)]
#[tactic(auto, unfolding(chess_base::specs::Moves::after), using(chess_base::proofs::shared::MenAfter::men_after_by_steps))]
fn make_in_steps(setup: &mut Setup, sets: &mut Sets, keys: &KeyTable, m: &Move) -> Saved
    requires { IsSound setup.old }
    ensures setup { setup.new ≡ after setup.old m.now }
    ensures saved { result ≡ saved_of setup.old m.now }
    ensures sets { IsSets sets.old setup.old.men → IsSets sets.new setup.new.men }
{
    let saved = saved_of(setup, m);
    let rights = rights_after(setup, m);
    let target = target_after(setup, m);
    let halfmove = halfmove_after(setup, m);
    let steps = steps_of(setup, m);
    take_steps(&mut setup.men, sets, keys, &steps);
    end_turn(setup, rights, target, halfmove);
    saved
}

// Makes the legal move `m` in place, in the setup and its sets, and returns what is needed to take it back. Most moves
// only take a piece from one square to another, and are made the fast way (`shift`). `keys` are the Zobrist keys, with
// which the hash in `sets` is kept up to date.
#[inline(always)]
pub(crate) fn make_move(setup: &mut Setup, sets: &mut Sets, keys: &KeyTable, m: &Move) -> Saved
    requires sound { IsSound setup.old }
    requires legal { IsTrue (is_legal setup.old m.now) }
    ensures setup { setup.new ≡ after setup.old m.now }
    ensures saved { result ≡ saved_of setup.old m.now }
    ensures sets { IsSets sets.old setup.old.men → IsSets sets.new setup.new.men }
{
    let Some(man) = shifted(setup, m) else {
        return make_in_steps(setup, sets, keys, m);
    };
    shift(setup, sets, keys, m, man)
}

// Takes back the move `m`, which led to this setup, in place, in the setup and its sets. `saved` is the value that
// `make_move` returned for it: the captured piece, and rights, target and counters before the move. `IsMade` says that
// `m` and `saved` are such. `keys` are the Zobrist keys, with which the hash in `sets` is kept up to date.
#[tactic(auto, unfolding(chess_base::specs::Before::before), using(chess_base::proofs::shared::MenAfter::men_before_by_steps))]
pub(crate) fn move_back(
    setup: &mut Setup,
    sets: &mut Sets,
    keys: &KeyTable,
    m: &Move,
    saved: &Saved,
)
    requires { IsMade setup.old m.now saved.now }
    ensures setup { setup.new ≡ before setup.old m.now saved.now }
    ensures sets { IsSets sets.old setup.old.men → IsSets sets.new setup.new.men }
{
    let steps = steps_back(setup, m, saved);
    take_steps(&mut setup.men, sets, keys, &steps);
    // `move_back` of chess_moves ends with the same lines, but is private there, and keeps no sets. A public function
    // for these lines alone would take a setup that is no position: its pieces are those before the move, all else is
    // as after it.
    setup.side = setup.side.other();
    setup.rights = saved.rights;
    setup.target = saved.target;
    setup.halfmove = saved.halfmove;
    setup.fullmove = saved.fullmove;
}
