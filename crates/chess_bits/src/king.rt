//! Whether the king is safe after a move, found from sets of squares without making the move.

ghost use Rattle.std.specs.Prelude.{◌≡◌, ◌==◌, ◌&&◌, ◌||◌, not, ◌<◌, ℕ, map, true, Option, None, Some};
ghost use Rattle.chess_base.specs.Men.{man_at, is_man};
ghost use Rattle.chess_base.specs.MoveList.{move_of};
ghost use Rattle.chess_base.specs.Moves.{is_pseudo_legal, is_legal, man_moves, men_after, promotion_fits, steps_of};
ghost use Rattle.chess_base.specs.Squares.{is_at};
ghost use Rattle.chess_base.specs.declared.man.Kind.{Kind as ManKind};
ghost use Rattle.chess_base.specs.declared.man.Kind.TheVariants.{King, Pawn};
ghost use Rattle.chess_bits.specs.ties.Changes.{StepsPlainly, is_changed, is_filled};
ghost use Rattle.chess_bits.specs.ties.Goes.{goes};
ghost use Rattle.chess_moves.specs.shared.MovesBySquares.{moves_between};
ghost use Rattle.chess_moves.specs.Promoting.{would_promote};
ghost use Rattle.chess_moves.specs.Sets.{contains};

use crate::bits::Bits;
use crate::squares::filter;
use chess_base::rules::{PROMOTIONS, Steps, is_at, is_man, steps_of};
use chess_base::{Kind, Move, Square};
use chess_moves::{SquareSet, would_promote};

// The set that has just the given square; the empty set for `None`.
#[tactic(auto, using(chess_base::proofs::shared::MenAfter::eqb_comm))]
pub(crate) fn set_of(square: Option<Square>) -> SquareSet
    ensures { (k : ℕ) → contains result k ≡ is_at square k }
{
    match square {
        None => SquareSet::empty(),
        Some(square) => SquareSet::single(square),
    }
}

// The squares on which pieces arrive in a move that makes these steps: where the mover arrives, and in castling where
// the rook does.
#[inline(always)]
fn filled_by(steps: &Steps) -> SquareSet
    ensures { (k : ℕ) → contains result k ≡ ((steps.now.to == k) || is_at steps.now.second_to k) }
{
    let to = set_of(Some(steps.to));
    to.union(set_of(steps.second_to))
}

// The squares that pieces leave in a move that makes these steps: the mover's start square, and the one of the castling
// rook or of the pawn taken en passant.
#[inline(always)]
fn emptied_by(steps: &Steps) -> SquareSet
    ensures { (k : ℕ) → contains result k ≡ (is_at steps.now.second_from k || (steps.now.from == k)) }
{
    let second = set_of(steps.second_from);
    second.union(set_of(Some(steps.from)))
}

impl Bits<'_> {
    // The square where the king of the side on move is after a pseudo-legal move: where the mover arrives if it is the
    // king, otherwise where the king is now. `steps` are what the move changes on the board.
    fn king_after(&self, steps: &Steps) -> Square
        ensures there { (m : Move) → is_pseudo_legal self.now m ≡ true → steps.now ≡ steps_of self.now m
            → is_man (self.now).side King (man_at (men_after self.now m) result) ≡ true }
        ensures in_range { result < 64 }
    {
        // The prover wants this fact: the number of the square where the mover arrives is below 64.
        let _end = steps.to.number();
        if is_man(self.setup.side, Kind::King, steps.mover) {
            steps.to
        } else {
            self.king(self.setup.side)
        }
    }

    // Whether a pseudo-legal move is legal: after it no enemy piece attacks `king`, the square where the king of the
    // side on move then is. The move is given by what it changes: `filled` are the squares on which pieces arrive,
    // `changed` these and the ones that pieces leave. An enemy piece on one of `changed` is captured.
    #[inline(always)]
    fn is_safe_at(&self, king: Square, filled: SquareSet, changed: SquareSet) -> bool
        ensures { (m : Move) → is_pseudo_legal self.now m ≡ true → king < 64
            → is_man (self.now).side King (man_at (men_after self.now m) king) ≡ true
            → ((k : ℕ) → k < 64 → contains filled k ≡ is_filled self.now m k)
            → ((k : ℕ) → k < 64 → contains changed k ≡ is_changed self.now m k)
            → result ≡ is_legal self.now m }
    {
        let kept = self.sets.occupied().without(changed);
        let occupied = filled.union(kept);
        let by = self.setup.side.other();
        let men = self.sets.of(by);
        !men.attacks_outside(self.tables, by, king, occupied, changed)
    }

    // Whether an ordinary move of the king (no castling), from `king` to `to`, is legal: no enemy piece attacks `to`
    // once the king has left its square. When this and `king_ends` were not inlined, as the compiler chose, counting
    // took a fifth more instructions.
    #[inline(always)]
    pub(crate) fn is_safe_step(&self, king: Square, to: Square) -> bool
        ensures { is_man (self.now).side King (man_at (self.now).men king) ≡ true
            → man_moves self.now (move_of king to None) ≡ true → result ≡ is_legal self.now (move_of king to None) }
    {
        // The prover wants these facts: the numbers of both squares are below 64.
        let _start = king.number();
        let _end = to.number();
        let by = self.setup.side.other();
        let left = self.sets.occupied().without(SquareSet::single(king));
        !self.sets.of(by).attacks(self.tables, by, to, left)
    }

    // The squares to which the king on `king` may legally go, by a step or by castling. When each move got the general
    // test, `is_safe_after`, lists of moves in late endings took 13 % longer.
    #[inline(always)]
    pub(crate) fn king_ends(&self, king: Square) -> SquareSet
        requires { is_man (self.now).side King (man_at (self.now).men king) ≡ true }
        ensures { (k : ℕ) → k < 64 → contains result k ≡ is_legal self.now (move_of king k None) }
    {
        // The prover wants this fact: the number of the king's square is below 64.
        let _start = king.number();
        let steps = self.targets_by_attack(Kind::King, king);
        let safe = filter(steps, |to| self.is_safe_step(king, to));
        self.castling_ends(king).union(safe)
    }

    // Whether the move `m` is neither the king's nor a pawn's to the en passant target: then only what is on its two
    // squares changes, and the king stays where it is. `goes_plainly` of placing.rt also accepts the king's moves, if
    // there are no castling rights: they too change only two squares, but the king has to be safe where it goes, not
    // where it is.
    #[inline(always)]
    fn steps_plainly(&self, m: &Move) -> bool
        ensures { result ≡ (not (is_man (self.now).side King (man_at (self.now).men m.now.from))
            && not (is_man (self.now).side Pawn (man_at (self.now).men m.now.from)
            && is_at (self.now).target m.now.to)) }
    {
        let side = self.setup.side;
        let man = self.setup.men[m.from.index()];
        !is_man(side, Kind::King, man)
            && !(is_man(side, Kind::Pawn, man) && is_at(self.setup.target, m.to))
    }

    // Whether a pseudo-legal move is legal: the mover's king is not attacked after it. Most moves change only two
    // squares, and get the short test (`is_safe_plain`). When the steps of each move were computed, by a function that
    // was not inlined, the workload boards was 4 % slower.
    #[inline(always)]
    pub(crate) fn is_safe_after(&self, m: &Move) -> bool
        ensures { is_pseudo_legal self.now m.now ≡ true → result ≡ is_legal self.now m.now }
    {
        if self.steps_plainly(m) {
            return self.is_safe_plain(m.from, m.to);
        }
        self.is_safe_by(&steps_of(&self.setup, m))
    }

    // Whether a pseudo-legal move is legal: the mover's king is not attacked after it. `steps` are what the move
    // changes on the board. Only moves of the king, castling included, and captures en passant come here, so it is not
    // inlined.
    #[inline(never)]
    pub(crate) fn is_safe_by(&self, steps: &Steps) -> bool
        ensures { (m : Move) → is_pseudo_legal self.now m ≡ true → steps.now ≡ steps_of self.now m
            → result ≡ is_legal self.now m }
    {
        let king = self.king_after(steps);
        let filled = filled_by(steps);
        let changed = filled.union(emptied_by(steps));
        self.is_safe_at(king, filled, changed)
    }

    // Whether a pseudo-legal move from `from` to `to` is legal. The caller knows that it is not the king's and not en
    // passant (`StepsPlainly`), so only what is on its two squares changes. A promotion makes no difference to the
    // king's safety.
    #[inline(always)]
    pub(crate) fn is_safe_plain(&self, from: Square, to: Square) -> bool
        ensures { (promotion : Option ManKind) → StepsPlainly self.now (move_of from to promotion)
            → result ≡ is_legal self.now (move_of from to promotion) }
    {
        let filled = SquareSet::single(to);
        let changed = filled.union(SquareSet::single(from));
        let king = self.king(self.setup.side);
        self.is_safe_at(king, filled, changed)
    }

    // Whether the pawn on `from` may legally promote on `to`: to queen, rook, bishop and knight alike, or to none of
    // them, since the king's safety doesn't depend on the kind. With a test for each kind, counting moves with three
    // such pawns a side took 1.4 times as long.
    fn promotes_legally(&self, from: Square, to: Square) -> bool
        requires goes { goes self.now from to ≡ true }
        requires promotes { would_promote self.now from to ≡ true }
        ensures { (kind : ManKind) → promotion_fits true (Some kind) ≡ true
            → result ≡ is_legal self.now (move_of from to (Some kind)) }
    {
        // The prover wants this fact: the position is sound.
        let _sound = &self.setup;
        self.is_safe_plain(from, to)
    }

    // The promotions with which a move from `from` to `to` is legal: queen, rook, bishop and knight if a pawn promotes
    // there, otherwise the one entry `None`, for the move without a promotion. The slice is empty if the king would be
    // attacked. The caller knows that some move between the two is pseudo-legal (`goes`). chess_moves'
    // `add_moves_between` makes the same choice, but asks of each promotion apart whether the move is legal.
    #[inline(always)]
    pub(crate) fn legal_promotions(&self, from: Square, to: Square) -> &'static [Option<Kind>]
        requires { goes self.now from to ≡ true }
        ensures { map (move_of from to) result.now ≡ moves_between self.now from to }
    {
        if would_promote(&self.setup, from, to) {
            if self.promotes_legally(from, to) {
                &PROMOTIONS
            } else {
                &[]
            }
        } else {
            let m = Move {
                from,
                to,
                promotion: None,
            };
            if self.is_safe_after(&m) { &[None] } else { &[] }
        }
    }
}
