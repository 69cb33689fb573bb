//! Pins and checks: which own pieces are free to go anywhere, and where the others may go.

ghost use Rattle.std.specs.Prelude.{◌≡◌, ◌<◌, ◌==◌, ◌&&◌, ◌||◌, not, is_none, ℕ, true, false, MatchOption};
ghost use Rattle.chess_base.specs.Attacks.{is_in_check};
ghost use Rattle.chess_base.specs.Men.{man_at, is_man};
ghost use Rattle.chess_base.specs.Squares.{is_between, is_at};
ghost use Rattle.chess_base.specs.declared.man.Kind.TheVariants.{King};
ghost use Rattle.chess_bits.specs.ties.Pins.{aims_from, KeepsClosed, IsShield, EndsOn, AreEvasions};
ghost use Rattle.chess_bits.specs.ties.Goes.{goes, IsFree};
ghost use Rattle.chess_moves.specs.Sets.{contains};

use crate::bits::Bits;
use crate::king::set_of;
use crate::table::Shape;
use chess_base::{Kind, Square};
use chess_moves::{Board, SquareSet};

// The effect of pins and checks on the pieces of the side on move, but the king: which may go anywhere, and where the
// others may go. It is found once, before the moves are listed or counted, or one is looked for (`has_easy_move`).
#[derive(Clone, Copy)]
pub(crate) struct Pins {
    // Pieces whose king is safe wherever they go (except perhaps by en passant): it is not in check, and they are not
    // pinned.
    pub(crate) free: SquareSet,
    // Each legal move of a piece that is neither free nor the king ends on one of these squares: the square of a
    // checker or pinner, a square between it and the king, or the en passant target. Moves to these squares may be
    // illegal all the same, so they are tested.
    pub(crate) evasions: SquareSet,
}

impl Bits<'_> {
    // The occupied squares strictly between the king on `king` and a possible pinner on `from`: an enemy queen, rook or
    // bishop that would attack the king if nothing were between them (`aims_from`). Pieces of both colours count.
    #[inline(always)]
    fn blockers(&self, king: Square, from: Square) -> SquareSet
        requires { aims_from self.now from king ≡ true }
        ensures { (k : ℕ) → k < 64
            → contains result k ≡ (is_between king from k && not (is_none (man_at (self.now).men k))) }
    {
        // The prover wants these facts: the numbers of both squares are below 64.
        let _king = king.number();
        let _from = from.number();
        let between = self.tables.between(king, from);
        between.intersection(self.sets.occupied())
    }

    // The square of the only piece, of either colour, between the king on `king` and a possible pinner on `from`;
    // `None` if no piece or more than one is there. The pinner is an enemy queen, rook or bishop that would attack the
    // king if nothing were between them (`aims_from`). `IsShield`: the line opens if this piece leaves, but not if any
    // other does (`KeepsClosed`).
    #[inline(always)]
    fn shield(&self, king: Square, from: Square) -> Option<Square>
        requires { aims_from self.now from king ≡ true }
        ensures { MatchOption result ((a : ℕ) → a < 64 → KeepsClosed self.now a from king)
            (λ s. IsShield self.now s from king) }
    {
        // The prover wants this fact: the position is sound.
        let _sound = self.setup();
        let blockers = self.blockers(king, from);
        if blockers.is_empty() {
            return None;
        }
        let shield = blockers.first();
        let others = blockers.without(SquareSet::single(shield));
        if others.is_empty() {
            Some(shield)
        } else {
            None
        }
    }

    // The squares to try against an attack on `king` by the enemy piece on `from`: `from` (a capture), the squares
    // between, and the en passant target (a pawn that has just given check may be taken so). Only moves to these
    // squares can be legal: in check for each piece but the king, otherwise for the piece that `from` pins.
    #[inline(always)]
    fn evasions(&self, king: Square, from: Square) -> SquareSet
        ensures { (k : ℕ) → k < 64 → ((is_between king from k || (k == from)) || is_at (self.now).target k) ≡ true
            → contains result k ≡ true }
    {
        // The prover wants these facts: the numbers of both squares are below 64.
        let _king = king.number();
        let _from = from.number();
        let between = self.tables.between(king, from);
        let met = between.union(SquareSet::single(from));
        met.union(set_of(self.setup.target))
    }

    // Adds to `pins` a pin by the enemy queen, rook or bishop on `from`, if a single piece is between it and the king
    // on `king`, which it would otherwise attack. That piece is taken out of the free ones, and the squares where it
    // may go are added to the evasions. If it is an enemy piece, it wasn't free, and the added squares do no harm:
    // moves to them are tested. `KeepsClosed`: a piece that is still free doesn't open this line if it leaves.
    #[inline(always)]
    fn add_pin(&self, king: Square, from: Square, pins: &mut Pins)
        requires king { is_man (self.now).side King (man_at (self.now).men king) ≡ true }
        requires aims { aims_from self.now from king ≡ true }
        ensures free { (a : ℕ) → a < 64 → contains pins.new.free a ≡ true
            → (contains pins.old.free a ≡ true) × KeepsClosed self.now a from king }
        ensures evasions { AreEvasions self.now pins.old.free pins.old.evasions → AreEvasions self.now pins.new.free pins.new.evasions }
    {
        // The prover wants these facts: the position is sound, and the numbers of both squares are below 64.
        let _sound = &self.setup;
        let _king = king.number();
        let _from = from.number();
        if let Some(shield) = self.shield(king, from) {
            pins.free = pins.free.without(SquareSet::single(shield));
            pins.evasions = pins.evasions.union(self.evasions(king, from));
        }
    }

    // The squares of the enemy queens and rooks on the king's rank and file, and of the enemy queens and bishops on its
    // diagonals (`aims_from`), whatever is between. If just one piece is between, and of the king's colour, it is
    // pinned; `add_pin` looks at that.
    #[inline(always)]
    #[tactic(auto, unfolding(crate::specs::ties::Shapes::in_shape))]
    fn possible_pinners(&self, king: Square) -> SquareSet
        ensures { (b : ℕ) → b < 64 → contains result b ≡ aims_from self.now b king }
    {
        let men = self.sets.of(self.setup.side.other());
        let straight = men.with_queens(Kind::Rook);
        let diagonal = men.with_queens(Kind::Bishop);
        let on_lines = straight.intersection(self.tables.at(Shape::Lines, king));
        on_lines.union(diagonal.intersection(self.tables.at(Shape::Diagonals, king)))
    }

    // Finds the free pieces, and the evasions of the others, if the king (on `king`) is not in check. At first all
    // pieces but the king count as free. Each possible pinner then takes out the piece that it pins.
    #[inline(always)]
    fn pins_without_check(&self, king: Square) -> Pins
        requires king { is_man (self.now).side King (man_at (self.now).men king) ≡ true }
        requires calm { is_in_check (self.now).men (self.now).side ≡ false }
        ensures free { (k : ℕ) → k < 64 → contains result.free k ≡ true → IsFree self.now k }
        ensures evasions { AreEvasions self.now result.free result.evasions }
    {
        // The prover wants this fact: the number of the king's square is below 64.
        let _king = king.number();
        let side = self.setup.side;
        let mut pins = Pins {
            free: self.sets.all(side).without(SquareSet::single(king)),
            evasions: SquareSet::empty(),
        };
        let mut rest = self.possible_pinners(king);
        while let Some(from) = rest.take_first() {
            self.add_pin(king, from, &mut pins);
        }
        pins
    }

    // Finds which pieces of the side on move are free (their king is safe wherever they go), and the evasions of the
    // others: the squares where their moves can end. In check no piece is free. Each but the king has to capture the
    // first checker, come between, or take en passant; these moves are still tested, so a second checker is noticed
    // then. With each move tested in positions with a check or a pin, the workload boards took 19 % longer.
    #[inline(always)]
    pub(crate) fn pins(&self) -> Pins
        ensures free { (k : ℕ) → k < 64 → contains result.free k ≡ true → IsFree self.now k }
        ensures evasions { AreEvasions self.now result.free result.evasions }
    {
        let side = self.setup.side;
        let king = self.king(side);
        let by = side.other();
        let men = self.sets.of(by);
        let checkers = men.attackers(self.tables, by, king, self.sets.occupied());
        if checkers.is_empty() {
            return self.pins_without_check(king);
        }
        Pins {
            free: SquareSet::empty(),
            evasions: self.evasions(king, checkers.first()),
        }
    }

    // The end squares to try for the piece on `from`, which is not the king: all its end squares if it is free (its
    // king is safe wherever it goes), otherwise only those in `pins.evasions`. Each of its legal moves ends on one of
    // them (`EndsOn`), and to each it has a pseudo-legal move (`goes`).
    #[inline(always)]
    pub(crate) fn allowed_targets(&self, from: Square, pins: &Pins) -> SquareSet
        requires no_king { is_man (self.now).side King (man_at (self.now).men from) ≡ false }
        requires evasions { AreEvasions self.now pins.now.free pins.now.evasions }
        ensures sound { (k : ℕ) → k < 64 → contains result k ≡ true → goes self.now from k ≡ true }
        ensures complete { EndsOn self.now from result }
    {
        // The prover wants this fact: the start's number is below 64.
        let _start = from.number();
        let targets = self.targets(from);
        if pins.free.contains(from) {
            return targets;
        }
        targets.intersection(pins.evasions)
    }
}
