//! How many legal moves there are, and whether there is one: piece by piece. No list is made, since its 3,592 bytes
//! would be cleared and filled only to see how long it is.

ghost use Rattle.std.specs.Prelude.{◌≡◌, ◌+◌, ◌≤◌, ◌<◌, ◌||◌, ℕ, length, nat_lt, true, false};
ghost use Rattle.std.specs.List.{flat_map};
ghost use Rattle.chess_base.specs.Men.{man_at, is_man, same_kind};
ghost use Rattle.chess_base.specs.MoveList.{moves};
ghost use Rattle.chess_base.specs.declared.man.Kind.TheVariants.{King, Pawn};
ghost use Rattle.chess_bits.specs.ties.Pins.{AreEvasions, EndsOn};
ghost use Rattle.chess_bits.specs.ties.Goes.{goes, IsFree, AreFree, GoesFreely};
ghost use Rattle.chess_moves.specs.shared.MovesBySquares.{moves_between, moves_from};
ghost use Rattle.chess_moves.specs.Sets.{contains, members};

use crate::bits::Bits;
use crate::pinning::Pins;
use crate::squares::any;
use crate::targets::is_pawn;
use chess_base::rules::is_man;
use chess_base::{Kind, Square};
use chess_moves::{Board, SquareSet};

impl Bits<'_> {
    // How many legal moves there are from `from` to `to`: four for a pawn that promotes there, otherwise one; 0 if they
    // would leave the king attacked. The caller knows that some move between the two is pseudo-legal (`goes`).
    fn count_between(&self, from: Square, to: Square) -> usize
        requires { goes self.now from to ≡ true }
        ensures { result ≡ length (moves_between self.now from to) }
    {
        self.legal_promotions(from, to).len()
    }

    // How many legal moves there are from the square `from`, where the caller knows that all of them end on squares of
    // `ends` (`all`), and that a move to each of these is pseudo-legal (`goes`). Each is tested. (`few`: a list of
    // moves holds 896, so the sum can't overflow.)
    fn count_to(&self, from: Square, ends: SquareSet) -> usize
        requires goes { (k : ℕ) → k < 64 → contains ends k ≡ true → goes self.now from k ≡ true }
        requires all { EndsOn self.now from ends }
        requires few { length (moves_from self.now from) ≤ 896 }
        ensures { result ≡ length (moves_from self.now from) }
    {
        let mut count = 0;
        let mut targets = ends;
        while let Some(to) = targets.take_first() {
            count += self.count_between(from, to);
        }
        count
    }

    // How many legal moves the king on the square `king` has: one to each square where it may go, castling included.
    #[tactic(auto, using(crate::proofs::KingListed::king_counted))]
    fn count_king(&self, king: Square) -> usize
        requires { is_man (self.now).side King (man_at (self.now).men king) ≡ true }
        ensures { result ≡ length (moves_from self.now king) }
    {
        self.king_ends(king).len()
    }

    // How many legal moves the piece on `from` has, a queen, rook, bishop or knight (`kind` says which). It is free:
    // its king is safe wherever it goes, so it has one to each square that it attacks and that no own piece holds.
    #[inline(always)]
    fn count_officer(&self, kind: Kind, from: Square) -> usize
        requires kind { (same_kind King kind || same_kind Pawn kind) ≡ false }
        requires officer { is_man (self.now).side kind (man_at (self.now).men from) ≡ true }
        requires free { IsFree self.now from }
        ensures { result ≡ length (moves_from self.now from) }
    {
        // The prover wants these facts: the start's number is below 64, and the king is on one square only.
        let _start = from.number();
        let _king = self.king(self.setup.side);
        self.targets_by_attack(kind, from).len()
    }

    // How many legal moves the pieces on the squares `men` have. They are all of this kind (neither king nor pawn) and
    // free: their king is safe wherever they go. The sums here, in `count_to` and in `count_each` are loops: with a
    // helper that takes a closure, as `any` does, the closure was not inlined for each kind, and counting took 15 %
    // more instructions.
    #[inline(always)]
    fn count_officers(&self, kind: Kind, men: SquareSet) -> usize
        requires kind { (same_kind King kind || same_kind Pawn kind) ≡ false }
        requires free { AreFree self.now kind men }
        requires few { length (flat_map (λ a. moves_from self.now a) (members men)) ≤ 896 }
        ensures { result ≡ length (flat_map (λ a. moves_from self.now a) (members men)) }
    {
        let mut count = 0;
        let mut rest = men;
        while let Some(from) = rest.take_first() {
            count += self.count_officer(kind, from);
        }
        count
    }

    // Counts the legal moves of the pieces of this kind, not the king, that are in both sets, `ordinary` and `men`. It
    // takes these pieces out of `men`, which then has those that remain to be counted: their moves and the result add
    // up to the moves of the old `men`. Pieces in `ordinary` are free (their king is safe wherever they go), and no
    // pawns that may promote or take en passant.
    #[inline(always)]
    fn count_kind(&self, kind: Kind, ordinary: SquareSet, men: &mut SquareSet) -> usize
        requires kind { same_kind King kind ≡ false }
        requires ordinary { (k : ℕ) → k < 64 → contains ordinary k ≡ true → GoesFreely self.now k }
        ensures { result + length (flat_map (λ a. moves_from self.now a) (members men.new))
            ≡ length (flat_map (λ a. moves_from self.now a) (members men.old)) }
    {
        // The prover wants this fact: the position is sound, so its legal moves fit into a list.
        let _sound = self.setup();
        let before = *men;
        let own = self.sets.of(self.setup.side);
        let chosen = own.of(kind).intersection(ordinary);
        let taken = before.intersection(chosen);
        *men = before.without(chosen);
        if is_pawn(kind) {
            self.count_ordinary_pawns(taken)
        } else {
            self.count_officers(kind, taken)
        }
    }

    // How many legal moves the piece on `from` has, which may be the king or pinned. For the king `count_king` answers.
    // For another piece, each pseudo-legal move to a square that `pins` leaves to it is tested; it has no other legal
    // moves (`evasions`).
    fn count_judged(&self, from: Square, pins: &Pins) -> usize
        requires evasions { AreEvasions self.now pins.now.free pins.now.evasions }
        requires few { length (moves_from self.now from) ≤ 896 }
        ensures { result ≡ length (moves_from self.now from) }
    {
        if is_man(self.setup.side, Kind::King, self.setup.men[from.index()]) {
            return self.count_king(from);
        }
        self.count_to(from, self.allowed_targets(from, pins))
    }

    // How many legal moves the pieces on the squares `men` have: `count_judged` of each, added up. It is called for the
    // king and the pieces that aren't ordinary. (`few`: a list of moves holds 896, so no sum can overflow.)
    fn count_each(&self, men: SquareSet, pins: &Pins) -> usize
        requires evasions { AreEvasions self.now pins.now.free pins.now.evasions }
        requires few { length (flat_map (λ a. moves_from self.now a) (members men)) ≤ 896 }
        ensures { result ≡ length (flat_map (λ a. moves_from self.now a) (members men)) }
    {
        let mut count = 0;
        let mut rest = men;
        while let Some(from) = rest.take_first() {
            count += self.count_judged(from, pins);
        }
        count
    }

    // How many legal moves there are. First come the ordinary pieces (their king is safe wherever they go, and they are
    // no pawns that may promote or take en passant), counted kind by kind without a test of each move. Each call of
    // `count_kind` takes the pieces that it counts out of `men`, so the others are left there. They come one by one:
    // the king, the remaining pawns, and pieces that are pinned, or in check all pieces.
    pub(crate) fn count(&self) -> usize
        ensures { result ≡ length (moves self.now) }
    {
        // The prover wants this fact: the position is sound, so its legal moves fit into a list.
        let _sound = self.setup();
        let pins = self.pins();
        let ordinary = self.without_special_pawns(pins.free);
        let mut men = self.sets.all(self.setup.side);
        let pawns = self.count_kind(Kind::Pawn, ordinary, &mut men);
        let knights = self.count_kind(Kind::Knight, ordinary, &mut men);
        let bishops = self.count_kind(Kind::Bishop, ordinary, &mut men);
        let rooks = self.count_kind(Kind::Rook, ordinary, &mut men);
        let queens = self.count_kind(Kind::Queen, ordinary, &mut men);
        let others = self.count_each(men, &pins);
        pawns + knights + bishops + rooks + queens + others
    }

    // Whether there is a legal move from the square `from`. It stops at the first end square that gives one.
    fn has_move_from(&self, from: Square) -> bool
        ensures { result ≡ nat_lt 0 (length (moves_from self.now from)) }
    {
        any(self.targets(from), |to| self.count_between(from, to) > 0)
    }

    // A quick test for a legal move: if it is true there is one, if it is false there may be one all the same. It looks
    // only at knights and pawns that are not pinned, leaves out pawns that may promote or take en passant, and finds
    // nothing if the king is in check. Most positions have such a move. (A test of the king's lines in place of pins
    // finds one in fewer positions, and takes more instructions in all.)
    fn has_easy_move(&self) -> bool
        ensures { result ≡ true → nat_lt 0 (length (moves self.now)) ≡ true }
    {
        let men = self.sets.of(self.setup.side);
        let ordinary = self.without_special_pawns(self.pins().free);
        let knights = men.of(Kind::Knight).intersection(ordinary);
        let pawns = men.of(Kind::Pawn).intersection(ordinary);
        if any(knights, |from| self.count_officer(Kind::Knight, from) > 0) {
            return true;
        }
        self.count_ordinary_pawns(pawns) > 0
    }

    // Whether there is a legal move. The quick test comes first, then the king, since in check it mostly has a move.
    // Then all pieces are tried one by one, up to the first that has a move.
    pub(crate) fn has_move(&self) -> bool
        ensures { result ≡ nat_lt 0 (length (moves self.now)) }
    {
        if self.has_easy_move() {
            return true;
        }
        let side = self.setup.side;
        let king = self.king(side);
        if self.count_king(king) > 0 {
            return true;
        }
        any(self.sets.all(side), |from| self.has_move_from(from))
    }
}
