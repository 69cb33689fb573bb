//! Which moves are legal, by the kind of the piece that goes, and from where pieces go legally to a square.

ghost use Rattle.std.specs.Prelude.{◌≡◌, ℕ, ◌<◌, ◌==◌, ◌&&◌, ◌||◌, not, true, false, None, MatchOption};
ghost use Rattle.chess_base.specs.Men.{first_rank, man_at, is_man, other, same_kind};
ghost use Rattle.chess_base.specs.MoveList.{move_of};
ghost use Rattle.chess_base.specs.Moves.{is_pseudo_legal, is_legal};
ghost use Rattle.chess_base.specs.Squares.{rank};
ghost use Rattle.chess_base.specs.declared.man.Kind.TheVariants.{King, Pawn};
ghost use Rattle.chess_bits.specs.ties.Changes.{StepsPlainly};
ghost use Rattle.chess_bits.specs.ties.Goes.{IsOfficer};
ghost use Rattle.chess_moves.specs.Sets.{contains, HasLegalStarts};

use crate::bits::Bits;
use crate::reaching::reached_among;
use crate::squares::{filter, single_if};
use crate::targets::{is_king, is_pawn};
use chess_base::rules::{first_rank, is_at, is_of, promotion_fits};
use chess_base::{Colour, Kind, Man, Move, Square};
use chess_moves::{SquareSet, would_promote};

// Whether the kind is queen, rook, bishop or knight.
#[inline(always)]
fn is_officer(kind: Kind) -> bool
    ensures { result ≡ not (same_kind King kind || same_kind Pawn kind) }
{
    !(is_king(kind) || is_pawn(kind))
}

// The kind of the piece `man`, a square's content, if it is a queen, rook, bishop or knight of this colour; otherwise
// `None`.
#[inline(always)]
#[tactic(auto, using(crate::proofs::ByKind::officer_told))]
fn officer_of(colour: Colour, man: Option<Man>) -> Option<Kind>
    ensures { MatchOption result (true ≡ true) (λ kind. IsOfficer colour kind man) }
{
    if !is_of(colour, man) {
        return None;
    }
    let Some(man) = man else {
        return None;
    };
    if !is_officer(man.kind) {
        return None;
    }
    Some(man.kind)
}

impl Bits<'_> {
    // Whether the move `m` is legal; the piece on its start square is a queen, rook, bishop or knight of this kind.
    // `is_legal_by_targets` gives the same answer, but also looks at what only a king or a pawn does. The shorter test
    // was one of four changes that together took `verify` from 477 to 317 million instructions on 1.6 MB of games.
    #[inline(always)]
    #[tactic(auto, using(crate::proofs::ByKind::promotes_not, crate::proofs::ByKind::as_triple, crate::proofs::ByKind::officer_pattern, crate::proofs::ByKind::no_pattern, crate::proofs::ByKind::officer_plain))]
    fn is_officer_legal(&self, kind: Kind, m: &Move) -> bool
        requires { IsOfficer (self.now).side kind (man_at (self.now).men m.now.from) }
        ensures { result ≡ is_legal self.now m.now }
    {
        // The prover wants these facts: the numbers of both squares are below 64.
        let _start = m.from.number();
        let _end = m.to.number();
        if m.promotion.is_some() {
            return false;
        }
        if !self.targets_by_attack(kind, m.from).contains(m.to) {
            return false;
        }
        self.is_safe_plain(m.from, m.to)
    }

    // Whether the move `m` of any piece is legal, by the general test: its piece goes to its end square, it names a
    // promotion exactly if a pawn promotes there, and its king is safe after it.
    #[tactic(auto, using(crate::proofs::Patterns::not_target, crate::proofs::Patterns::not_fitting, crate::proofs::Patterns::pattern_from))]
    fn is_legal_by_targets(&self, m: &Move) -> bool
        ensures { result ≡ is_legal self.now m.now }
    {
        // The prover wants this fact: the number of the end is below 64.
        let _end = m.to.number();
        if !self.targets(m.from).contains(m.to) {
            return false;
        }
        if !promotion_fits(would_promote(&self.setup, m.from, m.to), m.promotion) {
            return false;
        }
        self.is_safe_after(m)
    }

    // Whether the move `m` is legal. For a queen, rook, bishop or knight there is a shorter test; a king's or pawn's
    // move, or one from a square without an own piece, gets the general one.
    #[inline(always)]
    pub(crate) fn is_legal_by_kind(&self, m: &Move) -> bool
        ensures { result ≡ is_legal self.now m.now }
    {
        match officer_of(self.setup.side, self.setup.men[m.from.index()]) {
            Some(kind) => self.is_officer_legal(kind, m),
            None => self.is_legal_by_targets(m),
        }
    }

    // Those of the squares `men` from which the piece there may legally go to `to`; each move gets the general test.
    // The caller knows that all these moves are pseudo-legal and name no promotion. It is called for pawns that may
    // take en passant, by which a third square changes. That is rare, so it is not inlined.
    #[inline(never)]
    fn tried_starts(&self, men: SquareSet, to: Square) -> SquareSet
        requires { (k : ℕ) → k < 64 → contains men k ≡ true → is_pseudo_legal self.now (move_of k to None) ≡ true }
        ensures { (k : ℕ) → k < 64 → contains result k ≡ (contains men k && is_legal self.now (move_of k to None)) }
    {
        filter(men, |from| {
            self.is_safe_after(&Move {
                from,
                to,
                promotion: None,
            })
        })
    }

    // Those of the squares `men` from which the piece there may legally go to `to`; each move gets the short test. The
    // caller knows that all these moves are pseudo-legal and name no promotion, and that none is the king's or en
    // passant (`StepsPlainly`). `tried_starts` would give the same squares, but its test would ask of each move again
    // whether it is the king's or en passant. `filter` would call its test for each square: it is not inlined here.
    #[inline(always)]
    fn safe_starts(&self, men: SquareSet, to: Square) -> SquareSet
        requires { (k : ℕ) → k < 64 → contains men k ≡ true → StepsPlainly self.now (move_of k to None) }
        ensures { (k : ℕ) → k < 64 → contains result k ≡ (contains men k && is_legal self.now (move_of k to None)) }
    {
        let mut starts = SquareSet::empty();
        let mut rest = men;
        while let Some(from) = rest.take_first() {
            let is_safe = self.is_safe_plain(from, to);
            starts = starts.union(single_if(is_safe, from));
        }
        starts
    }

    // The squares from which pieces of this kind (queen, rook, bishop or knight) of the side on move may legally go to
    // `to`. There are none if a piece of that side is on `to`. It looks from `to` outwards: a knight can go to `to`
    // only from squares that a knight on `to` would attack.
    fn officer_starts(&self, kind: Kind, to: Square) -> SquareSet
        requires { (same_kind King kind || same_kind Pawn kind) ≡ false }
        ensures { HasLegalStarts self.now kind to result }
    {
        // The prover wants this fact: the number of the end is below 64.
        let _end = to.number();
        let side = self.setup.side;
        if self.sets.all(side).contains(to) {
            return SquareSet::empty();
        }
        let occupied = self.sets.occupied();
        let own = self.sets.of(side).of(kind);
        let men = reached_among(self.tables, occupied, kind, to, own);
        self.safe_starts(men, to)
    }

    // Whether the king on `king` may legally go to `to`: by an ordinary move, or by castling. `king_ends` would answer
    // it too, but tests up to eight squares, where this tests one.
    #[tactic(auto, using(crate::proofs::KingSteps::steps_are, crate::proofs::ByKind::king_otherwise))]
    fn king_goes_legally(&self, king: Square, to: Square) -> bool
        requires { is_man (self.now).side King (man_at (self.now).men king) ≡ true }
        ensures { result ≡ is_legal self.now (move_of king to None) }
    {
        // The prover wants these facts: the numbers of both squares are below 64.
        let _start = king.number();
        let _end = to.number();
        if self.targets_by_attack(Kind::King, king).contains(to) {
            return self.is_safe_step(king, to);
        }
        self.castling_ends(king).contains(to)
    }

    // The set that has just the square of the king of the side on move if it may legally go to `to`; otherwise the
    // empty set.
    fn king_starts(&self, to: Square) -> SquareSet
        ensures { HasLegalStarts self.now King to result }
    {
        let king = self.king(self.setup.side);
        single_if(self.king_goes_legally(king, to), king)
    }

    // Whether `to` is on the last rank of the side on move, where its pawns promote: for White that is rank 8, Black's
    // first rank. Unlike `would_promote`, it doesn't ask whether a pawn moves there.
    #[inline(always)]
    fn is_on_last_rank(&self, to: Square) -> bool
        ensures { result ≡ (rank to == first_rank (other (self.now).side)) }
    {
        to.rank() == first_rank(self.setup.side.other())
    }

    // The squares from which pawns of the side on move may legally go to `to` without a promotion; none if `to` is on
    // the last rank. If `to` is the en passant target, the pawns that take there need the general test, since a third
    // square changes.
    #[tactic(auto, using(crate::proofs::PawnStarts::none_on_last, crate::proofs::PawnStarts::pawn_patterns, crate::proofs::PawnStarts::pawn_starts_are))]
    fn legal_pawn_starts(&self, to: Square) -> SquareSet
        ensures { HasLegalStarts self.now Pawn to result }
    {
        // The prover wants this fact: the number of the end is below 64.
        let _end = to.number();
        if self.is_on_last_rank(to) {
            return SquareSet::empty();
        }
        let men = self.pawns_to(to);
        if is_at(self.setup.target, to) {
            return self.tried_starts(men, to);
        }
        self.safe_starts(men, to)
    }

    // The squares from which pieces of this kind, of the side on move, may legally go to `to` without a promotion.
    // Officers (queen, rook, bishop, knight), the king and pawns each have a search of their own.
    #[inline(always)]
    pub(crate) fn starts_of(&self, kind: Kind, to: Square) -> SquareSet
        ensures { HasLegalStarts self.now kind to result }
    {
        if is_officer(kind) {
            return self.officer_starts(kind, to);
        }
        if is_king(kind) {
            return self.king_starts(to);
        }
        self.legal_pawn_starts(to)
    }
}
