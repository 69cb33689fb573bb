//! The list of legal moves: piece by piece, and end square by end square.

ghost use Rattle.std.specs.Prelude.{◌≡◌, ◌+◌, ◌≤◌, ◌<◌, ◌++◌, ℕ, length, map, true, None, []};
ghost use Rattle.arrayvec.specs.ArrayVec.{array_vec_len};
ghost use Rattle.chess_base.specs.Men.{man_at, is_man};
ghost use Rattle.chess_base.specs.MoveList.{moves, move_of};
ghost use Rattle.chess_base.specs.declared.man.Kind.TheVariants.{King};
ghost use Rattle.chess_bits.specs.ties.Pins.{AreEvasions, EndsOn};
ghost use Rattle.chess_bits.specs.ties.Goes.{goes, GoesFreely};
ghost use Rattle.chess_moves.specs.shared.MovesBySquares.{moves_between, moves_from};
ghost use Rattle.chess_moves.specs.Sets.{contains, members};

use crate::bits::Bits;
use crate::pinning::Pins;
use chess_base::rules::is_man;
use chess_base::{Kind, Move, Square};
use chess_moves::{MoveList, SquareSet};

// Appends to `list` a move from `from` to `to` for each of `promotions` (`None`: a move without a promotion). The
// caller knows that all are legal (chess_moves' function of this name tests each), and that the list, which can hold
// 896 moves, has room for them.
fn add_moves_with(from: Square, to: Square, promotions: &[Option<Kind>], list: &mut MoveList)
    requires { array_vec_len list.old + length promotions.now ≤ 896 }
    ensures { list.new.items ≡ list.old.items ++ map (move_of from to) promotions.now }
{
    for promotion in promotions {
        list.push(Move {
            from,
            to,
            promotion: *promotion,
        });
    }
}

// Appends to `list`, which has room for them, a move without a promotion from `from` to each square of the set `ends`,
// from a1 to h8. The callers know that these moves are legal.
fn add_moves_onto(from: Square, ends: SquareSet, list: &mut MoveList)
    requires { array_vec_len list.old + length (members ends) ≤ 896 }
    ensures { list.new.items ≡ list.old.items ++ map (λ b. move_of from b None) (members ends) }
{
    let mut rest = ends;
    while let Some(to) = rest.take_first() {
        list.push(Move {
            from,
            to,
            promotion: None,
        });
    }
}

impl Bits<'_> {
    // Appends to `list`, which has room for them, the legal moves from `from` to `to`: four with promotions or none if
    // a pawn promotes there, otherwise one or none. The caller knows that some move between the two is pseudo-legal
    // (`goes`).
    fn add_moves_between(&self, from: Square, to: Square, list: &mut MoveList)
        requires goes { goes self.now from to ≡ true }
        requires room { array_vec_len list.old + length (moves_between self.now from to) ≤ 896 }
        ensures { list.new.items ≡ list.old.items ++ moves_between self.now from to }
    {
        add_moves_with(from, to, self.legal_promotions(from, to), list);
    }

    // Appends to `list` the legal moves from `from`, where the caller knows that all of them end on squares of `ends`
    // (`all`), and that a move to each of these is pseudo-legal (`goes`). Each is tested.
    fn add_moves_to(&self, from: Square, ends: SquareSet, list: &mut MoveList)
        requires goes { (k : ℕ) → k < 64 → contains ends k ≡ true → goes self.now from k ≡ true }
        requires all { EndsOn self.now from ends }
        requires room { array_vec_len list.old + length (moves_from self.now from) ≤ 896 }
        ensures { list.new.items ≡ list.old.items ++ moves_from self.now from }
    {
        let mut targets = ends;
        while let Some(to) = targets.take_first() {
            self.add_moves_between(from, to, list);
        }
    }

    // Appends to `list` the legal moves of the piece on `from`, which is ordinary: it is free (its king is safe
    // wherever it goes), and no pawn that may promote or take en passant. So each of its end squares gives one move,
    // which needs no test.
    fn add_ordinary_moves(&self, from: Square, list: &mut MoveList)
        requires ordinary { GoesFreely self.now from }
        requires room { array_vec_len list.old + length (moves_from self.now from) ≤ 896 }
        ensures { list.new.items ≡ list.old.items ++ moves_from self.now from }
    {
        // The prover wants these facts: the start's number is below 64, and the king is on one square only.
        let _start = from.number();
        let _king = self.king(self.setup.side);
        add_moves_onto(from, self.targets(from), list);
    }

    // Appends to `list` the legal moves of the king on `king`, castling included.
    fn add_king_moves(&self, king: Square, list: &mut MoveList)
        requires king { is_man (self.now).side King (man_at (self.now).men king) ≡ true }
        requires room { array_vec_len list.old + length (moves_from self.now king) ≤ 896 }
        ensures { list.new.items ≡ list.old.items ++ moves_from self.now king }
    {
        add_moves_onto(king, self.king_ends(king), list);
    }

    // Appends to `list` the legal moves of the piece on `from`, which may be the king or pinned. For the king
    // `add_king_moves` does it. For another piece, each pseudo-legal move to a square that `pins` leaves to it is
    // tested; it has no other legal moves (`evasions`).
    fn add_judged_moves(&self, from: Square, pins: &Pins, list: &mut MoveList)
        requires evasions { AreEvasions self.now pins.now.free pins.now.evasions }
        requires room { array_vec_len list.old + length (moves_from self.now from) ≤ 896 }
        ensures { list.new.items ≡ list.old.items ++ moves_from self.now from }
    {
        if is_man(self.setup.side, Kind::King, self.setup.men[from.index()]) {
            self.add_king_moves(from, list);
        } else {
            self.add_moves_to(from, self.allowed_targets(from, pins), list);
        }
    }

    // Appends to `list` the legal moves of the piece on `from`. If it is in the set `ordinary`, they need no test: it
    // is free (its king is safe wherever it goes), and no pawn that may promote or take en passant. Those of another
    // piece are tested one by one.
    fn add_moves_of(&self, from: Square, ordinary: SquareSet, pins: &Pins, list: &mut MoveList)
        requires ordinary { (k : ℕ) → k < 64 → contains ordinary k ≡ true → GoesFreely self.now k }
        requires evasions { AreEvasions self.now pins.now.free pins.now.evasions }
        requires room { array_vec_len list.old + length (moves_from self.now from) ≤ 896 }
        ensures { list.new.items ≡ list.old.items ++ moves_from self.now from }
    {
        // The prover wants this fact: the start's number is below 64.
        let _start = from.number();
        if ordinary.contains(from) {
            self.add_ordinary_moves(from, list);
        } else {
            self.add_judged_moves(from, pins, list);
        }
    }

    // Puts all legal moves into `list`, which is empty: rising by start square and then end square; promotions in the
    // order queen, rook, bishop, knight. It fills the caller's list, since a list of its own (3,592 bytes) would be
    // copied on its way out.
    #[inline(always)]
    pub(crate) fn add_moves(&self, list: &mut MoveList)
        requires { list.old.items ≡ [] }
        ensures { list.new.items ≡ moves self.now }
    {
        let pins = self.pins();
        let ordinary = self.without_special_pawns(pins.free);
        let mut men = self.sets.all(self.setup.side);
        while let Some(from) = men.take_first() {
            self.add_moves_of(from, ordinary, &pins, list);
        }
    }
}
