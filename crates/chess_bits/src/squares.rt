//! The squares of a set one by one: those that pass a test, and whether there is one.

ghost use Rattle.std.specs.Prelude.{◌≡◌, ℕ, Bool, ◌<◌, ◌==◌, ◌&&◌, true, false};
ghost use Rattle.std.specs.List.{list_any};
ghost use Rattle.chess_moves.specs.Sets.{contains, members};

use chess_base::Square;
use chess_moves::SquareSet;

/// The set that has just `square` if `passed` is true; otherwise the empty set. Its union with a set adds the square to
/// the set if a test passed.
#[inline(always)]
pub(crate) fn single_if(passed: bool, square: Square) -> SquareSet
    ensures { (k : ℕ) → contains result k ≡ (passed && (k == square)) }
{
    if passed {
        SquareSet::single(square)
    } else {
        SquareSet::empty()
    }
}

/// The squares of the set for which the test is true; each is tested once, from a1 to h8. In the contract `F.pre` says
/// that the test may be called for square k, and `F.post` what it may answer: that is whether k is in the result.
#[inline(always)]
pub(crate) fn filter<F: Fn(Square) -> bool>(set: SquareSet, test: F) -> SquareSet
    requires { (k : ℕ) → k < 64 → contains set k ≡ true → F.pre test k }
    ensures inside { (k : ℕ) → k < 64 → contains set k ≡ true → F.post test k (contains result k) }
    ensures outside { (k : ℕ) → k < 64 → contains set k ≡ false → contains result k ≡ false }
{
    let mut chosen = SquareSet::empty();
    let mut rest = set;
    while let Some(square) = rest.take_first() {
        let passed = test(square);
        chosen = chosen.union(single_if(passed, square));
    }
    chosen
}

/// Whether some square of the set passes the test. No square after the first one that passes is tested. In the contract
/// `F.pre` says that the test may be called for square k, `F.post` what it may answer; and for each function `q` with
/// which all these answers agree, the result is whether `q` is true of some square of the set.
#[inline(always)]
pub(crate) fn any<F: Fn(Square) -> bool>(set: SquareSet, test: F) -> bool
    requires { (k : ℕ) → k < 64 → contains set k ≡ true → F.pre test k }
    ensures { (q : ℕ → Bool)
        → ((k : ℕ) → k < 64 → contains set k ≡ true → (r : Bool) → F.post test k r → r ≡ q k)
        → result ≡ list_any q (members set) }
{
    let mut rest = set;
    while let Some(square) = rest.take_first() {
        if test(square) {
            return true;
        }
    }
    false
}
