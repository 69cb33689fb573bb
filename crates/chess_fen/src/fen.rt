//! The FEN of a position as a type of its own.

ghost use Rattle.std.specs.Prelude.{◌≡◌, ◌≤◌, ◌++◌, Some, length, nat_eq, refl, ⊤};
ghost use Rattle.std.specs.Ordering.{nat_cmp, on, then_cmp, eq_of_both, as_partial_cmp};
ghost use Rattle.std.specs.Cmp.{on_total, then_total, partial_order_from_own_ties};
ghost use Rattle.std.specs.Cmp.Lexicographic.{pointwise, slice_cmp, nat_list_cmp_total};
ghost use Rattle.std.specs.Cmp.Rules.{comparing, hashing};
ghost use Rattle.std.specs.Hash as fed;
ghost use Rattle.std.proofs.Common.{rules};
ghost use Rattle.chess_base.specs.contracts.man.VariantOrd.TheImpl.Laws.{total-law};
ghost use Rattle.chess_base.specs.Sound.{IsSound};
ghost use Rattle.chess_fen.specs.Reading.{fen_reading, fen_reading_as};
ghost use Rattle.chess_fen.specs.Writing.{fen};

use crate::reading::read_fen_as;
use crate::writing::write_fen;
use arrayvec::ArrayString;
use chess_base::{FenFault, Position, Variant};
use std::alloc::AllocError;
use std::cmp::Ordering;
use std::hash::{Hash, Hasher};
use std::marker::Model;
use std::str::FromStr;
use std::{fmt, str};

/// A position together with its FEN: at most 95 bytes of ASCII. In contracts it is the position's `Setup`. Two are
/// equal exactly if their positions are. They are ordered by their texts. A position of normal chess without castling
/// rights has the same text as one of Chess960, and comes before it.
///
/// ```
/// let fen: Fen = "4k3/8/8/8/8/8/4P3/4K3 w - - 0 1".parse()?;
/// let after = fen.position().after(m);
/// println!(rt; "{fen} and then {}", Fen::from(&after))?;
/// ```
#[derive(Drop)]
pub struct Fen {
    position: Position,
    text: ArrayString<95>,
}

impl Model for Fen {
    ghost use Rattle.std.specs.Prelude.{◌≡◌};
    ghost use Rattle.chess_base.specs.declared.setup.Setup.{Setup};

    ghost Value = { Setup };

    ghost use Rattle.chess_fen.specs.Writing.{fen};

    ghost view = { λ f. f.position };

    ghost invariant = { λ f. f.text.bytes ≡ fen f.position };
}

// The FEN of a position as text.
fn fen_text(position: &Position) -> ArrayString<95>
    ensures { result.bytes ≡ fen position.now }
{
    // The prover wants this fact: the position is sound, so its FEN is ASCII.
    let _sound = position.setup();
    let fen = write_fen(position);
    let mut text = ArrayString::new();
    match str::from_utf8(fen.as_slice()) {
        Ok(written) => text.push_str(written),
        // All its bytes are ASCII.
        Err(_) => unreachable!(),
    }
    text
}

impl Fen {
    /// Reads a FEN of either variant, as `read_fen_as` does. Its text is then the one FEN that is written for the
    /// position, whatever spaces were read.
    ///
    /// # Errors
    /// The first fault of the text.
    pub fn read_as(variant: Variant, text: &[u8]) -> Result<Self, FenFault>
        ensures { result ≡ fen_reading_as variant text.now }
    {
        match read_fen_as(variant, text) {
            Ok(position) => Ok(Fen::from(&position)),
            Err(fault) => Err(fault),
        }
    }

    /// The position.
    pub fn position(&self) -> &Position
        ensures { result.now ≡ self.now }
    {
        &self.position
    }

    // The variant of the position.
    fn variant(&self) -> Variant
        ensures { result ≡ self.now.variant }
    {
        self.position.variant()
    }

    /// The FEN.
    pub fn as_str(&self) -> &str
        ensures value { result.now ≡ fen self.now }
        ensures short { length result.now ≤ 95 }
    {
        self.text.as_str()
    }

    /// The FEN as bytes.
    pub fn as_bytes(&self) -> &[u8]
        ensures value { result.now ≡ fen self.now }
        ensures short { length result.now ≤ 95 }
    {
        self.as_str().as_bytes()
    }
}

impl From<&Position> for Fen {
    ghost from_gives = { λ position f. f ≡ position.now };

    // The position together with its FEN.
    fn from(position: &Position) -> Self {
        Fen {
            position: *position,
            text: fen_text(position),
        }
    }
}

impl From<Fen> for Position {
    ghost from_gives = { λ f position. position ≡ f };

    // The position, without its text.
    fn from(fen: Fen) -> Self {
        fen.position
    }
}

impl FromStr for Fen {
    type Err = FenFault;

    ghost from_str_gives = { λ text r. r ≡ fen_reading text };

    // Reads a FEN of normal chess, as `read_fen` does.
    fn from_str(text: &str) -> Result<Self, FenFault> {
        Fen::read_as(Variant::Normal, text.as_bytes())
    }
}

impl TryFrom<&[u8]> for Fen {
    type Error = FenFault;

    ghost try_from_gives = { λ text r. r ≡ fen_reading text.now };

    // Reads a FEN of normal chess, as `read_fen` does.
    fn try_from(text: &[u8]) -> Result<Self, FenFault> {
        Fen::read_as(Variant::Normal, text)
    }
}

impl fmt::Display for Fen {
    ghost output = { λ f. Some (fen f) };

    // Writes the FEN.
    fn fmt<W: fmt::Write>(&self, f: &mut fmt::Formatter<W>) -> fmt::Result {
        f.write_str(self.as_str())
    }
}

impl fmt::Debug for Fen {
    // Writes the FEN in quotes.
    fn fmt<W: fmt::Write>(&self, f: &mut fmt::Formatter<W>) -> fmt::Result {
        f.debug_tuple("Fen").field(&self.as_str()).finish()
    }
}

impl Clone for Fen {
    ghost is_clone = { λ f copy. copy ≡ f };

    ghost is_infallible = { λ _. ⊤ };

    // A copy; it never fails.
    fn clone(&self) -> Result<Self, AllocError> {
        Ok(Fen {
            position: self.position,
            text: self.text,
        })
    }
}

impl PartialEq for Fen {
    ghost eq = { eq_of_both (on fen (pointwise nat_eq)) (on (λ p. p.variant) ⟦<Variant as PartialEq>⟧.eq) };

    ghost laws = { Prim.search (comparing, rules) };

    // Whether texts and variants are equal, and so the positions.
    fn eq(&self, other: &Self) -> bool {
        self.as_str() == other.as_str() && self.variant() == other.variant()
    }
}

impl Eq for Fen {
    ghost laws = { Prim.search (comparing, rules) };
}

impl PartialOrd for Fen {
    ghost partial_cmp = { as_partial_cmp
        (then_cmp (on fen (slice_cmp nat_cmp)) (on (λ p. p.variant) ⟦<Variant as Ord>⟧.cmp)) };

    ghost laws = { partial_order_from_own_ties (Prim.search (comparing, rules)) (Prim.search (comparing, rules)) };

    // The order of `cmp`.
    fn partial_cmp(&self, other: &Self) -> Option<Ordering> {
        Some(self.cmp(other))
    }
}

impl Ord for Fen {
    ghost cmp = { then_cmp (on fen (slice_cmp nat_cmp)) (on (λ p. p.variant) ⟦<Variant as Ord>⟧.cmp) };

    ghost total = { then_total (on_total fen nat_list_cmp_total) (on_total (λ p. p.variant) total-law) };

    ghost matches_partial_cmp = { λ f g. refl };

    ghost matches_eq = { Prim.search (comparing, rules) };

    // The order of the texts; of equal texts, that of the variants.
    fn cmp(&self, other: &Self) -> Ordering {
        self.as_str()
            .cmp(other.as_str())
            .then(self.variant().cmp(&other.variant()))
    }
}

impl Hash for Fen {
    ghost hash_input = { λ f. fed.str (fen f) ++ ⟦<Variant as Hash>⟧.hash_input f.variant };

    ghost respects_eq = { Prim.search (hashing, rules) };

    // Feeds the text and the variant to the hasher.
    fn hash<H: Hasher>(&self, state: &mut H) {
        self.as_str().hash(state);
        self.variant().hash(state);
    }
}
