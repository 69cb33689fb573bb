//! Tags Variant that name no variant that is known.

ghost use Rattle.std.specs.Prelude.{◌≡◌, ◌≤◌, ◌-◌, List, length, ℕ, Some, None, if◌then◌else◌};
ghost use Rattle.std.specs.Option.{IfSome};
ghost use Rattle.chess_pgn.specs.UnknownVariants.{unknown_variant_in};
ghost use Rattle.chess_pgn.specs.shared.VariantNames.{is_known_variant};
ghost use Rattle.pgn_tokens.specs.Split.{IsSplit};
ghost use Rattle.pgn_tokens.specs.Tokens.{Token};
ghost use Rattle.byte_devices.specs.Bytes.{after_byte_order_mark};

use byte_devices::after_byte_order_mark;
use pgn_tokens::{Tag, last_tag};

// Whether the text of a tag `Variant` names a variant that is known: Chess960 or normal chess.
fn is_known_variant(text: &[u8]) -> bool
    ensures { result ≡ is_known_variant text.now }
{
    text.eq_ignore_ascii_case(b"fischerandom")
        || text.eq_ignore_ascii_case(b"fischerrandom")
        || text.eq_ignore_ascii_case(b"chess960")
        || text.eq_ignore_ascii_case(b"normal")
        || text.eq_ignore_ascii_case(b"standard")
        || text.eq_ignore_ascii_case(b"chess")
        || text.eq_ignore_ascii_case(b"classical")
        || text.eq_ignore_ascii_case(b"from position")
}

// The offset of the text of a tag `Variant` in a text of `len` bytes, if it names no variant that is known.
fn offset_of_unknown(len: usize, tag: &Tag<'_>) -> Option<usize>
    requires { tag.now.to_end ≤ len }
    ensures value { result ≡ (if is_known_variant tag.now.text.now then None else Some (len - tag.now.to_end)) }
    ensures within { IfSome result (λ offset. offset ≤ len) }
{
    if is_known_variant(tag.text) {
        None
    } else {
        Some(len - tag.to_end)
    }
}

/// Whether the game that begins at the offset `at` is of a variant that is not known: the offset of the first byte of
/// its last tag `Variant`'s text, if that names neither normal chess nor Chess960. `None` if it does, or if there is no
/// such tag before the game's first number, move or outcome. A byte order mark at offset 0 is skipped. `read_pgn` reads
/// such a game as normal chess; a caller that takes it for a fault, such as `verify --strict`, calls this function.
///
/// The clause `offset` says: there is a split of the text into tokens (`IsSplit`), and this is the offset in it.
pub fn unknown_variant(text: &[u8], at: usize) -> Option<usize>
    requires { at ≤ length text.now }
    ensures offset { (tokens : List (ℕ × Token)) × IsSplit text.now (after_byte_order_mark text.now at) tokens
        × (result ≡ unknown_variant_in (length text.now) tokens) }
    ensures within { IfSome result (λ offset. offset ≤ length text.now) }
{
    let tag = last_tag(text, after_byte_order_mark(text, at), b"Variant")?;
    offset_of_unknown(text.len(), &tag)
}
