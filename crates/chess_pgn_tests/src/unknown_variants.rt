//! Tags Variant that name neither normal chess nor Chess960.

use crate::equal::is_equal_at;
use chess_pgn::unknown_variant;

// Texts, where reading begins, and the offset of the name if the game's variant is unknown.
const VARIANTS: [(&[u8], usize, Option<usize>); 14] = [
    (b"", 0, None),
    (b"[Event \"Atomic\"] e4 *", 0, None),
    (b"[Variant \"Chess960\"] e4 *", 0, None),
    (b"[Variant \"fischerandom\"] e4 *", 0, None),
    (b"[Variant \"FischerRandom\"] e4 *", 0, None),
    (b"[Variant \"Standard\"] e4 *", 0, None),
    (b"[Variant \"classical\"] e4 *", 0, None),
    (b"[Variant \"From Position\"] e4 *", 0, None),
    (b"[Variant \"Chess960 \"] e4 *", 0, Some(10)),
    (b"[Variant \"\"] e4 *", 0, Some(10)),
    (b"\xEF\xBB\xBF[Variant \"Atomic\"] e4 *", 0, Some(13)),
    // The last tag counts, and only before the moves.
    (b"[Variant \"Normal\"][Variant \"FRC\"] e4 *", 0, Some(28)),
    (b"[Variant \"FRC\"][Variant \"chess\"] e4 *", 0, None),
    (b"e4 * [Variant \"FRC\"] e4 *", 4, Some(15)),
];

// Looks for the unknown variant of each row.
#[test]
fn unknown_variants_are_found(rt: HostRuntime) {
    for (text, at, wanted) in &VARIANTS {
        is_equal_at(&rt, *at, *text, &unknown_variant(*text, *at), wanted);
    }
}
