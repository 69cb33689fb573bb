//! The faults that are looked for in a game that is read to its termination marker.

ghost use Rattle.std.specs.Prelude.{◌≡◌, ◌≤◌, IfErr, length};
ghost use Rattle.std.specs.Option.{IfSome, option_or};
ghost use Rattle.std.specs.Result.{result_err};
ghost use Rattle.byte_devices.specs.Bytes.{after_byte_order_mark};
ghost use Rattle.chess_pgn.specs.GameRead.{ending};
ghost use Rattle.chess_pgn.specs.ResultTags.{result_tag_of};
ghost use Rattle.pgn_tokens.specs.Tokens.{tokens_from};
ghost use Rattle.chess_pgn.specs.UnknownVariants.{unknown_variant_in};
ghost use Rattle.pgn_verifier.specs.shared.Contradictions.{contradiction, end_fault, looked_for, variant_fault, variation_fault, variation_in};

use crate::contradiction::contradiction;
use crate::game_fault::{FaultKind, GameFault};
use byte_devices::after_byte_order_mark;
use chess_base::Position;
use chess_bits::Bits;
use chess_game::Game;
use chess_pgn::{PgnEnd, PgnFault, has_variation, read_variations, unknown_variant};
use verify_options::Strictness;

// Reads the variations of the game that was read from `at` on, started in the position `start` and ended with `end`;
// returns their first fault. `game` only gives the kind of board.
fn found_in_variations(
    text: &[u8],
    at: usize,
    start: &Position,
    game: &Game<Bits<'_>>,
    end: PgnEnd,
) -> Result<(), PgnFault>
    requires at { at ≤ length text.now }
    requires end { end.offset ≤ length text.now }
    ensures fault { result_err result ≡ variation_in tokens_from text.now at start.now end }
    ensures within { IfErr result (λ fault. fault.offset ≤ length text.now) }
{
    let first = after_byte_order_mark(text, at);
    // Never true, since a game that was read ends after its first byte.
    if end.offset < first {
        return Ok(());
    }
    let played = &text[..end.offset];
    if !has_variation(played, first) {
        return Ok(());
    }
    let mut board = game.board().another();
    read_variations(played, first, start, &mut board)
}

// The fault of a game whose variations have a fault (see `found_in_variations`); `None` if they have none.
fn fault_in_variations(
    text: &[u8],
    at: usize,
    start: &Position,
    game: &Game<Bits<'_>>,
    end: PgnEnd,
) -> Option<GameFault>
    requires at { at ≤ length text.now }
    requires end { end.offset ≤ length text.now }
    ensures fault { result ≡ variation_fault (variation_in tokens_from text.now at start.now end) }
    ensures within { IfSome result (λ fault. fault.offset ≤ length text.now) }
{
    match found_in_variations(text, at, start, game, end) {
        Ok(()) => None,
        Err(fault) => Some(GameFault {
            kind: FaultKind::InVariation(fault.kind),
            offset: fault.offset,
        }),
    }
}

// The fault of a game whose variations have a fault; `None` if they have none, or if that isn't looked for
// (`is_looked_for`). The game was read from `at` on, and starts as `game` does.
fn variation_fault(
    is_looked_for: bool,
    text: &[u8],
    at: usize,
    game: &Game<Bits<'_>>,
    end: PgnEnd,
) -> Option<GameFault>
    requires at { at ≤ length text.now }
    requires end { end.offset ≤ length text.now }
    ensures fault { result
        ≡ looked_for is_looked_for (variation_fault (variation_in tokens_from text.now at game.now.state.start end)) }
    ensures within { IfSome result (λ fault. fault.offset ≤ length text.now) }
{
    if !is_looked_for {
        return None;
    }
    fault_in_variations(text, at, &game.start(), game, end)
}

// The fault of a game whose variations have a fault; `None` if they have none, or if that isn't looked for
// (`is_looked_for`). The game was read from `at` on, and started in the position `start`, unlike perhaps `game`.
fn variation_fault_from(
    is_looked_for: bool,
    text: &[u8],
    at: usize,
    start: &Position,
    game: &Game<Bits<'_>>,
    end: PgnEnd,
) -> Option<GameFault>
    requires at { at ≤ length text.now }
    requires end { end.offset ≤ length text.now }
    ensures fault { result
        ≡ looked_for is_looked_for (variation_fault (variation_in tokens_from text.now at start.now end)) }
    ensures within { IfSome result (λ fault. fault.offset ≤ length text.now) }
{
    if !is_looked_for {
        return None;
    }
    fault_in_variations(text, at, start, game, end)
}

// The fault of a game whose last tag `Variant` names no variant that is known; `None` if there is no such tag, or if
// that isn't looked for (`is_looked_for`). The game is read from `at` on.
fn variant_fault(is_looked_for: bool, text: &[u8], at: usize) -> Option<GameFault>
    requires at { at ≤ length text.now }
    ensures fault { result
        ≡ looked_for is_looked_for (variant_fault
        (unknown_variant_in (length text.now) (tokens_from text.now (after_byte_order_mark text.now at)))) }
    ensures within { IfSome result (λ fault. fault.offset ≤ length text.now) }
{
    if !is_looked_for {
        return None;
    }
    let offset = unknown_variant(text, at)?;
    Some(GameFault {
        kind: FaultKind::UnknownVariant,
        offset,
    })
}

// The first fault, besides those in variations, that `strict` names in the game that was read from `at` on and ended
// with `end`: of its variant, or of its outcome. `game` is at its last position.
fn fault_but_variations(
    strict: Strictness,
    text: &[u8],
    at: usize,
    game: &Game<Bits<'_>>,
    end: PgnEnd,
) -> Option<GameFault>
    requires at { at ≤ length text.now }
    requires end { end.offset ≤ length text.now }
    ensures fault { result ≡ option_or (looked_for strict.variant (variant_fault
        (unknown_variant_in (length text.now) (tokens_from text.now (after_byte_order_mark text.now at)))))
        (contradiction strict
        (result_tag_of (length text.now) (tokens_from text.now (after_byte_order_mark text.now at)))
        (ending strict.draws_of_2014 game.now.state) end) }
    ensures within { IfSome result (λ fault. fault.offset ≤ length text.now) }
{
    let of_variant = variant_fault(strict.variant, text, at);
    of_variant.or(contradiction(strict, text, at, game, end))
}

// The first fault that `strict` names in the game that was read from `at` on and ended with `end`: in its variations,
// of its variant, or of its outcome. `game` has the game's start, and is at its last position.
pub(crate) fn end_fault(
    strict: Strictness,
    text: &[u8],
    at: usize,
    game: &Game<Bits<'_>>,
    end: PgnEnd,
) -> Option<GameFault>
    requires at { at ≤ length text.now }
    requires end { end.offset ≤ length text.now }
    ensures fault { result
        ≡ end_fault strict (variation_in tokens_from text.now at game.now.state.start)
        (unknown_variant_in (length text.now) (tokens_from text.now (after_byte_order_mark text.now at)))
        (result_tag_of (length text.now) (tokens_from text.now (after_byte_order_mark text.now at)))
        (ending strict.draws_of_2014 game.now.state) end }
    ensures within { IfSome result (λ fault. fault.offset ≤ length text.now) }
{
    let found = fault_but_variations(strict, text, at, game, end);
    variation_fault(strict.variations, text, at, game, end).or(found)
}

// The first fault that `strict` names in the game that was read from `at` on and ended with `end`: in its variations,
// of its variant, or of its outcome. The game started in the position `start`; `game` is only at its last position.
pub(crate) fn end_fault_from(
    strict: Strictness,
    text: &[u8],
    at: usize,
    start: &Position,
    game: &Game<Bits<'_>>,
    end: PgnEnd,
) -> Option<GameFault>
    requires at { at ≤ length text.now }
    requires end { end.offset ≤ length text.now }
    ensures fault { result
        ≡ end_fault strict (variation_in tokens_from text.now at start.now)
        (unknown_variant_in (length text.now) (tokens_from text.now (after_byte_order_mark text.now at)))
        (result_tag_of (length text.now) (tokens_from text.now (after_byte_order_mark text.now at)))
        (ending strict.draws_of_2014 game.now.state) end }
    ensures within { IfSome result (λ fault. fault.offset ≤ length text.now) }
{
    let found = fault_but_variations(strict, text, at, game, end);
    variation_fault_from(strict.variations, text, at, start, game, end).or(found)
}
