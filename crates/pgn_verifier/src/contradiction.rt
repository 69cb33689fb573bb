//! Whether a game's result contradicts its text or the board.

ghost use Rattle.std.specs.Prelude.{◌≡◌, ◌≤◌, length, Some};
ghost use Rattle.std.specs.Option.{IfSome, option_eq};
ghost use Rattle.chess_game.specs.Game.{contradicts_verdict};
ghost use Rattle.chess_pgn.specs.GameRead.{ending};
ghost use Rattle.chess_pgn.specs.ResultTags.{result_tag_of};
ghost use Rattle.pgn_tokens.specs.Tokens.{tokens_from};
ghost use Rattle.byte_devices.specs.Bytes.{after_byte_order_mark};
ghost use Rattle.chess_game.specs.Results.{same_outcome};
ghost use Rattle.pgn_verifier.specs.GameFaults.{result_differs, board_says_otherwise};
ghost use Rattle.pgn_verifier.specs.shared.Contradictions.{contradiction, looked_for};

use crate::game_fault::{FaultKind, GameFault};
use chess_game::{Game, Outcome, Verdict};
use chess_moves::Board;
use chess_pgn::{PgnEnd, ResultTag, ending, result_tag};
use verify_options::Strictness;

// Whether a tag `Result` names this outcome; `denoted` is the outcome that the tag's text denotes, `None` if it denotes
// none.
fn is_text_of(outcome: Outcome, denoted: Option<Outcome>) -> bool
    ensures { result ≡ option_eq same_outcome denoted (Some outcome) }
{
    match denoted {
        Some(denoted) => denoted == outcome,
        None => false,
    }
}

// The fault of a game that ends with another outcome (`end`) than its last tag `Result` (`tag`) names; `None` if they
// agree or there is no tag.
fn result_differs(tag: Option<ResultTag>, end: PgnEnd) -> Option<GameFault>
    ensures { result ≡ result_differs tag end }
{
    let tag = tag?;
    if is_text_of(end.outcome, tag.outcome) {
        return None;
    }
    Some(GameFault {
        kind: FaultKind::ResultDiffers {
            tag_len: tag.len,
            outcome: end.outcome,
        },
        offset: tag.offset,
    })
}

// Whether the board has a verdict, such as mate, with another outcome than this one.
fn is_other(verdict: Option<Verdict>, outcome: Outcome) -> bool
    ensures { result ≡ contradicts_verdict verdict outcome }
{
    match verdict {
        Some(verdict) => verdict.outcome() != outcome,
        None => false,
    }
}

// The fault of a game that ends with another outcome (`end`) than the board's verdict, such as mate; `None` if they
// agree or there is no verdict.
fn board_says_otherwise(verdict: Option<Verdict>, end: PgnEnd) -> Option<GameFault>
    ensures { result ≡ board_says_otherwise verdict end }
{
    if !is_other(verdict, end.outcome) {
        return None;
    }
    Some(GameFault {
        kind: FaultKind::BoardSaysOtherwise,
        offset: end.offset.saturating_sub(end.outcome.text().len()),
    })
}

// The fault of a game that ends with another outcome (`end`) than its last tag `Result` names; `None` if they agree, if
// there is no such tag, or if that isn't looked for (`is_looked_for`). The game was read from the offset `at` of the
// text on.
fn result_fault(is_looked_for: bool, text: &[u8], at: usize, end: PgnEnd) -> Option<GameFault>
    requires at { at ≤ length text.now }
    ensures fault { result ≡ looked_for is_looked_for (result_differs
        (result_tag_of (length text.now) (tokens_from text.now (after_byte_order_mark text.now at))) end) }
    ensures within { IfSome result (λ fault. fault.offset ≤ length text.now) }
{
    if !is_looked_for {
        return None;
    }
    result_differs(result_tag(text, at), end)
}

// The fault of a game that ends with another outcome (`end`) than the board's verdict; `None` if they agree, if there
// is no verdict, or if that isn't looked for (`strict.board`).
fn board_fault<B: Board>(strict: Strictness, game: &Game<B>, end: PgnEnd) -> Option<GameFault>
    ensures { result
        ≡ looked_for strict.board (board_says_otherwise (ending strict.draws_of_2014 game.now.state) end) }
{
    if !strict.board {
        return None;
    }
    board_says_otherwise(ending(strict.draws_of_2014, game), end)
}

// The fault of a game that ends with another outcome (`end`) than its last tag `Result` names, or else than the board's
// verdict; `None` if neither is so, or isn't looked for (`strict`). The game was read from the offset `at` of the text
// on.
pub(crate) fn contradiction<B: Board>(
    strict: Strictness,
    text: &[u8],
    at: usize,
    game: &Game<B>,
    end: PgnEnd,
) -> Option<GameFault>
    requires at { at ≤ length text.now }
    requires end { end.offset ≤ length text.now }
    ensures fault { result
        ≡ contradiction strict
        (result_tag_of (length text.now) (tokens_from text.now (after_byte_order_mark text.now at)))
        (ending strict.draws_of_2014 game.now.state) end }
    ensures within { IfSome result (λ fault. fault.offset ≤ length text.now) }
{
    result_fault(strict.result, text, at, end).or(board_fault(strict, game, end))
}
