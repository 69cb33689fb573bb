//! Reads the variations of a game (PGN standard of 1994, section 8.2.5). The reader of tokens skips them; here their
//! moves are read, too.

ghost use Rattle.std.specs.Prelude.{◌≡◌, ◌≤◌, ◌+◌, ◌||◌, IsTrue, IfErr, IfOk, Option, is_some, length, None};
ghost use Rattle.std.specs.List.{list_all};
ghost use Rattle.std.specs.Option.{IfSome};
ghost use Rattle.std.specs.Result.{result_err};
ghost use Rattle.chess_base.specs.Moves.{is_legal};
ghost use Rattle.pgn_tokens.specs.Tokens.{tokens_from};
ghost use Rattle.chess_base.specs.declared.setup.Setup.{Setup};
ghost use Rattle.chess_pgn.specs.declared.read.PgnFault.{PgnFault};
ghost use Rattle.pgn_tokens.specs.VariationTokens.{has_variation, is_variation};
ghost use Rattle.chess_pgn.specs.Variations.{line_fault, variations_fault};
ghost use Rattle.chess_pgn.specs.laws.LineEnds.{is_end};
ghost use Rattle.chess_pgn.specs.shared.LineTokens.{after_token, token_move, word_move};
ghost use Rattle.byte_devices.specs.Bytes.{is_digit};
ghost use Rattle.pgn_writer.specs.Outcomes.{outcome_of};
ghost use Rattle.pgn_tokens.specs.Marks.{is_marks};
ghost use Rattle.chess_text.specs.Moves.{reading};
ghost use Rattle.pgn_tokens.specs.Seen.{fault_seen, token_seen};
ghost use Rattle.chess_pgn.specs.ties.LineSteps.{IsLineToken, inside, opening, played};

use crate::read::{PgnFault, PgnFaultKind};
use crate::word_kind::{WordKind, word_kind};
use chess_base::{Move, Position};
use chess_moves::Board;
use chess_text::{Reading, read_move};
use pgn_tokens::{Token, TokenFault, has_variation, is_variation, next_token};

/// How deep variations may be nested: so many may be open anywhere in a game's text, each with a call of `read_line`.
pub const MOST_NESTED: usize = 64;

// The legal move that a word denotes in the board's position, never `None`; or the fault of the word if it denotes no
// legal move, or several.
fn word_move<B: Board>(board: &B, word: &[u8]) -> Result<Option<Move>, PgnFaultKind>
    ensures value { result ≡ word_move (reading (B.position board.now) word.now) }
    ensures legal { IfOk result (λ o. IfSome o (λ m. IsTrue (is_legal (B.position board.now) m))) }
{
    match read_move(board, word) {
        Reading::Move(m) => Ok(Some(m)),
        Reading::NotAMove => Err(PgnFaultKind::BadToken),
        Reading::Ambiguous => Err(PgnFaultKind::AmbiguousMove),
        Reading::NoSuch => Err(PgnFaultKind::IllegalMove),
    }
}

// Whether a word of a line is passed over: it is an outcome, a number or marks.
fn is_passed(word: &[u8]) -> bool
    ensures { result ≡ (is_some (outcome_of word.now) || (list_all is_digit word.now || is_marks word.now)) }
{
    match word_kind(word) {
        WordKind::Move => false,
        WordKind::End(_) => true,
        WordKind::Number => true,
        WordKind::Marks => true,
    }
}

// The legal move that a token of a line denotes in the board's position; `None` if the token is passed over; or the
// fault of a word that denotes no legal move or several, or of a tag that is not passed over. `tags`: whether tags are
// passed over, as in a game's own line.
fn token_move<B: Board>(
    tags: bool,
    board: &B,
    token: &Token<'_>,
) -> Result<Option<Move>, PgnFaultKind>
    ensures value { result ≡ token_move tags (B.position board.now) (token_seen token.now) }
    ensures legal { IfOk result (λ o. IfSome o (λ m. IsTrue (is_legal (B.position board.now) m))) }
{
    match token {
        Token::Skip => Ok(None),
        Token::Tag(_) => {
            if tags {
                Ok(None)
            } else {
                Err(PgnFaultKind::BadToken)
            }
        }
        Token::Word(word) => {
            if is_passed(word) {
                Ok(None)
            } else {
                word_move(board, word)
            }
        }
    }
}

// Whether what can't be read at the offset `at` ends the line of a variation: it is a `)`.
fn is_end(text: &[u8], at: usize, fault: TokenFault) -> bool
    requires { at ≤ length text.now }
    ensures { result ≡ is_end text.now at (fault_seen fault) }
{
    match fault {
        TokenFault::BadByte => text[at..].starts_with(b")"),
        TokenFault::BadTag | TokenFault::UnclosedVariation => false,
        TokenFault::UnclosedComment { .. } => false,
    }
}

// The token of a line that begins at the offset `at`, and the offset after it, as `next_token` gives them; `None` at
// the text's end, and at the `)` of a variation. Anything else that can't be read is a bad token.
fn token_at(text: &[u8], at: usize) -> Result<Option<(Token<'_>, usize)>, PgnFault>
    requires { at ≤ length text.now }
    ensures { IsLineToken text.now at result }
{
    match next_token(text, at) {
        Ok(next) => Ok(next),
        Err(fault) => {
            if is_end(text, at, fault) {
                return Ok(None);
            }
            Err(PgnFault {
                kind: PgnFaultKind::BadToken,
                offset: at,
            })
        }
    }
}

// Makes the move that a token at the offset `at` denotes in the board's position, and returns the position before it;
// `None` if the token is passed over, as tags are if `tags` says so; or the fault, if no move can be made.
fn play_token<B: Board>(
    tags: bool,
    board: &mut B,
    at: usize,
    token: &Token<'_>,
) -> Result<Option<Position>, PgnFault>
    ensures { (before : Option Setup) (later : Option Setup → Setup → Option PgnFault)
        → after_token at before (B.position board.old) (token_move tags (B.position board.old) (token_seen token.now))
        later ≡ played before result (B.position board.new) later }
{
    let kind = match token_move(tags, board, token) {
        Ok(None) => return Ok(None),
        Ok(Some(m)) => {
            let before = board.position();
            board.make(m);
            return Ok(Some(before));
        }
        Err(kind) => kind,
    };
    Err(PgnFault { kind, offset: at })
}

// The position in which the moves of the variation at the offset `at` begin, and how many variations may be open in it.
// `before` is the position before the last move of the line that it is in (`None`: that has no move yet, which is a
// fault), and `depth` how many variations may be open in that line (0 is a fault).
fn opening(
    depth: usize,
    before: &Option<Position>,
    at: usize,
) -> Result<(Position, usize), PgnFault>
    ensures { result ≡ opening depth before.now at }
{
    let Some(start) = before else {
        return Err(PgnFault {
            kind: PgnFaultKind::BadToken,
            offset: at,
        });
    };
    match depth.checked_sub(1) {
        Some(inner) => Ok((*start, inner)),
        None => Err(PgnFault {
            kind: PgnFaultKind::TooLong,
            offset: at,
        }),
    }
}

// Reads a line (a game's own moves, or those of a variation) from the offset `at` on, whose moves begin in the position
// `start`: to the text's end, or to the variation's `)`. The board may be at any position before and after. At most
// `depth` variations may be open in the line. `tags`: whether tags are passed over, as those of a game are; in a
// variation each is a fault. Returns the first fault of the line or of a variation in it.
fn read_line<B: Board>(
    tags: bool,
    depth: usize,
    text: &[u8],
    at: usize,
    start: &Position,
    board: &mut B,
) -> Result<(), PgnFault>
    requires { at ≤ length text.now }
    ensures { result_err result
        ≡ line_fault tags text.now (inside depth text.now) None start.now (tokens_from text.now at) }
{
    board.set(start);
    // The position before the line's last move.
    let mut before = None;
    let mut offset = at;
    loop {
        let Some((token, token_end)) = token_at(text, offset)? else {
            return Ok(());
        };
        if is_variation(text, offset, &token) {
            let (first, inner_depth) = opening(depth, &before, offset)?;
            let here = board.position();
            read_line(false, inner_depth, text, offset + 1, &first, board)?;
            board.set(&here);
        } else if let Some(left) = play_token(tags, board, offset, &token)? {
            before = Some(left);
        }
        offset = token_end;
    }
}

/// Reads the variations of the game that begins at the offset `at` and ends where the text ends, right after its
/// termination marker. The game is one that `read_pgn` reads without a fault, from the position `start`. The moves of a
/// variation begin in the position before the move that it replaces, which is the one just before it in the game, or in
/// the variation of which it is a part. Each move must be legal where it is made, as in the game itself, but no draw
/// ends a variation. The board is only room for the positions. A byte order mark at `at` is to be skipped by the
/// caller.
///
/// The contract says: by the only split of each text into tokens (the law `a_text_has_one_split`) the fault is the
/// first in the variations.
///
/// # Errors
/// The first fault. A variation with no move before it is one (`BadToken`), and so are a tag in a variation, and a
/// variation in [`MOST_NESTED`] others (`TooLong`).
pub fn read_variations<B: Board>(
    text: &[u8],
    at: usize,
    start: &Position,
    board: &mut B,
) -> Result<(), PgnFault>
    requires { at ≤ length text.now }
    ensures fault { result_err result ≡ variations_fault tokens_from text.now start.now at }
    ensures within { IfErr result (λ fault. fault.offset ≤ length text.now) }
{
    if !has_variation(text, at) {
        return Ok(());
    }
    read_line(true, MOST_NESTED, text, at, start, board)
}
