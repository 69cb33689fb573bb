//! Games that go on after a draw by fivefold repetition or by 75 moves. The Laws of Chess have these two draws only
//! since 2014 (articles 9.6.1 and 9.6.2), so older games may have moves after them; but a `Game` takes no move after
//! one. Such a game is read a second time, without its moves being kept: after each move the `Game` begins anew, in the
//! position that the move leaves. A game without such moves is read once, by `read_pgn`.

ghost use Rattle.std.specs.Prelude.{◌≡◌, ℕ, ◌+◌, ◌-◌, ◌^◌, ◌≤◌, ◌<◌, true, false, length, codes, Err, option_and_then};
ghost use Rattle.chess_game.specs.Game.{current, from_start};
ghost use Rattle.chess_game.specs.declared.game.TheConstants.{MOST_MOVES};
ghost use Rattle.chess_text.specs.Moves.{reading};
ghost use Rattle.pgn_writer.specs.Terminations.{termination_named};
ghost use Rattle.chess_pgn.specs.GameRead.{not_of_2014, ending, moves_read, pgn_read};
ghost use Rattle.pgn_tokens.specs.LastTags.{tag_section, last_tag};
ghost use Rattle.pgn_tokens.specs.Tokens.{tokens_from};
ghost use Rattle.chess_pgn.specs.laws.WordKinds.{word_kind};
ghost use Rattle.pgn_tokens.specs.shared.Places.{IsWithin};
ghost use Rattle.chess_pgn.specs.PastDraws.{IsAnswer, Stands};
ghost use Rattle.chess_pgn.specs.ties.PastDraws.{IsReadAgain, closing_fault, is_past_draw, move_effect, next_position, stops_past_draw, token_effect, unread_fault, word_effect};
ghost use Rattle.pgn_tokens.specs.Seen.{found_seen, token_seen, fault_seen};

use crate::read::{PgnEnd, PgnFault, PgnFaultKind, read_pgn};
use crate::termination::termination_named;
use crate::word_kind::{WordKind, word_kind};
use byte_devices::after_byte_order_mark;
use chess_base::Position;
use chess_game::{Game, MOST_MOVES, Outcome, Verdict};
use chess_moves::Board;
use chess_text::{Reading, read_move};
use pgn_tokens::{Tag, Token, TokenFault, after_tags, last_tag, next_token};
use pgn_writer::Termination;

/// A game that was read to its termination marker.
#[derive(Clone, Copy)]
pub struct ReadGame {
    /// How its text ended.
    pub end: PgnEnd,
    /// The position from which it started.
    pub start: Position,
    /// How many half-moves it has.
    pub plies: usize,
}

// What a token after a game's tags does.
enum Effect {
    // It changes nothing: it is skipped, or a number or marks.
    Nothing,
    // It is a move, which leaves this position.
    Move(Position),
    // It is the termination marker, which names this outcome and ends before this offset.
    End(Outcome, usize),
}

// A verdict, unless it is one of the two draws of 2014.
fn not_of_2014(verdict: Verdict) -> Option<Verdict>
    ensures { result ≡ not_of_2014 verdict }
{
    match verdict {
        Verdict::FivefoldRepetition | Verdict::SeventyFiveMoves => None,
        Verdict::WhiteMates => Some(Verdict::WhiteMates),
        Verdict::BlackMates => Some(Verdict::BlackMates),
        Verdict::Stalemate => Some(Verdict::Stalemate),
        Verdict::InsufficientMaterial => Some(Verdict::InsufficientMaterial),
    }
}

/// The verdict that ends a game for its reader, if any. `draws_of_2014`: whether fivefold repetition and 75 moves do,
/// which the Laws of Chess have only had since 2014.
pub fn ending<B: Board>(draws_of_2014: bool, game: &Game<B>) -> Option<Verdict>
    ensures { result ≡ ending draws_of_2014 game.now.state }
{
    let verdict = game.verdict();
    if draws_of_2014 {
        return verdict;
    }
    let verdict = verdict?;
    not_of_2014(verdict)
}

// Whether a fault of this kind is a move after one of the two draws of 2014, which has ended the game.
fn is_past_draw<B: Board>(kind: PgnFaultKind, game: &Game<B>) -> bool
    ensures { result ≡ is_past_draw kind game.now.state }
{
    if let PgnFaultKind::AfterEnd = kind {
        return ending(false, game).is_none();
    }
    false
}

// What a tag `Termination` says, given as `tag`; `None` if there is no such tag, or if its text is unknown.
fn termination_of(tag: Option<Tag<'_>>) -> Option<Termination>
    ensures { result ≡ option_and_then (λ t. termination_named t.0) (found_seen tag.entry) }
{
    match tag {
        Some(tag) => termination_named(tag.text),
        None => None,
    }
}

// What the last tag `Termination` of the game whose text begins at the offset `at` says.
fn tagged_termination(text: &[u8], at: usize) -> Option<Termination>
    requires { at ≤ length text.now }
    ensures { result ≡ option_and_then (λ tag. termination_named tag.0)
        (last_tag (codes "Termination") (tag_section (tokens_from text.now at))) }
{
    termination_of(last_tag(text, at, b"Termination"))
}

// The fault to report for any move in the game of so many half-moves (`plies`): `AfterEnd` if a verdict ends it, but
// for the draws of 2014; `TooLong` if it has as many half-moves as a game may have. `None` if a move may be played.
fn closing_fault<B: Board>(game: &Game<B>, plies: usize) -> Option<PgnFaultKind>
    ensures { result ≡ closing_fault (ending false game.now.state) plies }
{
    if ending(false, game).is_some() {
        Some(PgnFaultKind::AfterEnd)
    } else if plies < MOST_MOVES as usize {
        None
    } else {
        Some(PgnFaultKind::TooLong)
    }
}

// The position after the move that a word denotes in the game of so many half-moves (`plies`), or the fault to report.
fn next_position<B: Board>(
    game: &Game<B>,
    plies: usize,
    word: &[u8],
) -> Result<Position, PgnFaultKind>
    ensures { result ≡ next_position (closing_fault (ending false game.now.state) plies) (current game.now.state)
        (reading (current game.now.state) word.now) }
{
    match read_move(game.board(), word) {
        Reading::NotAMove => Err(PgnFaultKind::BadToken),
        Reading::Ambiguous => {
            Err(closing_fault(game, plies).unwrap_or(PgnFaultKind::AmbiguousMove))
        }
        Reading::NoSuch => Err(closing_fault(game, plies).unwrap_or(PgnFaultKind::IllegalMove)),
        Reading::Move(m) => match closing_fault(game, plies) {
            Some(kind) => Err(kind),
            None => Ok(game.position().after(m)),
        },
    }
}

// What a word at `offset` does that is taken as a move, in the game of so many half-moves (`plies`): it leaves the
// position after the move, or is a fault.
fn move_effect<B: Board>(
    game: &Game<B>,
    plies: usize,
    offset: usize,
    word: &[u8],
) -> Result<Effect, PgnFault>
    ensures { result ≡ move_effect offset (next_position (closing_fault (ending false game.now.state) plies)
        (current game.now.state) (reading (current game.now.state) word.now)) }
{
    match next_position(game, plies, word) {
        Ok(next) => Ok(Effect::Move(next)),
        Err(kind) => Err(PgnFault { kind, offset }),
    }
}

// What a word at `offset` does in the game of so many half-moves (`plies`): it ends the game, is passed over, makes a
// move, or is a fault.
fn word_effect<B: Board>(
    game: &Game<B>,
    plies: usize,
    offset: usize,
    word: &[u8],
) -> Result<Effect, PgnFault>
    requires within { offset + length word.now < 2 ^ 64 }
    ensures { result ≡ word_effect plies game.now.state offset word.now (word_kind word.now) }
{
    match word_kind(word) {
        WordKind::End(outcome) => Ok(Effect::End(outcome, offset + word.len())),
        WordKind::Number | WordKind::Marks => Ok(Effect::Nothing),
        WordKind::Move => move_effect(game, plies, offset, word),
    }
}

// What the token at `offset` of a text of `len` bytes does after the tags, in the game of so many half-moves (`plies`),
// or its fault. A tag is one: it begins the next game, so this game has no termination marker.
fn token_effect<B: Board>(
    game: &Game<B>,
    plies: usize,
    len: usize,
    offset: usize,
    token: &Token<'_>,
) -> Result<Effect, PgnFault>
    requires within { IsWithin (len - offset) (token_seen token.now) }
    requires offset { offset ≤ len }
    ensures { result ≡ token_effect plies len game.now.state (len - offset) (token_seen token.now) }
{
    match token {
        Token::Skip => Ok(Effect::Nothing),
        Token::Tag(_) => Err(PgnFault {
            kind: PgnFaultKind::NoResult,
            offset,
        }),
        Token::Word(word) => word_effect(game, plies, offset, word),
    }
}

// The fault to report where no token can be read at `offset` of a text of `len` bytes, after the tags.
fn unread_fault(fault: TokenFault, len: usize, offset: usize) -> PgnFault
    requires within { IsWithin (len - offset) (fault_seen fault) }
    requires offset { offset ≤ len }
    ensures { result ≡ unread_fault len (len - offset) (fault_seen fault) }
{
    match fault {
        TokenFault::BadTag => PgnFault {
            kind: PgnFaultKind::NoResult,
            offset,
        },
        TokenFault::UnclosedComment { to_end } => PgnFault {
            kind: PgnFaultKind::UnclosedComment,
            offset: len - to_end,
        },
        TokenFault::UnclosedVariation => PgnFault {
            kind: PgnFaultKind::UnclosedVariation,
            offset,
        },
        TokenFault::BadByte => PgnFault {
            kind: PgnFaultKind::BadToken,
            offset,
        },
    }
}

// Reads the moves of the game that starts in the position `start` from the offset `at` on, where its tags end, to its
// termination marker. Returns the end and how many half-moves there are, or the first fault. `termination` is what its
// last tag `Termination` says. `game` begins anew after each move, so it is then at the position in which reading
// stopped.
fn read_moves<B: Board>(
    text: &[u8],
    at: usize,
    termination: Option<Termination>,
    start: &Position,
    game: &mut Game<B>,
) -> Result<(PgnEnd, usize), PgnFault>
    requires { at ≤ length text.now }
    ensures read { IsReadAgain (moves_read false MOST_MOVES (length text.now) termination (from_start start.now)
        (tokens_from text.now at)) result game.new.state }
    ensures limit { game.new.limit ≡ game.old.limit }
{
    game.restart(start);
    let mut offset = at;
    let mut plies = 0;
    loop {
        match next_token(text, offset) {
            Ok(Some((token, token_end))) => {
                let effect = token_effect(game, plies, text.len(), offset, &token)?;
                match effect {
                    Effect::End(outcome, end) => {
                        let end = PgnEnd {
                            outcome,
                            termination,
                            offset: end,
                        };
                        return Ok((end, plies));
                    }
                    Effect::Move(next) => {
                        game.restart(&next);
                        plies += 1;
                    }
                    Effect::Nothing => {}
                }
                offset = token_end;
            }
            Ok(None) => {
                return Err(PgnFault {
                    kind: PgnFaultKind::NoResult,
                    offset: text.len(),
                })
            }
            Err(fault) => return Err(unread_fault(fault, text.len(), offset)),
        }
    }
}

// Reads a game again in which `read_pgn` stopped at a move after one of the two draws of 2014, as if these ended no
// game. `game` is as `read_pgn` left it; then it is at the position in which reading stopped.
fn read_anew<B: Board>(
    text: &[u8],
    at: usize,
    game: &mut Game<B>,
) -> Result<Option<ReadGame>, PgnFault>
    requires at { at ≤ length text.now }
    requires past { stops_past_draw (pgn_read true MOST_MOVES text.now at) ≡ true }
    requires game { game.old.state ≡ (pgn_read true MOST_MOVES text.now at).state }
    ensures answer { IsAnswer (pgn_read false MOST_MOVES text.now at) result }
    ensures game { Stands false game.new.state (pgn_read false MOST_MOVES text.now at).state }
    ensures limit { game.new.limit ≡ game.old.limit }
{
    let first = after_byte_order_mark(text, at);
    let termination = tagged_termination(text, first);
    let moves_begin = after_tags(text, first);
    // The prover wants two variables here: one position is lent, and one is kept.
    let begin = game.start();
    let start = game.start();
    let (end, plies) = read_moves(text, moves_begin, termination, &begin, game)?;
    Ok(Some(ReadGame { end, start, plies }))
}

// Reads a game again for which `read_pgn` has returned this fault, if it is a move after one of the two draws of 2014.
// Any other fault is returned.
fn read_again<B: Board>(
    text: &[u8],
    at: usize,
    fault: PgnFault,
    game: &mut Game<B>,
) -> Result<Option<ReadGame>, PgnFault>
    requires at { at ≤ length text.now }
    requires fault { (pgn_read true MOST_MOVES text.now at).answer ≡ Err fault }
    requires game { game.old.state ≡ (pgn_read true MOST_MOVES text.now at).state }
    ensures answer { IsAnswer (pgn_read false MOST_MOVES text.now at) result }
    ensures game { Stands false game.new.state (pgn_read false MOST_MOVES text.now at).state }
    ensures limit { game.new.limit ≡ game.old.limit }
{
    if is_past_draw(fault.kind, game) {
        return read_anew(text, at, game);
    }
    Err(fault)
}

/// Reads the first game of a text from the offset `at` on, as `read_pgn` does, but as if the Laws of Chess hadn't the
/// draws by fivefold repetition and by 75 moves, which they have only had since 2014: a move after one is read like any
/// other. `game` must be opened for as many half-moves as a game can have (`MOST_MOVES`).
///
/// `game` is then at the position in which reading stopped, and the same verdict ends it as the game that was read, if
/// any (`Stands`). It has the game's moves only if none came after such a draw.
///
/// # Errors
/// The first fault of the game's text, with its offset.
pub fn read_past_draws<B: Board>(
    text: &[u8],
    at: usize,
    game: &mut Game<B>,
) -> Result<Option<ReadGame>, PgnFault>
    requires at { at ≤ length text.now }
    requires limit { game.old.limit ≡ MOST_MOVES }
    ensures answer { IsAnswer (pgn_read false MOST_MOVES text.now at) result }
    ensures game { Stands false game.new.state (pgn_read false MOST_MOVES text.now at).state }
    ensures limit { game.new.limit ≡ game.old.limit }
{
    match read_pgn(text, at, game) {
        Ok(None) => Ok(None),
        Ok(Some(end)) => Ok(Some(ReadGame {
            end,
            start: game.start(),
            plies: game.ply(),
        })),
        Err(fault) => read_again(text, at, fault, game),
    }
}
