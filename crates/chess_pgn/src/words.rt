//! Plays the moves of a game's text, and passes over the numbers, white space, dots and comments between them. All
//! half-moves of a game are played in one loop, `play_words`, into which the other functions are inlined.

ghost use Rattle.std.specs.Prelude.{◌≡◌, ◌≤◌, ◌<◌, true, false, length, None};
ghost use Rattle.std.specs.Option.{IfSome};
ghost use Rattle.chess_game.specs.Game.{current};
ghost use Rattle.chess_text.specs.Moves.{reading};
ghost use Rattle.chess_pgn.specs.laws.WordKinds.{word_kind};
ghost use Rattle.chess_pgn.specs.laws.TokenByToken.{move_step, word_step};
ghost use Rattle.pgn_tokens.specs.Tokens.{tokens_from};
ghost use Rattle.chess_pgn.specs.ties.GameSteps.{ReadsAlike, is_played, IsNoMove, StopsAt, IsTaken, GoesOn};

use crate::progress::Progress;
use crate::word_kind::{WordKind, word_kind};
use chess_game::Game;
use chess_moves::Board;
use chess_text::{Reading, read_move};
use pgn_tokens::{after_blanks, after_brace, split_word};

// The offset after the `{` comment that begins at the offset `at`: 3 for `{a} e5` at 0. `None` if no `{` is there, or
// no `}` follows it. The comment changes nothing: reading on from both offsets gives the same (`ReadsAlike`).
#[inline(always)]
fn after_comment(text: &[u8], at: usize) -> Option<usize>
    requires { at ≤ length text.now }
    ensures { IfSome result (λ end.
        ReadsAlike text.now at end × (at < end) × (end ≤ length text.now)) }
{
    let [first, rest @ ..] = &text[at..] else {
        return None;
    };
    if *first != b'{' {
        return None;
    }
    match after_brace(rest) {
        Some(tail) => Some(text.len() - tail.len()),
        None => None,
    }
}

// Skips white space, dots and closed `{` comments from the offset `at` on. Returns the offset after them, which is
// mostly that of a number or move: 9 for `. {best} e5` from 0 on. Reading on from both offsets gives the same
// (`ReadsAlike`), since `next_token` would return each of these bytes and comments as a `Token::Skip`. Here no tokens
// are made, so that `play_words` stays in its loop from one word to the next. `$` glyphs, variations, `%` lines and `;`
// comments are rarer, and are left to `next_token`.
#[inline(always)]
pub(crate) fn after_skipped(text: &[u8], at: usize) -> usize
    requires { at ≤ length text.now }
    ensures alike { ReadsAlike text.now at result }
    ensures forward { at ≤ result }
    ensures within { result ≤ length text.now }
{
    let first = after_blanks(text, at);
    let mut offset = first;
    while let Some(comment_end) = after_comment(text, offset) {
        offset = after_blanks(text, comment_end);
    }
    offset
}

// Plays the move that a word such as `Nf3` denotes in the current position, and returns whether it did. It doesn't, and
// nothing changes, if the word denotes no legal move or several, or if the game is over, or has as many half-moves as
// its limit allows.
//
// `left`: after false the word is no move that the game plays. `taken`: after true the game is as the definition
// `move_step` says, after false as it was.
#[inline(always)]
fn try_move<B: Board>(game: &mut Game<B>, word: &[u8]) -> bool
    requires { game.old.state.declared ≡ None }
    ensures limit { game.new.limit ≡ game.old.limit }
    ensures left { result ≡ false → is_played game.new (reading (current game.new.state) word.now) ≡ false }
    ensures taken { IsTaken result game.old game.new
        (λ g offset. move_step true game.old.limit g offset (reading (current game.old.state) word.now)) }
{
    let Reading::Move(m) = read_move(game.board(), word) else {
        return false;
    };
    if game.refusal_of_moving(&m).is_some() {
        return false;
    }
    game.play_legal(m);
    true
}

// Plays the move that a word denotes, if it can be played (`try_move`), or passes over a number such as `12`. Returns
// whether it did one of these. For any other word nothing changes and it returns false; also for the empty word, which
// `split_word` returns where no word begins, and which `word_kind` would take for a number.
//
// `left`: after false the word is no move that the game plays. `taken`: after true the game is as the definition
// `word_step` says, after false as it was.
#[tactic(auto, using(crate::proofs::LeftTokens::move_has_bytes))]
#[inline(always)]
fn try_word<B: Board>(game: &mut Game<B>, word: &[u8]) -> bool
    requires { game.old.state.declared ≡ None }
    ensures limit { game.new.limit ≡ game.old.limit }
    ensures some { result ≡ true → 0 < length word.now }
    ensures left { result ≡ false → IsNoMove game.new word.now (word_kind word.now) }
    ensures taken { IsTaken result game.old game.new
        (λ g offset. word_step true game.old.limit g offset word.now (word_kind word.now)) }
{
    match word_kind(word) {
        WordKind::Move => try_move(game, word),
        WordKind::Number => !word.is_empty(),
        WordKind::End(_) | WordKind::Marks => false,
    }
}

// Plays the moves from the offset `at` on. Passes over numbers, and over the white space, dots and closed comments that
// follow a number or move. Stops at whatever else comes, such as a termination marker, a variation or an illegal move,
// and returns its offset. Of `1. e4 {best} e5 1-0` from 0 on it plays two moves and returns the offset of `1-0`.
// `progress` notes that a number or move was read.
//
// No `Token` and no `Step` is made of these words: to pass those through memory took a seventh of the instructions on
// plain games.
//
// `taken`: reading on from the offset returned gives the same as reading from `at` would have given. `left`: the token
// at that offset is no move that can be played.
pub(crate) fn play_words<B: Board>(
    text: &[u8],
    at: usize,
    game: &mut Game<B>,
    progress: &mut Progress,
) -> usize
    requires within { at ≤ length text.now }
    requires undeclared { game.old.state.declared ≡ None }
    ensures taken { GoesOn text.now at game.old progress.old result game.new progress.new }
    ensures left { StopsAt game.new (tokens_from text.now result) }
{
    let mut offset = at;
    loop {
        let (word, tail) = split_word(&text[offset..]);
        if !try_word(game, word) {
            return offset;
        }
        *progress = progress.begun();
        offset = after_skipped(text, text.len() - tail.len());
    }
}
