//! Reads a game's tags, moves and termination marker: the token `1-0`, `0-1`, `1/2-1/2` or `*` that ends a game's text
//! (PGN standard of 1994, section 8.2.6). "Termination" alone means the tag of this name, but in the text of `BadToken`
//! it means the marker. Small functions that the loops over tokens call for most tokens are inlined, for the reason at
//! the head of pgn_tokens' token.rt.
//!
//! Contracts here compare results with the definitions of TokenByToken, such as `word_step`. `so_far` and `step_seen`
//! give the code's values in the form of these definitions.

ghost use Rattle.std.specs.Prelude.{◌≡◌, ℕ, ◌+◌, ◌-◌, ◌^◌, ◌≤◌, ◌<◌, true, false, length, None, IfOk, IfErr, Err, is_some, IsNone, OnErr};
ghost use Rattle.std.specs.Option.{IfSome, option_map_or};
ghost use Rattle.chess_game.specs.Game.{State, with_state, current, verdict_now, refusal_now};
ghost use Rattle.chess_base.specs.declared.man.Variant.TheVariants.{Normal};
ghost use Rattle.chess_text.specs.Moves.{reading};
ghost use Rattle.chess_pgn.specs.laws.WordKinds.{word_kind};
ghost use Rattle.pgn_tokens.specs.Seen.{found_seen, token_seen, fault_seen};
ghost use Rattle.chess_pgn.specs.GameRead.{GameRead, IsRead, declared_after, tagged_variant, pgn_read};
ghost use Rattle.chess_pgn.specs.shared.VariantNames.{variant_named};
ghost use Rattle.chess_pgn.specs.laws.TokenByToken.{move_step, word_step, tag_step, step};
ghost use Rattle.pgn_tokens.specs.LastTags.{tag_section};
ghost use Rattle.pgn_tokens.specs.Tokens.{tokens_from};
ghost use Rattle.chess_pgn.specs.ties.GameSteps.{refusal_kind, EndsIn, so_far, step_seen, IsReadOn, is_played, IsNoMove, IsLeft};
ghost use Rattle.pgn_tokens.specs.shared.Places.{IsWithin};

use crate::progress::Progress;
use crate::word_kind::{WordKind, word_kind};
use crate::words::{after_skipped, play_words};
use byte_devices::after_byte_order_mark;
use chess_base::{FenFault, Position, Variant};
use chess_fen::read_fen_as;
use chess_game::{Comment, Game, Outcome, PlayRefusal};
use chess_moves::Board;
use chess_text::{Reading, read_move};
use pgn_tokens::{
    Tag, Token, TokenFault, after_blanks, last_tag, may_precede_tags, named_tag, next_token,
};
use pgn_writer::Termination;

/// How a game's text ended, and where. It ends with its termination marker, the token `1-0`, `0-1`, `1/2-1/2` or `*`.
#[derive(Clone, Copy, Debug, PartialEq, Eq)]
pub struct PgnEnd {
    /// The outcome that the termination marker names. The game's own outcome may differ from it: if the board has a
    /// verdict, such as mate, the game has the verdict's outcome.
    pub outcome: Outcome,
    /// How the game ended, as its last tag `Termination` says; `None` if it has no such tag, or if the last one has an
    /// unknown text. It is not compared with the outcome.
    pub termination: Option<Termination>,
    /// The offset of the byte after the termination marker, counted from the text's first byte.
    pub offset: usize,
}

/// Why a game's text can't be read.
#[derive(Clone, Copy, Debug, PartialEq, Eq, thiserror::Error)]
pub enum PgnFaultKind {
    /// A `[` that begins no tag, before the game's first number or move. (After these it is `NoResult`.)
    #[error("a bracket begins no tag")]
    BadTag,
    /// A FEN that denotes no sound position, and why; the offset is that of the FEN's first byte.
    #[error("the FEN denotes no position: {0}")]
    BadFen(FenFault),
    /// A byte that begins no token, or a word that is no number, marks or termination marker and hasn't a move's form.
    #[error("this is no token, move, number or termination")]
    BadToken,
    /// A word that has a move's form, but denotes no legal move.
    #[error("the move is not legal")]
    IllegalMove,
    /// A text that several legal moves fit.
    #[error("several legal moves fit")]
    AmbiguousMove,
    /// A move after the board has ended the game, as by mate.
    #[error("the move comes after the end of the game")]
    AfterEnd,
    /// A move in a game that already has as many half-moves as its limit allows.
    #[error("the game has too many moves")]
    TooLong,
    /// A comment without its `}`; the offset is that of its `{`.
    #[error("the comment is not closed")]
    UnclosedComment,
    /// A variation without its `)`; the offset is that of the `(` of the outermost variation.
    #[error("the variation is not closed")]
    UnclosedVariation,
    /// No termination marker before the next game's tags, which begin with a `[` after a number or move, or before the
    /// text's end. The offset is that of this `[`, or the text's length.
    #[error("the game has no result")]
    NoResult,
}

/// The first fault of a game's text.
#[derive(Clone, Copy, Debug, PartialEq, Eq, thiserror::Error)]
#[error("{kind} at byte {offset}")]
pub struct PgnFault {
    pub kind: PgnFaultKind,
    /// Where the fault is, counted from the text's first byte.
    pub offset: usize,
}

// What follows from one token of a game's text.
enum Step {
    // Reading continues; the value is what is known after the token.
    On(Progress),
    // The token was the termination marker, which ends the game's text.
    Ended(PgnEnd),
}

// Whether the board has ended the game, as by mate: no move is played after such a verdict.
fn is_decided<B: Board>(game: &Game<B>) -> bool
    ensures { result ≡ is_some (verdict_now game.now.state) }
{
    game.verdict().is_some()
}

// The fault to report for a move that the game refuses: `AfterEnd` if the game is over, `TooLong` if it has as many
// half-moves as its limit allows, and `IllegalMove` if the move is illegal.
fn refusal_kind(refusal: PlayRefusal) -> PgnFaultKind
    ensures { result ≡ refusal_kind refusal }
{
    match refusal {
        PlayRefusal::Over => PgnFaultKind::AfterEnd,
        PlayRefusal::TooLong => PgnFaultKind::TooLong,
        PlayRefusal::Illegal => PgnFaultKind::IllegalMove,
    }
}

// The fault to report for a word that has a move's form but is not played: `AfterEnd` if the game is over, `TooLong` if
// it is not over but full, and otherwise `kind`, which is the fault of the word itself, such as `AmbiguousMove`.
fn unplayed_kind<B: Board>(game: &Game<B>, kind: PgnFaultKind) -> PgnFaultKind
    ensures { result ≡ option_map_or refusal_kind (refusal_now game.now) kind }
{
    match game.refusal() {
        Some(refusal) => refusal_kind(refusal),
        None => kind,
    }
}

// The fault of the word at `offset`, which is of the kind `WordKind::Move` but can't be played (`left`): it hasn't a
// move's form, denotes no legal move or several, or the game is over or full. To find out which, the word is read
// again. This happens at most once in a game, since reading ends with the fault. The contract says that the definition
// `move_step` gives the same fault, whatever was known before the word (`p`).
#[inline(never)]
fn fault_of_move<B: Board>(game: &Game<B>, offset: usize, word: &[u8]) -> PgnFault
    requires undeclared { game.now.state.declared ≡ None }
    requires left { is_played game.now (reading (current game.now.state) word.now) ≡ false }
    ensures { (p : Progress) → step_seen game.now.state (Err result)
        ≡ move_step true game.now.limit (so_far game.now.state p) offset (reading (current game.now.state) word.now) }
{
    let kind = match read_move(game.board(), word) {
        Reading::NotAMove => PgnFaultKind::BadToken,
        Reading::Ambiguous => unplayed_kind(game, PgnFaultKind::AmbiguousMove),
        // A legal move is left only if the game is over or full, so for it `unplayed_kind` never returns `IllegalMove`.
        Reading::Move(_) | Reading::NoSuch => unplayed_kind(game, PgnFaultKind::IllegalMove),
    };
    PgnFault { kind, offset }
}

// Declares `outcome`, which the game's termination marker names, as the game's result, without a comment. Nothing is
// declared for `*`, or if the board has ended the game, as by mate: then the game has the board's outcome, even if the
// marker names another (see `PgnEnd`).
fn declare_outcome<B: Board>(game: &mut Game<B>, outcome: Outcome)
    requires { game.old.state.declared ≡ None }
    ensures { game.new
        ≡ with_state game.old
        (record game.old.state { declared = declared_after (is_some (verdict_now game.old.state)) outcome }) }
{
    if outcome != Outcome::Unfinished && !is_decided(game) {
        game.declare_open(outcome, Comment::cut(b""));
    }
}

// Applies the word at `offset` to the game. A termination marker such as `1-0` ends the game (`declare_outcome`).
// Reading continues after marks, and would after a number, but `play_words` has passed over those. A word that may be a
// move is a fault, since it is no move that can be played (`left`): `play_words` has played those. `progress` is what
// is known before the word.
//
// `ended`: the offset returned with an end is after the word's first byte, and at most after its last.
#[tactic(auto, using(crate::proofs::StepKinds::outcome_mark_has_bytes))]
#[inline(always)]
fn apply_word<B: Board>(
    game: &mut Game<B>,
    progress: Progress,
    offset: usize,
    word: &[u8],
) -> Result<Step, PgnFault>
    requires undeclared { game.old.state.declared ≡ None }
    requires within { offset + length word.now < 2 ^ 64 }
    requires left { IsNoMove game.old word.now (word_kind word.now) }
    ensures limit { game.new.limit ≡ game.old.limit }
    ensures ended { EndsIn offset (offset + length word.now) result }
    ensures step { step_seen game.new.state result
        ≡ word_step true game.old.limit (so_far game.old.state progress) offset word.now (word_kind word.now) }
{
    match word_kind(word) {
        WordKind::End(outcome) => {
            declare_outcome(game, outcome);
            let offset = offset + word.len();
            Ok(Step::Ended(PgnEnd {
                outcome,
                termination: progress.termination,
                offset,
            }))
        }
        WordKind::Number => Ok(Step::On(progress.begun())),
        WordKind::Marks => Ok(Step::On(progress)),
        WordKind::Move => Err(fault_of_move(game, offset, word)),
    }
}

// Applies a tag to the game. The tag `FEN` makes the game begin anew from its position, read in the variant that the
// game already has (`begin_game` has seen to that). A FEN that denotes no position is a fault. Of other tags only the
// value of `Termination` is kept. `progress` is what is known before the tag; `offset` is where its string begins, for
// the fault.
//
// `ended` says that a tag never ends the game, since no offset is more than 0 and at most 0 (`EndsIn 0 0`).
fn apply_tag<B: Board>(
    game: &mut Game<B>,
    progress: Progress,
    tag: &Tag<'_>,
    offset: usize,
) -> Result<Step, PgnFault>
    ensures limit { game.new.limit ≡ game.old.limit }
    ensures ended { EndsIn 0 0 result }
    ensures step { step_seen game.new.state result
        ≡ tag_step (so_far game.old.state progress) tag.now.name.now tag.now.text.now offset }
{
    if let b"FEN" = tag.name {
        match read_fen_as(game.variant(), tag.text) {
            Ok(start) => game.restart(&start),
            Err(fault) => {
                return Err(PgnFault {
                    kind: PgnFaultKind::BadFen(fault),
                    offset,
                });
            }
        }
    }
    Ok(Step::On(progress.after_tag(tag)))
}

// Applies the token at `offset` of a text of `len` bytes to the game. Returns what is then known, if reading continues;
// how the game's text ended, if the token is its termination marker; or a fault. A tag after a number or a move is a
// fault: it begins the next game, so this game has no termination marker. The token is no move that can be played
// (`left`): `play_words` has played those, and `read_normal_tags` gives none. `progress` is what is known before the
// token.
//
// `within`: the token's word or string is in the text from `offset` on. `ended`: the offset returned with an end is
// after `offset`, and in the text.
#[inline(always)]
fn apply_token<B: Board>(
    game: &mut Game<B>,
    progress: Progress,
    len: usize,
    offset: usize,
    token: &Token<'_>,
) -> Result<Step, PgnFault>
    requires undeclared { game.old.state.declared ≡ None }
    requires within { IsWithin (len - offset) (token_seen token.now) }
    requires offset { offset ≤ len }
    requires left { IsLeft game.old (token_seen token.now) }
    ensures limit { game.new.limit ≡ game.old.limit }
    ensures ended { EndsIn offset len result }
    ensures step { step_seen game.new.state result
        ≡ step true game.old.limit len (so_far game.old.state progress) (len - offset) (token_seen token.now) }
{
    match token {
        Token::Skip => Ok(Step::On(progress)),
        Token::Tag(_) if progress.is_begun => Err(PgnFault {
            kind: PgnFaultKind::NoResult,
            offset,
        }),
        Token::Tag(tag) => apply_tag(game, progress, tag, len - tag.to_end),
        Token::Word(word) => apply_word(game, progress, offset, word),
    }
}

// The fault to report where `next_token` can read no token at `offset` of a text of `len` bytes. `fault` is the reason
// that it returned, and `progress` is what was known before. A bad tag after a number or a move belongs to the next
// game, so it is reported as `NoResult`: this game has no termination marker. An unclosed comment is reported at its
// `{`, which may be inside a variation that begins at `offset`; `to_end` bytes are left there.
fn reported_fault(fault: TokenFault, progress: Progress, len: usize, offset: usize) -> PgnFault
    requires within { IsWithin (len - offset) (fault_seen fault) }
    requires offset { offset ≤ len }
    ensures { (limit : ℕ) (s : State)
        → step_seen s (Err result) ≡ step true limit len (so_far s progress) (len - offset) (fault_seen fault) }
{
    match fault {
        TokenFault::BadTag if progress.is_begun => PgnFault {
            kind: PgnFaultKind::NoResult,
            offset,
        },
        TokenFault::BadTag => PgnFault {
            kind: PgnFaultKind::BadTag,
            offset,
        },
        TokenFault::UnclosedComment { to_end } => PgnFault {
            kind: PgnFaultKind::UnclosedComment,
            offset: len - to_end,
        },
        TokenFault::UnclosedVariation => PgnFault {
            kind: PgnFaultKind::UnclosedVariation,
            offset,
        },
        TokenFault::BadByte => PgnFault {
            kind: PgnFaultKind::BadToken,
            offset,
        },
    }
}

// The variant that the text of a tag `Variant` names: Chess960 for `fischerandom`, `fischerrandom` and `chess960`, in
// capital or small letters, and normal chess for any other text.
fn variant_named(text: &[u8]) -> Variant
    ensures { result ≡ variant_named text.now }
{
    if text.eq_ignore_ascii_case(b"fischerandom")
        || text.eq_ignore_ascii_case(b"fischerrandom")
        || text.eq_ignore_ascii_case(b"chess960")
    {
        Variant::Fischerandom
    } else {
        Variant::Normal
    }
}

// The variant that the tag `Variant` given as `tag` names; normal chess if it is `None`, which means no such tag.
#[inline(always)]
fn variant_of(tag: Option<Tag<'_>>) -> Variant
    ensures { result ≡ option_map_or (λ t. variant_named t.0) (found_seen tag.entry) Normal }
{
    match tag {
        Some(tag) => variant_named(tag.text),
        None => Variant::Normal,
    }
}

// The variant of the game whose text begins at the offset `at`, as its last tag `Variant` names it; normal chess if it
// has no such tag. The game's tags end before its first number, move or termination marker, or before what can't be
// read.
fn tagged_variant(text: &[u8], at: usize) -> Variant
    requires { at ≤ length text.now }
    ensures { result ≡ tagged_variant (tag_section (tokens_from text.now at)) }
{
    variant_of(last_tag(text, at, b"Variant"))
}

// Sets the game to the initial position of normal chess and reads the tags from the offset `at` on in one pass. Without
// it the tags of each game would be read twice: first for the variant (`tagged_variant`), then by `read_pgn`. Returns
// what is known after the tags, and the offset after them: that of the first number or termination marker, or of any
// other word but marks, be it a legal move or not; or that of the text's end. Reading on from there gives the same as
// reading from `at` (`IsReadOn`).
//
// Returns the offset of a token as `Err` if it is a tag that names Chess960 or a bad FEN, or can't be read:
// `begin_game` then restarts the game, in the variant that the tags from there on name. The loop is not that of
// `read_pgn`: it stops before the first number or move, and leaves tags with a fault to be read anew, where that one
// reports the fault.
#[tactic(auto, using(crate::proofs::GameReads::same_variant))]
fn read_normal_tags<B: Board>(
    text: &[u8],
    at: usize,
    game: &mut Game<B>,
) -> Result<(Progress, usize), usize>
    requires { at ≤ length text.now }
    ensures limit { game.new.limit ≡ game.old.limit }
    ensures read { IfOk result (λ r. IsReadOn game.old.limit text.now at game.new r.0 r.1) }
    ensures within { IfErr result (λ here. here ≤ length text.now) }
    ensures variant { IfErr result (λ here. tagged_variant (tag_section (tokens_from text.now here))
        ≡ tagged_variant (tag_section (tokens_from text.now at))) }
{
    game.restart(&Position::initial());
    let mut progress = Progress::none();
    let mut offset = at;
    loop {
        let Ok(next) = next_token(text, offset) else {
            return Err(offset);
        };
        let Some((token, token_end)) = next else {
            return Ok((progress, offset));
        };
        if !may_precede_tags(&token) {
            return Ok((progress, offset));
        }
        // The variant is `Normal` also for any token that is no tag `Variant`.
        match variant_of(named_tag(b"Variant", &token)) {
            Variant::Normal => {}
            Variant::Fischerandom => return Err(offset),
        }
        match apply_token(game, progress, text.len(), offset, &token) {
            Ok(Step::On(further)) => progress = further,
            // Never reached: only a termination marker ends a game, and before one the function has returned above.
            Ok(Step::Ended(_)) => return Err(offset),
            Err(_) => return Err(offset),
        }
        offset = after_blanks(text, token_end);
    }
}

// Begins the game whose text begins at the offset `at`. Returns what is known of it, and an offset: reading on from
// there gives the same as reading from `at` (`IsReadOn`).
//
// The variant must be known before a FEN is read, and the tag `Variant` may come after the tag `FEN`. Most games are
// of normal chess, so the tags are first read as such; the offset is then after them. If a tag names Chess960, or the
// tags can't be read to their end, the tags from there on say which variant it is. The game is set to its initial
// position, and the offset is `at`: the caller then reads the tags. So no tag is read more than twice.
#[tactic(auto, using(crate::proofs::GameReads::first))]
fn begin_game<B: Board>(text: &[u8], at: usize, game: &mut Game<B>) -> (Progress, usize)
    requires { at ≤ length text.now }
    ensures limit { game.new.limit ≡ game.old.limit }
    ensures read { IsReadOn game.old.limit text.now at game.new result.0 result.1 }
{
    match read_normal_tags(text, at, game) {
        Ok(read) => read,
        Err(tag_at) => {
            game.restart(&Position::initial_of(tagged_variant(text, tag_at)));
            (Progress::none(), at)
        }
    }
}

/// Reads the first game of a text from the offset `at` on, up to its termination marker such as `1-0` (PGN standard of
/// 1994; this project decides which words are accepted). `game` begins anew, from the position of the last tag `FEN` or
/// from the initial position, in the variant that the last tag `Variant` names. The moves are played as they are read.
/// The outcome that the marker names is declared, unless it is `*` or the board has ended the game, as by mate.
///
/// Returns this outcome, what the last tag `Termination` says, and the offset after the marker, from which the next
/// game is read. Returns `None` if there is no tag, number, move or termination marker up to the text's end; `game` is
/// then at the initial position.
///
/// `said` states the same as `answer` and `game`, by a split of the text into tokens (`IsRead`). `further`: the offset
/// returned is after `at`, so reading game after game ends.
///
/// # Errors
/// The first fault of the game's text, with its offset. `game` then holds the moves before it, and nothing is declared.
#[tactic(auto, using(crate::proofs::GameReads::read_from))]
pub fn read_pgn<B: Board>(
    text: &[u8],
    at: usize,
    game: &mut Game<B>,
) -> Result<Option<PgnEnd>, PgnFault>
    requires { at ≤ length text.now }
    ensures answer { result ≡ (pgn_read true game.old.limit text.now at).answer }
    ensures game { game.new ≡ with_state game.old (pgn_read true game.old.limit text.now at).state }
    ensures said { (r : GameRead) → IsRead true game.old.limit text.now at r
        → (result ≡ r.answer) × (game.new ≡ with_state game.old r.state) }
    ensures within { IfOk result (λ end. IfSome end (λ e. e.offset ≤ length text.now)) }
    ensures further { IfOk result (λ end. IfSome end (λ e. at < e.offset)) }
    ensures undeclared { OnErr result (IsNone game.new.state.declared) }
    ensures limit { game.new.limit ≡ game.old.limit }
{
    let (mut progress, tags_end) = begin_game(text, after_byte_order_mark(text, at), game);
    let moves_end = play_words(text, tags_end, game, &mut progress);
    let mut offset = moves_end;
    // `offset` is always where `play_words` stopped, so the token there is no move that can be played.
    loop {
        match next_token(text, offset) {
            Ok(Some((token, token_end))) => {
                match apply_token(game, progress, text.len(), offset, &token)? {
                    Step::On(further) => progress = further,
                    Step::Ended(end) => return Ok(Some(end)),
                }
                offset = play_words(text, after_skipped(text, token_end), game, &mut progress);
            }
            Ok(None) if progress.is_met => {
                return Err(PgnFault {
                    kind: PgnFaultKind::NoResult,
                    offset: text.len(),
                })
            }
            Ok(None) => return Ok(None),
            Err(fault) => return Err(reported_fault(fault, progress, text.len(), offset)),
        }
    }
}
