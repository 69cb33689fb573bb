//! The tags of a game, one by one, and the text of one by its name.

ghost use Rattle.std.specs.Prelude.{◌≡◌, ◌≤◌, ◌∷◌, [], List, MatchOption, ℕ, length, ⊤};
ghost use Rattle.std.specs.Iterator.{YieldsFirstBy, item_count};
ghost use Rattle.std.specs.Option.{IfSome, option_map};
ghost use Rattle.pgn_tokens.specs.GameTags.{game_tags_of, pair_of, tag_pair};
ghost use Rattle.pgn_tokens.specs.LastTags.{last_tag, tag_section};
ghost use Rattle.pgn_tokens.specs.Split.{IsSplit};
ghost use Rattle.byte_devices.specs.Bytes.{after_byte_order_mark};
ghost use Rattle.pgn_tokens.specs.Tokens as spec;
ghost use Rattle.pgn_tokens.specs.Seen.{token_seen};
ghost use Rattle.pgn_tokens.specs.ties.TagsLeft.{tags_left};

use crate::last_tags::{last_tag, may_precede_tags};
use crate::token::{Token, after_blanks, next_token};
use byte_devices::after_byte_order_mark;
use std::alloc::AllocError;
use std::iter::FusedIterator;
use std::marker::Model;

/// A tag of a game, such as `[Event "a"]`.
#[derive(Clone, Copy, Debug, PartialEq, Eq)]
pub struct PgnTag<'t> {
    /// Its name, such as `Event`: letters, digits and `_`.
    pub name: &'t [u8],
    /// The bytes between its quotes as they are: a quote or a backslash in it has a backslash before it.
    pub text: &'t [u8],
    /// The offset of the first of these bytes, counted from the first byte of the whole text.
    pub offset: usize,
}

/// The tags of a game in the order of its text, as [`game_tags`] returns them. In contracts a `GameTags` is the list of
/// the tags that it has not returned yet.
#[derive(Drop)]
pub struct GameTags<'t> {
    text: &'t [u8],
    // Where reading continues.
    offset: usize,
}

impl<'t> Model for GameTags<'t> {
    ghost use Rattle.std.specs.Prelude.{◌≤◌, List, length};
    ghost use Rattle.pgn_tokens.specs.GameTags.{TagPair};
    ghost use Rattle.pgn_tokens.specs.ties.TagsLeft.{tags_left};

    ghost Value = { List TagPair };

    ghost view = { λ it. tags_left it.text.now it.offset };

    ghost invariant = { λ it. it.offset ≤ length it.text.now };
}

// The token as a tag, with the offset of its string in a text of `len` bytes; `None` if the token is no tag.
fn tag_in<'t>(len: usize, token: &Token<'t>) -> Option<PgnTag<'t>>
    ensures { option_map pair_of result ≡ tag_pair len (token_seen token.now) }
{
    let Token::Tag(tag) = token else {
        return None;
    };
    Some(PgnTag {
        name: tag.name,
        text: tag.text,
        offset: len.saturating_sub(tag.to_end),
    })
}

// The first tag of a game that is read from the offset `at` on, and the offset after it and the white space and dots
// that follow. `None` if a number, a move, an outcome, what can't be read or the text's end comes first.
fn next_tag(text: &[u8], at: usize) -> Option<(PgnTag<'_>, usize)>
    requires { at ≤ length text.now }
    ensures tag { MatchOption result (tags_left text.now at ≡ [])
        (λ r. tags_left text.now at ≡ pair_of r.0 ∷ tags_left text.now r.1) }
    ensures within { IfSome result (λ r. r.1 ≤ length text.now) }
{
    let mut offset = at;
    loop {
        match next_token(text, offset) {
            Ok(Some((token, token_end))) => {
                if !may_precede_tags(&token) {
                    return None;
                }
                offset = after_blanks(text, token_end);
                if let Some(tag) = tag_in(text.len(), &token) {
                    return Some((tag, offset));
                }
            }
            Ok(None) | Err(_) => return None,
        }
    }
}

/// The tags of the game that begins at the offset `at`, in the order of its text, also those whose names come again.
/// They end before the game's first number, move or outcome, and before what can't be read, which `read_pgn` reports. A
/// byte order mark at offset 0 is skipped.
///
/// The contract says: there is a split of the text into tokens (`IsSplit`), and these are the tags in it.
pub fn game_tags(text: &[u8], at: usize) -> GameTags<'_>
    requires { at ≤ length text.now }
    ensures { (tokens : List (ℕ × spec.Token)) × IsSplit text.now (after_byte_order_mark text.now at) tokens
        × (result ≡ game_tags_of (length text.now) tokens) }
{
    let offset = after_byte_order_mark(text, at);
    GameTags { text, offset }
}

/// The text of the last tag with this name, such as `White`, of the game that begins at the offset `at`: the bytes
/// between its quotes as they are. `None` if the game has no such tag before its first number, move or outcome. A byte
/// order mark at offset 0 is skipped. chess_pgn's `result_tag` also says where the tag `Result` is.
///
/// The contract says: there is a split of the text into tokens (`IsSplit`), and this is the last of the tags with this
/// name in it.
pub fn tag_text<'t>(text: &'t [u8], at: usize, name: &[u8]) -> Option<&'t [u8]>
    requires { at ≤ length text.now }
    ensures { (tokens : List (ℕ × spec.Token)) × IsSplit text.now (after_byte_order_mark text.now at) tokens
        × (option_map (λ t. t.now) result ≡ option_map (λ tag. tag.0) (last_tag name.now (tag_section tokens))) }
{
    let tag = last_tag(text, after_byte_order_mark(text, at), name)?;
    Some(tag.text)
}

impl<'t> Clone for GameTags<'t> {
    ghost is_clone = { λ it copy. copy ≡ it };

    ghost is_infallible = { λ _. ⊤ };

    // A copy, with the same tags left.
    fn clone(&self) -> Result<Self, AllocError> {
        Ok(GameTags {
            text: self.text,
            offset: self.offset,
        })
    }
}

impl<'t> Iterator for GameTags<'t> {
    type Item = PgnTag<'t>;

    ghost next_gives = { YieldsFirstBy pair_of (λ left. left) };

    ghost remaining = { item_count (λ left. left) };

    // The first of the tags that are left; `None` if none is.
    fn next(&mut self) -> Option<PgnTag<'t>> {
        let (tag, offset) = next_tag(self.text, self.offset)?;
        self.offset = offset;
        Some(tag)
    }
}

impl<'t> FusedIterator for GameTags<'t> {}
