//! What follows a game with a fault.

ghost use Rattle.std.specs.Prelude.{◌≡◌, ◌≤◌, ◌<◌, ◌&&◌, nat_lt, not, is_some, length};
ghost use Rattle.std.specs.Option.{IfSome};
ghost use Rattle.chess_pgn.specs.laws.Unreadable.{is_unreadable};
ghost use Rattle.pgn_verifier.specs.laws.Reported.{next_at};
ghost use Rattle.pgn_verifier.specs.ties.AfterFaults.{IsFaultAt, stops_tokens};
ghost use Rattle.pgn_verifier.specs.ties.Explaining.{unread_from};

use crate::game_fault::{FaultKind, GameFault};
use crate::token_reason::begins_word;
use chess_pgn::{PgnFaultKind, game_end, unreadable_games_have_no_end};

/// What follows a game with a fault.
#[derive(Clone, Copy)]
pub(crate) struct AfterFault {
    /// The offset in the text at which reading goes on; `None` if it doesn't.
    pub next: Option<usize>,
    /// The offset in the text from which on nothing is read, because the end of the game isn't found; `None` if nothing
    /// is left unread, or reading isn't to go on after faults.
    pub unread: Option<usize>,
}

// Whether a fault of reading at the offset `at` is one of bytes that can't be read as a token: a bad tag, a comment or
// variation that isn't closed, or a bad token that isn't a word.
fn is_unreadable(text: &[u8], at: usize, kind: PgnFaultKind) -> bool
    requires { at ≤ length text.now }
    ensures { result ≡ is_unreadable text.now at kind }
{
    match kind {
        PgnFaultKind::BadTag => true,
        PgnFaultKind::BadFen(_) => false,
        PgnFaultKind::BadToken => !begins_word(&text[at..]),
        PgnFaultKind::IllegalMove => false,
        PgnFaultKind::AmbiguousMove => false,
        PgnFaultKind::AfterEnd => false,
        PgnFaultKind::TooLong => false,
        PgnFaultKind::UnclosedComment => true,
        PgnFaultKind::UnclosedVariation => true,
        PgnFaultKind::NoResult => false,
    }
}

// Whether the text can't be split into tokens beyond a game's fault, since the fault is one of bytes that can't be read
// as a token.
fn stops_tokens(text: &[u8], fault: GameFault) -> bool
    requires { fault.offset ≤ length text.now }
    ensures { result ≡ stops_tokens text.now fault.offset fault.kind }
{
    match fault.kind {
        FaultKind::Pgn(kind) => is_unreadable(text, fault.offset, kind),
        FaultKind::InVariation(_) => false,
        FaultKind::UnknownVariant => false,
        FaultKind::ResultDiffers { .. } => false,
        FaultKind::BoardSaysOtherwise => false,
    }
}

// The offset at which reading goes on after a game with this fault, which is read from the offset `at` on: where the
// game ends. `None` if no end is found, or if reading isn't to go on after faults (`goes_on`). No end is looked for if
// the text can't be split into tokens beyond the fault.
fn next_at(goes_on: bool, text: &[u8], at: usize, fault: GameFault) -> Option<usize>
    requires at { at ≤ length text.now }
    requires fault { fault.offset ≤ length text.now }
    requires judged { IsFaultAt text.now at fault }
    ensures value { result ≡ next_at goes_on text.now at }
    ensures further { IfSome result (λ next. at < next) }
    ensures within { IfSome result (λ next. next ≤ length text.now) }
{
    // The prover wants this law: a game with a fault at what can't be read has no end.
    unreadable_games_have_no_end();
    if !goes_on {
        return None;
    }
    if stops_tokens(text, fault) {
        return None;
    }
    game_end(text, at)
}

// Whether a text of `len` bytes is left unread from a fault's offset `offset` on: reading is to go on after faults
// (`goes_on`), but no offset `next` was found for that, and the fault isn't at the text's end.
fn is_unread(goes_on: bool, len: usize, offset: usize, next: Option<usize>) -> bool
    ensures { result ≡ (goes_on && not (is_some next) && nat_lt offset len) }
{
    goes_on && next.is_none() && offset < len
}

// The fault's offset `offset`, if a text of `len` bytes is left unread from there on (`is_unread`); otherwise `None`.
// `next` is the offset at which reading goes on.
fn unread_from(goes_on: bool, len: usize, offset: usize, next: Option<usize>) -> Option<usize>
    ensures value { result ≡ unread_from goes_on len offset next }
    ensures within { IfSome result (λ begin. begin ≤ len) }
{
    if is_unread(goes_on, len, offset, next) {
        Some(offset)
    } else {
        None
    }
}

impl AfterFault {
    /// What follows the game of a text that is read from the offset `at` on, and has this fault. `goes_on`: whether
    /// reading is to go on after faults.
    pub(crate) fn of_game(goes_on: bool, text: &[u8], at: usize, fault: GameFault) -> Self
        requires at { at ≤ length text.now }
        requires fault { fault.offset ≤ length text.now }
        requires judged { IsFaultAt text.now at fault }
        ensures next { result.next ≡ next_at goes_on text.now at }
        ensures unread { result.unread
            ≡ unread_from goes_on (length text.now) fault.offset (next_at goes_on text.now at) }
        ensures further { IfSome result.next (λ next. at < next) }
        ensures within { IfSome result.next (λ next. next ≤ length text.now) }
        ensures unread_within { IfSome result.unread (λ begin. begin ≤ length text.now) }
    {
        let next = next_at(goes_on, text, at, fault);
        let unread = unread_from(goes_on, text.len(), fault.offset, next);
        AfterFault { next, unread }
    }
}
