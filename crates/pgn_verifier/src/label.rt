//! What the line of each report says of its game: its number; with `--spans` also where it is; and if it has a fault,
//! with `--names` also its players, event and date.

ghost use Rattle.std.specs.Prelude.{◌≡◌, ◌≤◌, ◌<◌, ◌+◌, ◌++◌, ◌^◌, [], if◌then◌else◌, Some, length};
ghost use Rattle.std.specs.Option.{IfSome, option_map, unwrap_or};
ghost use Rattle.std.specs.List.{prefix_len};
ghost use Rattle.arrayvec.specs.ArrayVec.{array_vec_len};
ghost use Rattle.pgn_tokens.specs.Tokens.{is_white_space};
ghost use Rattle.byte_devices.specs.Bytes.{after_byte_order_mark};
ghost use Rattle.pgn_pieces.specs.Stream.{current};
ghost use Rattle.pgn_verifier.specs.Reports.{game_begin};
ghost use Rattle.pgn_verifier.specs.laws.Reported.{names_at};
ghost use Rattle.pgn_verifier.specs.ties.Explaining.{span_from, unread_text};
ghost use Rattle.pgn_verifier.specs.ties.OnTheWay.{span_written, unread_written};

use crate::after_fault::AfterFault;
use crate::names::{NamesText, game_names};
use arrayvec::ArrayVec;
use byte_devices::{after_byte_order_mark, append, append_number};
use pgn_pieces::PgnPieces;
use pgn_tokens::is_white_space;
use verify_options::VerifyOptions;

/// A part of the input.
#[derive(Clone, Copy)]
pub(crate) struct Span {
    /// The offset of its first byte, counted from the input's first byte.
    pub begin: usize,
    /// The offset of the byte after its last.
    pub end: usize,
}

/// What a report's line says of its game.
#[derive(Clone, Copy)]
pub(crate) struct Label {
    /// The game's number.
    pub number: usize,
    /// The game's span; `None` if the line is not to show it.
    pub span: Option<Span>,
}

// How many bytes of white space are at a text's front.
fn blanks_len(text: &[u8]) -> usize
    ensures value { result ≡ prefix_len is_white_space text.now }
    ensures within { result ≤ length text.now }
{
    text.iter()
        .take_while(|byte| is_white_space(**byte))
        .count()
}

// The offset at which the game begins that is read from the offset `at` of a text on: after a byte order mark (only if
// `at` is 0) and white space.
fn game_begin(text: &[u8], at: usize) -> usize
    requires { at ≤ length text.now }
    ensures value { result ≡ game_begin text.now at }
    ensures within { result ≤ length text.now }
{
    let first = after_byte_order_mark(text, at);
    first + blanks_len(&text[first..])
}

impl Label {
    /// What a report's line says of the game that is read from the offset `at` of a text on and ends before the offset
    /// `end`: its number, and with `options.spans` its span. The text begins at the offset `start` of the input.
    pub(crate) fn of_game(
        options: VerifyOptions,
        number: usize,
        start: usize,
        text: &[u8],
        at: usize,
        end: usize,
    ) -> Self
        requires at { at ≤ length text.now }
        requires end { end ≤ length text.now }
        requires few { start + length text.now ≤ 2 ^ 63 }
        ensures number { result.number ≡ number }
        ensures span { span_written result.span ≡ span_from options (start + game_begin text.now at) (start + end) }
    {
        let span = if options.spans {
            Some(Span {
                begin: start + game_begin(text, at),
                end: start + end,
            })
        } else {
            None
        };
        Label { number, span }
    }

    // What a report's line says of the current piece, which is too long: its number, and with `options.spans` its span.
    fn of_piece(options: VerifyOptions, number: usize, pieces: &PgnPieces) -> Self
        ensures number { result.number ≡ number }
        ensures span { span_written result.span
            ≡ span_from options (current pieces.now).offset (current pieces.now).end }
    {
        let span = if options.spans {
            Some(piece_span(pieces))
        } else {
            None
        };
        Label { number, span }
    }
}

// The span of the current piece in the input.
fn piece_span(pieces: &PgnPieces) -> Span
    ensures begin { result.begin ≡ (current pieces.now).offset }
    ensures end { result.end ≡ (current pieces.now).end }
{
    Span {
        begin: pieces.offset(),
        end: pieces.end(),
    }
}

// The offset of a text at which reading goes on (`next`); the text's end if it doesn't go on.
fn next_or_end(next: Option<usize>, text: &[u8]) -> usize
    requires { IfSome next (λ next. next ≤ length text.now) }
    ensures value { result ≡ unwrap_or next (length text.now) }
    ensures within { result ≤ length text.now }
{
    match next {
        Some(next) => next,
        None => text.len(),
    }
}

/// What a fault's line, and the one that explains it, say of its game.
#[derive(Drop)]
pub(crate) struct FaultLabel {
    /// The game's number and span.
    pub game: Label,
    /// The offset in the game's text at which the game begins.
    pub begin: usize,
    /// The end of the line, which names the game; empty if the line is not to name it.
    pub names: NamesText,
    /// The part of the input that isn't read after the fault, if that is to be said.
    pub unread: Option<Span>,
}

impl FaultLabel {
    /// What is said of a game with a fault, which is read from the offset `at` of a text on. It ends where reading goes
    /// on (`after.next`), or with the text if reading doesn't go on. The text begins at the offset `start` of the
    /// input.
    pub(crate) fn of_game(
        options: VerifyOptions,
        number: usize,
        start: usize,
        text: &[u8],
        at: usize,
        after: AfterFault,
    ) -> Self
        requires at { at ≤ length text.now }
        requires next { IfSome after.next (λ next. next ≤ length text.now) }
        requires unread { IfSome after.unread (λ begin. begin ≤ length text.now) }
        requires few { start + length text.now ≤ 2 ^ 63 }
        ensures number { result.game.number ≡ number }
        ensures span { span_written result.game.span
            ≡ span_from options (start + game_begin text.now at) (start + unwrap_or after.next (length text.now)) }
        ensures begin { result.begin ≡ game_begin text.now at }
        ensures begin_within { result.begin ≤ length text.now }
        ensures unread { unread_written result.unread
            ≡ unread_text (option_map (λ offset. start + offset) after.unread)
            (start + unwrap_or after.next (length text.now)) }
        ensures names { result.names.items ≡ (if options.names then names_at text.now at else []) }
    {
        let end = next_or_end(after.next, text);
        let game = Label::of_game(options, number, start, text, at, end);
        let unread = match after.unread {
            Some(offset) => Some(Span {
                begin: start + offset,
                end: start + end,
            }),
            None => None,
        };
        let names = if options.names {
            game_names(text, at)
        } else {
            NamesText::new()
        };
        FaultLabel {
            game,
            begin: game_begin(text, at),
            names,
            unread,
        }
    }

    /// What is said of the current piece, which is too long: no tags of it are known, and none of its bytes is read.
    pub(crate) fn of_piece(options: VerifyOptions, number: usize, pieces: &PgnPieces) -> Self
        ensures number { result.game.number ≡ number }
        ensures span { span_written result.game.span
            ≡ span_from options (current pieces.now).offset (current pieces.now).end }
        ensures names { result.names.items ≡ [] }
        ensures unread { unread_written result.unread
            ≡ unread_text (Some (current pieces.now).offset) (current pieces.now).end }
    {
        FaultLabel {
            game: Label::of_piece(options, number, pieces),
            begin: 0,
            names: NamesText::new(),
            unread: Some(piece_span(pieces)),
        }
    }
}

/// Appends the end of a report's line: its span, such as `, bytes 61 to 120`; nothing if there is none to show.
pub(crate) fn append_span<const N: usize>(line: &mut ArrayVec<u8, N>, span: Option<Span>)
    requires { array_vec_len line.old + 52 ≤ N }
    ensures text { line.new.items ≡ line.old.items ++ span_written span }
    ensures len { array_vec_len line.new ≤ array_vec_len line.old + 52 }
{
    if let Some(span) = span {
        append(line, b", bytes ");
        append_number(line, span.begin as u64);
        append(line, b" to ");
        append_number(line, span.end as u64);
    }
}
