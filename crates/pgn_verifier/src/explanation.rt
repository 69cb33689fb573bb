//! The lines on a fault: its own, and the one that explains it.

ghost use Rattle.std.specs.Prelude.{◌≡◌, ◌≤◌, ◌<◌, ◌+◌, ◌^◌, ◌++◌, [], true, if◌then◌else◌, List, ℕ, length, take, drop, decimal, codes, Some, None};
ghost use Rattle.std.specs.Option.{option_map, option_map_or};
ghost use Rattle.arrayvec.specs.ArrayVec.{array_vec_len};
ghost use Rattle.chess_fen.specs.Writing.{fen};
ghost use Rattle.chess_game.specs.Ends.{verdict_result, result_text};
ghost use Rattle.chess_game.specs.Game.{current};
ghost use Rattle.chess_pgn.specs.declared.read.PgnFaultKind.TheVariants.{TooLong};
ghost use Rattle.pgn_verifier.specs.Explanations.{has_position, explanation_line, shown};
ghost use Rattle.chess_game.specs.Results.{outcome_text};
ghost use Rattle.pgn_verifier.specs.declared.game_fault.FaultKind.TheVariants.{InVariation, Pgn};
ghost use Rattle.pgn_verifier.specs.GameFaults.{fault_name};
ghost use Rattle.pgn_verifier.specs.laws.Reasons.{move_reason, reason};
ghost use Rattle.pgn_verifier.specs.laws.Reported.{is_at_begin};
ghost use Rattle.pgn_verifier.specs.ties.Counting.{IsHere};
ghost use Rattle.pgn_verifier.specs.ties.Explaining.{explanation_of, part_on};
ghost use Rattle.pgn_verifier.specs.ties.OnTheWay.{StandsIf, moved, fault_line, span_written, unread_written};
ghost use Rattle.pgn_verifier.specs.declared.explanation.TheConstants.{FAULT_LINES_LEN};

use crate::fen_field::{fen_reason, fen_text, field_offset, wrong_field};
use crate::game_fault::{FaultKind, GameFault, pgn_fault_name};
use crate::label::{FaultLabel, Span, append_span};
use crate::place::Place;
use crate::shown::{Shown, shown, shown_field};
use crate::start::TextStart;
use crate::token_reason::{bad_tag_reason, move_reason, token_reason};
use arrayvec::ArrayVec;
use byte_devices::{append, append_number};
use chess_fen::write_fen;
use chess_game::{Game, Outcome, Verdict};
use chess_moves::Board;
use chess_pgn::{PgnFaultKind, ending};
use verify_options::VerifyOptions;

// The most bytes of the lines on a fault: of its own 320, and of the one that explains it 466.
const FAULT_LINES_LEN: usize = 786;

// The reason for an unknown variant.
const KNOWN_VARIANTS: &[u8] = b"neither normal chess nor Chess960, by a name that is known";

/// The lines on a fault.
pub(crate) type FaultLines = ArrayVec<u8, FAULT_LINES_LEN>;

// Appends the words by which a line names a game's fault, such as `illegal move`.
fn append_fault_name(lines: &mut FaultLines, kind: FaultKind)
    requires { array_vec_len lines.old + 40 ≤ FAULT_LINES_LEN }
    ensures text { lines.new.items ≡ lines.old.items ++ fault_name kind }
    ensures len { array_vec_len lines.new ≤ array_vec_len lines.old + 33 }
{
    match kind {
        FaultKind::Pgn(kind) => append(lines, pgn_fault_name(kind)),
        FaultKind::InVariation(kind) => {
            append(lines, pgn_fault_name(kind));
            append(lines, b" in a variation");
        }
        FaultKind::UnknownVariant => append(lines, b"unknown variant"),
        FaultKind::ResultDiffers { .. } => append(lines, b"result differs"),
        FaultKind::BoardSaysOtherwise => append(lines, b"board says otherwise"),
    }
}

// Appends the line of a fault, such as `game 2: illegal move at byte 39`, with the span and the names that its label
// has.
#[tactic(auto, unfolding(crate::specs::Reports::report_line))]
fn append_fault_line(lines: &mut FaultLines, label: &FaultLabel, fault: GameFault)
    requires { array_vec_len lines.old + 320 ≤ FAULT_LINES_LEN }
    ensures text { lines.new.items ≡ lines.old.items
        ++ fault_line label.now.game.number fault (span_written label.now.game.span) label.now.names.items }
    ensures len { array_vec_len lines.new ≤ array_vec_len lines.old + 320 }
{
    append(lines, b"game ");
    append_number(lines, label.game.number as u64);
    append(lines, b": ");
    append_fault_name(lines, fault.kind);
    append(lines, b" at byte ");
    append_number(lines, fault.offset as u64);
    append_span(lines, label.game.span);
    append(lines, label.names.as_slice());
    lines.push(b'\n');
}

// How many bytes after a fault's byte the wrong part begins: for a bad FEN up to the field that is shown, otherwise 0.
// `text` is the text from the fault's byte on.
fn part_offset(kind: FaultKind, text: &[u8]) -> usize
    ensures value { result ≡ (part_on kind text.now).0 }
    ensures within { result ≤ length text.now }
{
    match kind {
        FaultKind::Pgn(PgnFaultKind::BadFen(fault)) => field_offset(fault, fen_text(text)),
        _ => 0,
    }
}

// What is shown of the wrong part; nothing for a missing result, since that is explained where its game begins. `text`
// is the text from the fault's byte on.
fn shown_part(kind: FaultKind, text: &[u8]) -> Shown
    ensures { result.items ≡ (part_on kind text.now).1 }
{
    match kind {
        FaultKind::Pgn(PgnFaultKind::BadFen(fault)) => {
            shown_field(wrong_field(fault, fen_text(text)))
        }
        FaultKind::Pgn(PgnFaultKind::NoResult) => Shown::new(),
        _ => shown(text),
    }
}

// Whether the explanation shows the first word of the fault's game, and so is about where that begins: only for a
// missing result.
fn is_at_begin(kind: FaultKind) -> bool
    ensures { result ≡ is_at_begin kind }
{
    matches!(kind, FaultKind::Pgn(PgnFaultKind::NoResult))
}

/// The offset in a text that the explanation of a fault is about: the beginning of its game (`begin`) for a missing
/// result, otherwise that of the part that is wrong.
pub(crate) fn explained_at(fault: GameFault, begin: usize, text: &[u8]) -> usize
    requires offset { fault.offset ≤ length text.now }
    requires begin { begin ≤ length text.now }
    ensures value { result ≡ (if is_at_begin fault.kind then begin
        else fault.offset + (part_on fault.kind (drop fault.offset text.now)).0) }
    ensures within { result ≤ length text.now }
{
    if is_at_begin(fault.kind) {
        return begin;
    }
    fault.offset + part_offset(fault.kind, &text[fault.offset..])
}

// Appends the first word of a game as it is shown, for a missing result; nothing for any other fault; `text` is the
// text from the game's beginning on.
fn append_first(lines: &mut FaultLines, kind: FaultKind, text: &[u8])
    requires { array_vec_len lines.old + 45 ≤ FAULT_LINES_LEN }
    ensures text { lines.new.items ≡ lines.old.items ++ (if is_at_begin kind then shown text.now else []) }
    ensures len { array_vec_len lines.new ≤ array_vec_len lines.old + 45 }
{
    if is_at_begin(kind) {
        append(lines, shown(text).as_slice());
    }
}

// Appends ` | ` and the board's verdict, such as `0-1 {Black mates}`; nothing without one.
fn append_verdict(lines: &mut FaultLines, verdict: Option<Verdict>)
    requires { array_vec_len lines.old + 80 ≤ FAULT_LINES_LEN }
    ensures text { lines.new.items ≡ lines.old.items
        ++ option_map_or (λ text. codes " | " ++ text) (option_map (λ v. result_text (verdict_result v)) verdict) [] }
    ensures len { array_vec_len lines.new ≤ array_vec_len lines.old + 80 }
{
    if let Some(verdict) = verdict {
        append(lines, b" | ");
        append(lines, verdict.outcome().text());
        append(lines, b" {");
        append(lines, verdict.comment());
        append(lines, b"}");
    }
}

// Appends ` | ` and a reason.
fn append_part(lines: &mut FaultLines, reason: &[u8])
    requires room { array_vec_len lines.old + 80 ≤ FAULT_LINES_LEN }
    requires short { length reason.now ≤ 77 }
    ensures text { lines.new.items
        ≡ lines.old.items ++ option_map_or (λ text. codes " | " ++ text) (Some reason.now) [] }
    ensures len { array_vec_len lines.new ≤ array_vec_len lines.old + 80 }
{
    append(lines, b" | ");
    append(lines, reason);
}

// Appends ` | ` and the reason for the illegal move at the text's front, if that is `0-0`: it is castling, and may have
// been meant as a result. Nothing for any other move.
fn append_move_reason(lines: &mut FaultLines, text: &[u8])
    requires { array_vec_len lines.old + 80 ≤ FAULT_LINES_LEN }
    ensures text { lines.new.items
        ≡ lines.old.items ++ option_map_or (λ text. codes " | " ++ text) (move_reason text.now) [] }
    ensures len { array_vec_len lines.new ≤ array_vec_len lines.old + 80 }
{
    if let Some(reason) = move_reason(text) {
        append_part(lines, reason);
    }
}

// Appends ` | ` and the reason for a fault of reading a game's text; nothing if there is none. `text` is the text from
// the fault's byte on; `verdict` is the one that ended the game, if any.
fn append_pgn_reason(
    lines: &mut FaultLines,
    kind: PgnFaultKind,
    text: &[u8],
    verdict: Option<Verdict>,
)
    requires { array_vec_len lines.old + 80 ≤ FAULT_LINES_LEN }
    ensures text { lines.new.items
        ≡ lines.old.items ++ option_map_or (λ text. codes " | " ++ text) (reason (Pgn kind) text.now verdict) [] }
    ensures len { array_vec_len lines.new ≤ array_vec_len lines.old + 80 }
{
    match kind {
        PgnFaultKind::BadTag => append_part(lines, bad_tag_reason(text)),
        PgnFaultKind::BadFen(fault) => append_part(lines, fen_reason(fault)),
        PgnFaultKind::BadToken => append_part(lines, token_reason(text)),
        PgnFaultKind::IllegalMove => append_move_reason(lines, text),
        PgnFaultKind::AfterEnd => append_verdict(lines, verdict),
        _ => {}
    }
}

// Appends ` | ` and the reason for a fault in a variation, if it is a bad token; nothing for others. `text` is the text
// from the fault's byte on.
fn append_variation_reason(lines: &mut FaultLines, kind: PgnFaultKind, text: &[u8])
    requires { array_vec_len lines.old + 80 ≤ FAULT_LINES_LEN }
    ensures text { lines.new.items ≡ lines.old.items
        ++ option_map_or (λ text. codes " | " ++ text) (reason (InVariation kind) text.now None) [] }
    ensures len { array_vec_len lines.new ≤ array_vec_len lines.old + 80 }
{
    if let PgnFaultKind::BadToken = kind {
        append_part(lines, token_reason(text));
    }
}

// Appends ` | Result TEXT, ended OUTCOME`: the text of the tag `Result`, and the outcome of the termination marker.
fn append_results(lines: &mut FaultLines, tag: &[u8], outcome: Outcome)
    requires { array_vec_len lines.old + 80 ≤ FAULT_LINES_LEN }
    ensures text { lines.new.items ≡ lines.old.items ++ (codes " | " ++ (codes "Result " ++ (shown tag.now
        ++ (codes ", ended " ++ outcome_text outcome)))) }
    ensures len { array_vec_len lines.new ≤ array_vec_len lines.old + 80 }
{
    append(lines, b" | ");
    append(lines, b"Result ");
    append(lines, shown(tag).as_slice());
    append(lines, b", ended ");
    append(lines, outcome.text());
}

// Appends ` | ` and the reason for a fault; nothing if there is none. `text` is the text from the fault's byte on;
// `verdict` is the one that ended the game, if any.
fn append_reason(lines: &mut FaultLines, kind: FaultKind, text: &[u8], verdict: Option<Verdict>)
    requires { array_vec_len lines.old + 80 ≤ FAULT_LINES_LEN }
    ensures text { lines.new.items
        ≡ lines.old.items ++ option_map_or (λ text. codes " | " ++ text) (reason kind text.now verdict) [] }
    ensures len { array_vec_len lines.new ≤ array_vec_len lines.old + 80 }
{
    match kind {
        FaultKind::Pgn(kind) => append_pgn_reason(lines, kind, text, verdict),
        FaultKind::InVariation(kind) => append_variation_reason(lines, kind, text),
        FaultKind::UnknownVariant => append_part(lines, KNOWN_VARIANTS),
        FaultKind::ResultDiffers { tag_len, outcome } => {
            append_results(lines, &text[..tag_len.min(text.len())], outcome)
        }
        FaultKind::BoardSaysOtherwise => append_verdict(lines, verdict),
    }
}

// Whether the explanation of a fault shows a position: not for a bad tag, a bad FEN, an unknown variant, or a fault in
// a variation.
fn has_position(kind: FaultKind) -> bool
    ensures { result ≡ has_position kind }
{
    !matches!(
        kind,
        FaultKind::Pgn(PgnFaultKind::BadTag)
            | FaultKind::Pgn(PgnFaultKind::BadFen(_))
            | FaultKind::InVariation(_)
            | FaultKind::UnknownVariant
    )
}

// Appends ` | ` and the FEN of the position in which reading stopped; nothing for a fault that shows none.
fn append_position<B: Board>(lines: &mut FaultLines, kind: FaultKind, game: &Game<B>)
    requires { array_vec_len lines.old + 98 ≤ FAULT_LINES_LEN }
    ensures text { lines.new.items ≡ lines.old.items
        ++ (if has_position kind then codes " | " ++ fen (current game.now.state) else []) }
    ensures len { array_vec_len lines.new ≤ array_vec_len lines.old + 98 }
{
    if has_position(kind) {
        append(lines, b" | ");
        append(lines, write_fen(&game.position()).as_slice());
    }
}

// Appends the line and the column of the part that is explained, such as `# line 2 column 4 `.
fn append_place(lines: &mut FaultLines, line: usize, column: usize)
    requires { array_vec_len lines.old + 60 ≤ FAULT_LINES_LEN }
    ensures text { lines.new.items ≡ lines.old.items
        ++ (codes "# line " ++ (decimal line ++ (codes " column " ++ (decimal column ++ codes " ")))) }
    ensures len { array_vec_len lines.new ≤ array_vec_len lines.old + 60 }
{
    append(lines, b"# line ");
    append_number(lines, line as u64);
    append(lines, b" column ");
    append_number(lines, column as u64);
    append(lines, b" ");
}

// Appends which part of the input isn't read, such as ` | bytes 151 to 606 not read`; nothing if there is none.
fn append_unread(lines: &mut FaultLines, unread: Option<Span>)
    requires { array_vec_len lines.old + 62 ≤ FAULT_LINES_LEN }
    ensures text { lines.new.items ≡ lines.old.items ++ unread_written unread }
    ensures len { array_vec_len lines.new ≤ array_vec_len lines.old + 62 }
{
    if let Some(span) = unread {
        append(lines, b" | bytes ");
        append_number(lines, span.begin as u64);
        append(lines, b" to ");
        append_number(lines, span.end as u64);
        append(lines, b" not read");
    }
}

// Appends the text that explains a fault of the game: the part that is wrong, the position and the reason. `text` is
// the text from the fault's byte on; `draws_of_2014` says whether fivefold repetition and 75 moves end a game.
fn append_explanation<B: Board>(
    lines: &mut FaultLines,
    draws_of_2014: bool,
    text: &[u8],
    kind: FaultKind,
    game: &Game<B>,
)
    requires { array_vec_len lines.old + 258 ≤ FAULT_LINES_LEN }
    ensures text { lines.new.items ≡ lines.old.items ++ explanation_of draws_of_2014 game.now.state text.now kind }
    ensures len { array_vec_len lines.new ≤ array_vec_len lines.old + 258 }
{
    append(lines, shown_part(kind, text).as_slice());
    append_position(lines, kind, game);
    append_reason(lines, kind, text, ending(draws_of_2014, game));
}

/// The lines on a fault of the game: its own, and with `options.explain` the one that explains it. `label` has what the
/// lines say of the game; `text` is the text in which the fault is; `place` is the offset that the explanation is
/// about, with its line and column. In the contract `input` is any input in which these are right (`IsHere`).
pub(crate) fn fault_lines<B: Board>(
    options: VerifyOptions,
    label: &FaultLabel,
    place: Place,
    text: &[u8],
    fault: GameFault,
    game: &Game<B>,
) -> FaultLines
    requires begin { label.now.begin ≤ length text.now }
    requires within { fault.offset ≤ length text.now }
    requires few { place.start.offset + length text.now ≤ 2 ^ 63 }
    requires there { options.explain ≡ true → place.offset ≡ (if is_at_begin fault.kind then label.now.begin
        else fault.offset + (part_on fault.kind (drop fault.offset text.now)).0) }
    ensures { (input : List ℕ) → (options.explain ≡ true → IsHere place input)
        → result.items
        ≡ fault_line label.now.game.number (moved place.start.offset fault) (span_written label.now.game.span)
        label.now.names.items ++ (if options.explain
        then explanation_line input (if is_at_begin fault.kind then place.start.offset + label.now.begin
        else place.start.offset + fault.offset + (part_on fault.kind (drop fault.offset text.now)).0)
        ((if is_at_begin fault.kind then shown (drop label.now.begin text.now) else [])
        ++ (explanation_of options.strict.draws_of_2014 game.now.state (drop fault.offset text.now) fault.kind
        ++ unread_written label.now.unread))
        else []) }
{
    let mut lines = FaultLines::new();
    append_fault_line(&mut lines, label, fault.moved(place.start.offset));
    if options.explain {
        let draws_of_2014 = options.strict.draws_of_2014;
        append_place(&mut lines, place.line, place.column);
        append_first(&mut lines, fault.kind, &text[label.begin..]);
        append_explanation(
            &mut lines,
            draws_of_2014,
            &text[fault.offset..],
            fault.kind,
            game,
        );
        append_unread(&mut lines, label.unread);
        lines.push(b'\n');
    }
    lines
}

/// The lines on a piece that is too long: the fault at its first byte, and with `explain` the line that explains it.
/// `label` has what the lines say of the piece; `start` is where it begins; `beginning` has its first 40 bytes. In the
/// contract `input` is any input in which `start` has the right line (`StandsIf`).
pub(crate) fn too_long_lines(
    explain: bool,
    label: &FaultLabel,
    start: TextStart,
    beginning: &[u8],
) -> FaultLines
    ensures { (input : List ℕ) → StandsIf explain start input []
        → result.items
        ≡ fault_line label.now.game.number (record { kind = Pgn TooLong; offset = start.offset })
        (span_written label.now.game.span) label.now.names.items
        ++ (if explain then explanation_line input start.offset
        (shown beginning.now ++ unread_written label.now.unread) else []) }
{
    let mut lines = FaultLines::new();
    append_fault_line(
        &mut lines,
        label,
        GameFault {
            kind: FaultKind::Pgn(PgnFaultKind::TooLong),
            offset: start.offset,
        },
    );
    if explain {
        append_place(&mut lines, start.line, 1);
        append(&mut lines, shown(beginning).as_slice());
        append_unread(&mut lines, label.unread);
        lines.push(b'\n');
    }
    lines
}
