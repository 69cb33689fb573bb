//! The texts of answers, put together before they are written.

ghost use Rattle.chess_cecp.specs.declared.answer.TheConstants.{ANSWER_LEN, MOVES_LEN};
ghost use Rattle.std.specs.List.{flat_map};
ghost use Rattle.std.specs.Prelude.{◌≡◌, ◌+◌, ◌*◌, ◌≤◌, ◌++◌, ◌∷◌, [], if◌then◌else◌, length, codes, decimal};
ghost use Rattle.arrayvec.specs.ArrayVec.{array_vec_len};
ghost use Rattle.std.specs.Option.{option_map, option_map_or};
ghost use Rattle.byte_devices.specs.Bytes.{new_line, space};
ghost use Rattle.chess_text.specs.San.{shown_move};
ghost use Rattle.chess_base.specs.Faults.{fen_fault_name};
ghost use Rattle.chess_game.specs.Ends.{verdict_result, result_text};
ghost use Rattle.chess_cecp.specs.Declaring.{claims_text, state_text};
ghost use Rattle.chess_cecp.specs.Session.{features_line};
ghost use Rattle.chess_cecp.specs.ties.Replies.{joined_line, moves_line};

use arrayvec::ArrayVec;
use byte_devices::{append, append_number};
use chess_base::{FenFault, Move, Position};
use chess_game::{Claims, Declared, Game, Outcome, Verdict};
use chess_moves::Board;
use chess_text::move_text;

// The most bytes of an answer, which is put together before it is written: an echoed line of 1,024 bytes and the words
// before it. The answers to `showmoves` and `showpgn` may be longer, and are not put together in such a buffer.
const ANSWER_LEN: usize = 1100;

// The most bytes of the answer to `showmoves`: `# moves`, a number, and six bytes for each of 896 moves, the most that
// a list of moves (`MoveList`) holds. Other answers have a smaller buffer, since a buffer is filled with zeros first.
const MOVES_LEN: usize = 5500;

// The text of an answer to any command but `showmoves` and `showpgn`.
pub(crate) type Answer = ArrayVec<u8, ANSWER_LEN>;

// The text of the answer to `showmoves`.
pub(crate) type MovesAnswer = ArrayVec<u8, MOVES_LEN>;

// Appends a line of two texts, a front and a text after it, to the answer: `pong ` and `7` give `pong 7\n`.
pub(crate) fn write_line(answer: &mut Answer, front: &[u8], text: &[u8])
    requires { array_vec_len answer.old + length front.now + length text.now + 1 ≤ ANSWER_LEN }
    ensures { answer.new.items ≡ answer.old.items ++ joined_line front.now text.now }
{
    append(answer, front);
    append(answer, text);
    answer.push(b'\n');
}

/// Appends the answer to `ping` with this number: `pong 7`.
pub(crate) fn write_pong(answer: &mut Answer, number: u32)
    requires { array_vec_len answer.old ≤ 1000 }
    ensures { answer.new.items ≡ answer.old.items ++ joined_line (codes "pong ") (decimal number) }
{
    append(answer, b"pong ");
    append_number(answer, u64::from(number));
    answer.push(b'\n');
}

// The line of the features that an arbiter has, the answer to `protover 2` and each later version: it takes `setboard`,
// answers `ping`, and knows normal chess and Chess960.
const FEATURES: &[u8] =
    b"feature ping=1 setboard=1 playother=0 san=0 usermove=1 time=1 draw=1 sigint=0 sigterm=0 reuse=1 analyze=0 colors=0 debug=1 myname=\"CECP arbiter\" variants=\"normal,fischerandom\" done=1\n";

// Puts the answer to `protover 2`, or to a later version, together: the line of the features.
#[tactic(auto, unfolding(crate::specs::Session::features_line))]
pub(crate) fn write_features(answer: &mut Answer)
    requires { answer.old.items ≡ [] }
    ensures { answer.new.items ≡ features_line }
{
    append(answer, FEATURES);
}

// Puts the answer together that refuses a FEN for this fault: `tellusererror Illegal position (kings)`.
pub(crate) fn write_illegal_position(answer: &mut Answer, fault: FenFault)
    requires { answer.old.items ≡ [] }
    ensures { answer.new.items
        ≡ joined_line (codes "tellusererror Illegal position (") (fen_fault_name fault ++ codes ")") }
{
    append(answer, b"tellusererror Illegal position (");
    write_line(answer, fault.name().as_bytes(), b")");
}

// Appends the line of the board's verdict to the answer, such as `1-0 {White mates}`; nothing without a verdict.
pub(crate) fn write_verdict(answer: &mut Answer, verdict: Option<Verdict>)
    requires { array_vec_len answer.old ≤ 1000 }
    ensures { answer.new.items ≡ answer.old.items
        ++ option_map_or (λ v. result_text (verdict_result v) ++ new_line ∷ []) verdict [] }
{
    if let Some(verdict) = verdict {
        write_result(answer, verdict.outcome(), verdict.comment());
    }
}

// Appends a result with its comment to the answer, such as `1-0 {White mates}`, without `\n`.
#[tactic(auto, unfolding(chess_game::specs::Ends::result_text))]
fn write_result_text(answer: &mut Answer, outcome: Outcome, comment: &[u8])
    requires { array_vec_len answer.old + length comment.now + 10 ≤ ANSWER_LEN }
    ensures text { answer.new.items
        ≡ answer.old.items ++ result_text (record { outcome = outcome; comment = comment.now }) }
    ensures len { array_vec_len answer.new ≤ array_vec_len answer.old + length comment.now + 10 }
{
    append(answer, outcome.text());
    append(answer, b" {");
    append(answer, comment);
    append(answer, b"}");
}

// Appends the line of a result to the answer, such as `1-0 {White mates}`, with `\n`.
pub(crate) fn write_result(answer: &mut Answer, outcome: Outcome, comment: &[u8])
    requires { array_vec_len answer.old + length comment.now + 11 ≤ ANSWER_LEN }
    ensures { answer.new.items
        ≡ answer.old.items ++ (result_text (record { outcome = outcome; comment = comment.now }) ++ new_line ∷ []) }
{
    write_result_text(answer, outcome, comment);
    answer.push(b'\n');
}

// Appends the text `front` and then a number in decimal to the answer.
fn write_number(answer: &mut Answer, front: &[u8], number: u64)
    requires { array_vec_len answer.old + length front.now + 20 ≤ ANSWER_LEN }
    ensures text { answer.new.items ≡ answer.old.items ++ (front.now ++ decimal number) }
    ensures len { array_vec_len answer.new ≤ array_vec_len answer.old + length front.now + 20 }
{
    append(answer, front);
    append_number(answer, number);
}

// Appends the board's verdict as `showstate` writes it, such as `1-0 {White mates}`; `none` without one.
fn write_verdict_text(answer: &mut Answer, verdict: Option<Verdict>)
    requires { array_vec_len answer.old + 70 ≤ ANSWER_LEN }
    ensures text { answer.new.items
        ≡ answer.old.items ++ option_map_or (λ v. result_text (verdict_result v)) verdict (codes "none") }
    ensures len { array_vec_len answer.new ≤ array_vec_len answer.old + 70 }
{
    match verdict {
        Some(verdict) => write_result_text(answer, verdict.outcome(), verdict.comment()),
        None => append(answer, b"none"),
    }
}

// Appends the result that was declared as `showstate` writes it, such as `1-0 {White mates}`; `none` without one.
fn write_declared_text(answer: &mut Answer, declared: Option<&Declared>)
    requires { array_vec_len answer.old + 70 ≤ ANSWER_LEN }
    ensures text { answer.new.items
        ≡ answer.old.items ++ option_map_or result_text (option_map (λ d. d.now) declared.entry) (codes "none") }
    ensures len { array_vec_len answer.new ≤ array_vec_len answer.old + 70 }
{
    match declared {
        Some(declared) => write_result_text(answer, declared.outcome, declared.comment.as_bytes()),
        None => append(answer, b"none"),
    }
}

// Which draws can be claimed, as `showstate` writes it: `threefold+50`, `threefold`, `50` or `none`.
fn claims_text(claims: Claims) -> &'static [u8]
    ensures value { result.now ≡ claims_text claims }
    ensures short { length result.now ≤ 12 }
{
    match (claims.threefold, claims.fifty_moves) {
        (true, true) => b"threefold+50",
        (true, false) => b"threefold",
        (false, true) => b"50",
        (false, false) => b"none",
    }
}

// Puts the answer to `showstate` together: `# state ply 0 rep 1 clock 0 claims none verdict none declared none`.
#[tactic(auto, unfolding(crate::specs::Declaring::state_text))]
pub(crate) fn write_state<B: Board>(answer: &mut Answer, game: &Game<B>)
    requires { answer.old.items ≡ [] }
    ensures { answer.new.items ≡ joined_line (codes "# state ply ") (state_text game.now.state) }
{
    write_number(answer, b"# state ply ", game.ply() as u64);
    write_number(answer, b" rep ", u64::from(game.repetitions()));
    write_number(
        answer,
        b" clock ",
        u64::from(game.position().setup().halfmove),
    );
    append(answer, b" claims ");
    append(answer, claims_text(game.claims()));
    append(answer, b" verdict ");
    write_verdict_text(answer, game.verdict());
    append(answer, b" declared ");
    write_declared_text(answer, game.declared());
    answer.push(b'\n');
}

// Puts the answer to `showmoves` together: `# moves 20 b1a3 b1c3 ..`; the moves are those of `position`.
#[tactic(auto, unfolding(crate::specs::Session::moves_text))]
pub(crate) fn write_moves(answer: &mut MovesAnswer, position: &Position, moves: &[Move])
    requires few { length moves.now ≤ 896 }
    requires empty { answer.old.items ≡ [] }
    ensures { answer.new.items ≡ moves_line position.now moves.now }
{
    append(answer, b"# moves ");
    append_number(answer, moves.len() as u64);
    write_each(answer, position, moves);
    answer.push(b'\n');
}

// Appends each of these moves of `position` to the answer, after a space: ` b1a3 b1c3`.
fn write_each(answer: &mut MovesAnswer, position: &Position, moves: &[Move])
    requires { array_vec_len answer.old + 6 * length moves.now ≤ MOVES_LEN }
    ensures text { answer.new.items ≡ answer.old.items ++ flat_map (λ m. space ∷ shown_move position.now m) moves.now }
    ensures len { array_vec_len answer.new ≤ array_vec_len answer.old + 6 * length moves.now }
{
    for m in moves {
        answer.push(b' ');
        append(answer, move_text(position, *m).as_slice());
    }
}
