//! The command `result`.

ghost use Rattle.std.specs.Prelude.{◌≡◌};
ghost use Rattle.std.specs.Option.{option_map};
ghost use Rattle.chess_cecp.specs.Declaring.{result_comment, read_result};

use chess_game::{Comment, Declared};
use pgn_writer::outcome_of;
use text_lines::{argument, first_word};

// The comment after the outcome of `result`: of a text in braces, such as `{White resigns}`, what is within them, of an
// empty text the empty comment; `None` for any other text.
#[tactic(auto, unfolding(crate::specs::Declaring::result_comment))]
fn result_comment(text: &[u8]) -> Option<&[u8]>
    ensures { option_map (λ c. c.now) result ≡ result_comment text.now }
{
    let len = text.len();
    if len == 0 {
        Some(text)
    } else if len >= 2 && text[0] == b'{' && text[len - 1] == b'}' {
        Some(&text[1..len - 1])
    } else {
        None
    }
}

// Parses the argument of the command `result`: an outcome, and after it nothing or a comment in braces, which is cut as
// `Comment::cut` does. `None` for anything else.
#[tactic(auto, unfolding(crate::specs::Declaring::read_result))]
pub(crate) fn read_result(text: &[u8]) -> Option<Declared>
    ensures { result ≡ read_result text.now }
{
    let outcome = outcome_of(first_word(text))?;
    match result_comment(argument(text)) {
        Some(comment) => Some(Declared {
            outcome,
            comment: Comment::cut(comment),
        }),
        None => None,
    }
}
