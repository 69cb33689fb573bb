//! The score of a match.

ghost use Rattle.std.specs.Prelude.{◌≡◌, ◌+◌, ◌≤◌, ◌++◌, decimal, length};
ghost use Rattle.arrayvec.specs.ArrayVec.{array_vec_len};
ghost use Rattle.chess_game.specs.Results.{same_outcome};
ghost use Rattle.chess_match.specs.Reasons.{win_of};
ghost use Rattle.match_runner.specs.ties.Playing.{no_score, plus, score_after, score_text};

use arrayvec::ArrayVec;
use byte_devices::{append, append_number};
use chess_base::Colour;
use chess_game::Outcome;

/// How many games each engine won (`first` is that of `--white`), and how many were drawn or have no result.
#[derive(Clone, Copy, Debug, PartialEq, Eq)]
pub(crate) struct Score {
    first: u16,
    second: u16,
    drawn: u16,
    unfinished: u16,
}

// The score's line: its text has 40 bytes, and its four numbers at most 20 each.
type ScoreLine = ArrayVec<u8, 140>;

// A count after a game: one more, if the game adds to it (`one_more`), but at most 65,535.
fn plus(count: u16, one_more: bool) -> u16
    ensures { result ≡ plus count one_more }
{
    if one_more {
        count.saturating_add(1)
    } else {
        count
    }
}

// Whether this outcome is a win of this side.
fn is_win_of(outcome: Outcome, side: Colour) -> bool
    ensures { result ≡ same_outcome outcome (win_of side) }
{
    match side {
        Colour::White => outcome == Outcome::WhiteWins,
        Colour::Black => outcome == Outcome::BlackWins,
    }
}

impl Score {
    /// The score before the first game: nothing is counted yet.
    pub fn new() -> Self
        ensures { result ≡ no_score }
    {
        Score {
            first: 0,
            second: 0,
            drawn: 0,
            unfinished: 0,
        }
    }

    /// The score with one more game counted, which had this outcome and in which the first engine, that of `--white`,
    /// had the side `first`.
    pub fn after(self, first: Colour, outcome: Outcome) -> Self
        ensures { result ≡ score_after first outcome self }
    {
        Score {
            first: plus(self.first, is_win_of(outcome, first)),
            second: plus(self.second, is_win_of(outcome, first.other())),
            drawn: plus(self.drawn, outcome == Outcome::Draw),
            unfinished: plus(self.unfinished, outcome == Outcome::Unfinished),
        }
    }

    /// The last line of a match, such as `score first 1 second 0 drawn 2 unfinished 0`.
    #[tactic(auto, unfolding(crate::specs::ties::Playing::score_text))]
    pub fn line(self) -> ScoreLine
        ensures { result.items ≡ score_text self }
    {
        let mut line = ScoreLine::new();
        append(&mut line, b"score first ");
        append_number(&mut line, u64::from(self.first));
        append(&mut line, b" second ");
        append_number(&mut line, u64::from(self.second));
        append(&mut line, b" drawn ");
        append_number(&mut line, u64::from(self.drawn));
        append(&mut line, b" unfinished ");
        append_number(&mut line, u64::from(self.unfinished));
        line.push(b'\n');
        line
    }
}
