//! What is known, apart from the moves, of a game that is being read.

ghost use Rattle.std.specs.Prelude.{◌≡◌, true, false, None};
ghost use Rattle.chess_pgn.specs.laws.TokenByToken.{termination_after};

use crate::termination::termination_named;
use pgn_tokens::Tag;
use pgn_writer::Termination;

// What is known, apart from the moves, of a game that is being read.
#[derive(Clone, Copy)]
pub(crate) struct Progress {
    // Whether a tag, number or move was met. If one was, the text's end is the fault `NoResult`; if none was, the text
    // has no game left.
    pub is_met: bool,
    // Whether a number or move was read: no tag after it belongs to this game.
    pub is_begun: bool,
    // What the last tag `Termination` said; `None` if no such tag was read, or its text is unknown.
    pub termination: Option<Termination>,
}

impl Progress {
    // What is known before the first token: no tag, number or move was met.
    pub(crate) fn none() -> Self
        ensures { result ≡ record { is_met = false; is_begun = false; termination = None } }
    {
        Progress {
            is_met: false,
            is_begun: false,
            termination: None,
        }
    }

    // What is known once a number or move is read; `self` is what was known before it. From then on no tag belongs to
    // this game.
    pub(crate) fn begun(self) -> Self
        ensures { result ≡ record { is_met = true; is_begun = true; termination = self.termination } }
    {
        Progress {
            is_met: true,
            is_begun: true,
            ..self
        }
    }

    // What is known once `tag` is read; `self` is what was known before it. The tag's text is kept only if its name is
    // `Termination`.
    pub(crate) fn after_tag(self, tag: &Tag<'_>) -> Self
        ensures { result ≡ record {
          is_met = true;
          is_begun = self.is_begun;
          termination = termination_after self.termination tag.now.name.now tag.now.text.now;
        } }
    {
        Progress {
            is_met: true,
            termination: termination_after(self.termination, tag),
            ..self
        }
    }
}

// What the last tag `Termination` says, once `tag` is read. If `tag` has that name, this is what its text names, or
// `None` for an unknown text. Any other tag leaves `before`, what the last one said before `tag`.
fn termination_after(before: Option<Termination>, tag: &Tag<'_>) -> Option<Termination>
    ensures { result ≡ termination_after before tag.now.name.now tag.now.text.now }
{
    if tag.name == b"Termination".as_slice() {
        termination_named(tag.text)
    } else {
        before
    }
}
