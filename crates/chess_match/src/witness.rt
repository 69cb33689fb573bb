//! The witness of a match.

ghost use Rattle.std.specs.Prelude.{◌∷◌, []};
ghost use Rattle.chess_match.specs.Notes.{WasNoted};
ghost use Rattle.chess_match.specs.Seen.{note_seen};

use crate::note::Note;

/// Watches a match, as the log does: it is given each event, and all bytes that an engine is sent.
pub trait Witness {
    ghost use Rattle.std.specs.Prelude.{List, ℕ};
    ghost use Rattle.chess_match.specs.Notes as notes;

    /// What contracts see of it: whether it may have been given these notes, in their order, after a text that it held
    /// before.
    ghost noted: { Self → List ℕ → List notes.Note → Type 0 };

    /// Takes this note.
    fn note(&mut self, note: Note<'_>)
        ensures { WasNoted (noted self.old) (noted self.new) (note_seen note.entry ∷ []) };
}

/// A witness that keeps nothing.
#[derive(Drop)]
pub(crate) struct NoWitness;

impl Witness for NoWitness {
    ghost noted = { λ w before notes. Unit {0} };

    // Does nothing: this witness keeps no note.
    fn note(&mut self, _note: Note<'_>) {}
}
