//! Laws of the texts. A caller learns one by calling its function, which does nothing.

ghost use Rattle.chess_text.specs.laws.Laws.{SanIsShort, SanHasBytes, SanBeginsWithLetter, ReadMovesAreLegal};

/// A law: the contract says it, and the function does nothing. The SAN of a legal move of a sound position has two to
/// seven bytes, all of them letters, digits, `+`, `#`, `=` and `-`, and begins with a letter: so in PGN it is one
/// token, and no move number or result (PGN standard of 1994, section 8.2).
pub fn san_is_a_word()
    ensures short { SanIsShort }
    ensures bytes { SanHasBytes }
    ensures letter { SanBeginsWithLetter }
{}

/// A law: the contract says it, and the function does nothing. If a text is read as a move, this move is legal.
pub fn read_moves_are_legal()
    ensures { ReadMovesAreLegal }
{}
