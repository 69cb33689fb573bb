//! Laws of the definitions, each the contract of a function that does nothing. A piece is a part of a collection that
//! is read as a text of its own, mostly one game.

ghost use Rattle.pgn_pieces.specs.laws.HandedOut.{PiecesAreCut};
ghost use Rattle.pgn_pieces.specs.laws.Places.{PiecesAreInPlace};

/// States a law and does nothing: before anything is read, the pieces still to come are the pieces that the text is cut
/// into (`pieces`). The contract of `PgnPieces::next` says that each call takes the first of the pieces still to come.
/// So the calls together return just the pieces of the text, in order.
pub fn pieces_are_cut()
    ensures { PiecesAreCut }
{}

/// States a law and does nothing: each piece of a text has the bytes that are at its offset in the text (this isn't
/// said of a piece over 16,777,216 bytes), and begins where a line begins: at the text's first byte, or after `\n` or
/// `\r`. The number of that line is one more than the number of line ends (`\n`) in all pieces before it.
pub fn pieces_are_in_place()
    ensures { PiecesAreInPlace }
{}
