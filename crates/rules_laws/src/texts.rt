//! Laws of moves and games as they are written, by computation. A caller learns one by calling its function, which does
//! nothing. That a law refuses a definition means: with this definition the law can't be proved.

ghost use Rattle.rules_laws.specs.KnownTexts.{MovesAreNumbered, MovesAreShown, MovesAreWritten, ResultsAreWorded, TagsAreInOrder, TextsDenoteMoves};

/// A law: the contract says it, and the function does nothing. Thirteen moves have the SAN that players expect (PGN
/// standard of 1994, section 8.2.3): among them some of two or three pieces of one kind, captures, promotions,
/// castling, check, mate and stalemate. Five moves have the text by their squares that engines without SAN are sent,
/// such as `e1g1` or `a7a8q`; in Chess960 castling is `O-O` or `O-O-O`.
///
/// It refuses definitions with one of these mistakes: a missing or wrong mark for check or mate, a rank where the file
/// is enough, a pinned piece from which SAN distinguishes, and castling of Chess960 written as a move to the rook.
pub fn known_moves_are_written()
    ensures san { MovesAreWritten }
    ensures squares { MovesAreShown }
{}

/// A law: the contract says it, and the function does nothing. For each of nine moves, the texts of one list denote it
/// and those of another don't. Among the former are its SAN and other ways to write it, such as `ed5`, `e4xd5` and
/// `exd5!?` for `exd5`, and `0-0-0` for castling; the latter are similar texts, such as `exd6` and `Exd5`.
///
/// It refuses definitions with one of these mistakes: a capture that needs its `x`, a promotion that needs its `=`, and
/// marks such as `!?` after which a text denotes no move.
pub fn known_texts_denote_moves()
    ensures { TextsDenoteMoves }
{}

/// A law: the contract says it, and the function does nothing. Each verdict of the board is written as it should be,
/// such as `1-0 {White mates}`. A draw is declared by the claim that holds, threefold repetition or 50 moves; by
/// threefold repetition if both hold, and not at all if none does.
pub fn results_are_worded()
    ensures { ResultsAreWorded }
{}

/// A law: the contract says it, and the function does nothing. The fool's mate is written with numbers before White's
/// moves alone; a game that Black begins has a number, as `12...`, before its first move too (PGN standard of 1994,
/// section 8.2.2); a game without moves has no number, only its result, `*`.
pub fn moves_are_numbered()
    ensures { MovesAreNumbered }
{}

/// A law: the contract says it, and the function does nothing. The first six tags of each game are Event, Site, Date,
/// Round, White and Black, in this order. For three games the law also lists the tags that follow: one from the initial
/// position, one from another, and one of Chess960 (PGN standard of 1994, sections 8.1.1, 9.7 and 9.8.1). The tag
/// Termination is `normal`; `time forfeit` or `rules infraction` if the game ended so; but `unterminated` if the
/// outcome is `*`. A tag's text is cut to 60 bytes, with `?` for each that isn't printable ASCII.
pub fn tags_are_in_order()
    ensures { TagsAreInOrder }
{}
