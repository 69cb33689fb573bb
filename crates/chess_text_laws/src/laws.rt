//! Laws of the texts. A caller learns one by calling its function, which does nothing.

ghost use Rattle.std.specs.Prelude.{◌≡◌};
ghost use Rattle.chess_base.specs.declared.man.Variant.TheVariants.{Normal};
ghost use Rattle.chess_base.specs.declared.setup.Setup.{Setup};
ghost use Rattle.chess_text_laws.specs.Laws.{SanDenotesItsMove, SanHasShape, SanIsReadBack, CoordinateDenotesItsMove, CoordinateHasShape, CoordinateIsReadBack, ShownMoveDenotesItsMove, ShownMoveHasShape, ShownMoveIsReadBack, PartsAreTheTexts, PartsAreRead, DenotedByText, ShapedByText};
ghost use Rattle.chess_text_laws.specs.Normal.{NormalIsKept};

/// A law: the contract says it, and the function does nothing. The SAN of a legal move of a sound position denotes that
/// move and no other legal move, has the shape of a move, and is read as that move.
pub fn san_denotes_its_move()
    ensures denotes { SanDenotesItsMove }
    ensures shape { SanHasShape }
    ensures read_back { SanIsReadBack }
{}

/// A law: the contract says it, and the function does nothing. The coordinate text (`e2e4`) of a legal move of a sound
/// position denotes that move and no other legal move, has the shape of a move, and is read as that move.
pub fn coordinate_denotes_its_move()
    ensures denotes { CoordinateDenotesItsMove }
    ensures shape { CoordinateHasShape }
    ensures read_back { CoordinateIsReadBack }
{}

/// A law: the contract says it, and the function does nothing. The text by which lists of moves show a legal move of a
/// sound position (`move_text`: coordinates, or in Chess960 `O-O` or `O-O-O` for castling) denotes that move and no
/// other legal move, has the shape of a move, and is read as that move.
pub fn move_text_denotes_its_move()
    ensures denotes { ShownMoveDenotesItsMove }
    ensures shape { ShownMoveHasShape }
    ensures read_back { ShownMoveIsReadBack }
{}

/// A law: the contract says it, and the function does nothing. The definitions compare a text with lists of all texts
/// of a move; this law says the same by the text's parts, `[letter][file][rank][x]square[[=]promotion]`.
///
/// - `read`, `written`: a text is split into parts (by `parts_at`) exactly if these can be a text's parts and the text
///   is theirs.
/// - `denoted`: a text denotes a move exactly if it names the castling that the move is, or if it is, without the marks
///   at its end, the text of parts that fit the move.
/// - `shaped`: a text has the shape of a move exactly if it names castling, or if it is, without its marks, the text of
///   parts that have a form of a move's text (`is_form`).
pub fn texts_have_parts()
    ensures read { PartsAreTheTexts }
    ensures written { PartsAreRead }
    ensures denoted { DenotedByText }
    ensures shaped { ShapedByText }
{}

/// A law: the contract says it, and the function does nothing. In positions of normal chess the legal moves, what a
/// text is read as, and SAN agree with definitions for normal chess alone, and `move_text` is `coordinate`.
pub fn normal_is_kept()
    ensures { (p : Setup) → p.variant ≡ Normal → NormalIsKept p }
{}
