//! Laws of FEN. A caller learns one by calling its function, which does nothing.

ghost use Rattle.std.specs.Prelude.{◌≡◌, ◌↔◌, ◌∷◌, ◌++◌, ℕ, IsTrue, true, false, List, [], Option, None, Ok, codes, length, replicate};
ghost use Rattle.chess_base.specs.declared.man.CastlingSide.TheVariants.{KingSide, QueenSide};
ghost use Rattle.chess_base.specs.declared.man.Colour.TheVariants.{White, Black};
ghost use Rattle.chess_base.specs.declared.man.Kind.TheVariants.{Pawn};
ghost use Rattle.chess_base.specs.declared.man.Man.{Man};
ghost use Rattle.chess_base.specs.declared.man.Variant.TheVariants.{Normal, Fischerandom};
ghost use Rattle.chess_base.specs.declared.setup.Setup.{Setup};
ghost use Rattle.chess_base.specs.Initial.{man_of};
ghost use Rattle.chess_base.specs.Sound.{IsSound};
ghost use Rattle.chess_fen.specs.Denotation.{DenotesFenAs};
ghost use Rattle.chess_fen.specs.Reading.{fen_reading_as};
ghost use Rattle.chess_fen.specs.RightNames.{Absent, At, Wrong, right_in, names_rights_well};
ghost use Rattle.chess_fen.specs.Texts.{fields_of};
ghost use Rattle.chess_fen.specs.Writing.{fen, fen_rank};
ghost use Rattle.chess_fen_laws.specs.Examples.{black_rooks, kings_and_pawn, three_rooks};
ghost use Rattle.chess_fen_laws.specs.Laws.{WrittenIsDenoted, WrittenDenotesNoOther, WrittenIsReadBack, RightsAreNamed};
ghost use Rattle.chess_fen_laws.specs.Normal.{normal_fen, normal_fen_reading};
ghost use Rattle.chess_fen_laws.specs.RankTexts.{IsRankText};

/// A law: the contract says it, and the function does nothing. The FEN that is written for a sound position denotes
/// that position, is read as it, and denotes no other position, all in the position's variant.
pub fn written_is_denoted()
    ensures denotes { WrittenIsDenoted }
    ensures no_other { WrittenDenotesNoOther }
    ensures read_back { WrittenIsReadBack }
{}

/// A law: the contract says it, and the function does nothing. Two `Fen`s are equal exactly if their positions are the
/// same, in pieces, side, rights, target, counters and variant.
pub fn equal_fens_are_equal_positions()
    ensures { (p q : Setup) → IsSound p → IsSound q → IsTrue (⟦<chess_fen::Fen as PartialEq>⟧.eq p q) ↔ p ≡ q }
{}

/// A law: the contract says it, and the function does nothing. For each right of a position of Chess960: if it is
/// sound, the castling field is read as this right with its rook exactly if one letter names that rook and no other
/// names the right; if it is not there, the field is read as without it exactly if no letter names it. A rook is named
/// by the letter of its file, or by `K`, `Q`, `k` or `q` if no rook of its colour is nearer to that edge of its first
/// rank.
pub fn rights_are_named()
    ensures { RightsAreNamed }
{}

/// A law: the contract says it, and the function does nothing. For normal chess, FEN as defined for both variants
/// agrees with FEN as defined for normal chess alone: each text is read as the same position or fault, and each
/// position of normal chess is written as the same text.
pub fn normal_is_kept()
    ensures read { (text : List ℕ) → fen_reading_as Normal text ≡ normal_fen_reading text }
    ensures written { (p : Setup) → p.variant ≡ Normal → fen p ≡ normal_fen p }
{}

/// A law: the contract says it, and the function does nothing. The text that is written for a rank denotes its squares
/// and has no two digits side by side, and no other text does both.
pub fn a_rank_has_one_text()
    ensures written { (row : List (Option Man)) → length row ≡ 8 → IsRankText row (fen_rank row) }
    ensures no_other { (row : List (Option Man)) → (text : List ℕ) → IsRankText row text → text ≡ fen_rank row }
{}

/// A law: the contract says it, and the function does nothing. Small texts worked out: what a text of six fields is cut
/// into, read as and denotes; a rank's text; and how letters name rights of Chess960, where White's king is on c1 and
/// White's rooks are on b1, f1 and h1, or Black's are on these files of rank 8.
///
/// A definition that noticed wrongly named rights of one colour only, or on one side only, would contradict these
/// clauses.
pub fn fens_are_worked_out()
    // A text of six fields, in normal chess; its castling field is a dash.
    ensures fields { (fields_of (codes "4k3/8/8/8/8/8/4P3/4K3 b - - 5 39")
        ≡ codes "4k3/8/8/8/8/8/4P3/4K3" ∷ codes "b" ∷ codes "-" ∷ codes "-" ∷ codes "5" ∷ codes "39" ∷ [])
        × (fen_reading_as Normal (codes "4k3/8/8/8/8/8/4P3/4K3 b - - 5 39") ≡ Ok kings_and_pawn)
        × DenotesFenAs Normal (codes "4k3/8/8/8/8/8/4P3/4K3 b - - 5 39") kings_and_pawn }
    ensures rank { IsRankText (replicate 4 None ++ (man_of White Pawn ∷ replicate 3 None)) (codes "4P3") }
    // The outermost rook on the king's side is on h1, the only one on the queen's side on b1.
    ensures side { right_in Fischerandom three_rooks (codes "KQ") White KingSide ≡ At 7 }
    ensures other_side { right_in Fischerandom three_rooks (codes "KQ") White QueenSide ≡ At 1 }
    // A file's letter names the rook on that file.
    ensures file { right_in Fischerandom three_rooks (codes "FB") White KingSide ≡ At 5 }
    // No letter names the right: there is none.
    ensures none { right_in Fischerandom three_rooks (codes "Q") White KingSide ≡ Absent }
    // Two letters name one right, or the letter names no rook: that is wrong.
    ensures two { right_in Fischerandom three_rooks (codes "FK") White KingSide ≡ Wrong }
    ensures no_rook { right_in Fischerandom three_rooks (codes "k") Black KingSide ≡ Wrong }
    // All rights together: these letters name no right wrongly; each of the next three texts names one wrongly.
    ensures well { names_rights_well Fischerandom three_rooks (codes "FB") ≡ true }
    ensures wrongly { names_rights_well Fischerandom three_rooks (codes "FK") ≡ false }
    ensures queen_side_wrongly { names_rights_well Fischerandom three_rooks (codes "BQ") ≡ false }
    ensures no_black_rook { names_rights_well Fischerandom three_rooks (codes "k") ≡ false }
    // The same with Black's letters.
    ensures black_side { right_in Fischerandom black_rooks (codes "kq") Black KingSide ≡ At 63 }
    ensures black_other_side { right_in Fischerandom black_rooks (codes "kq") Black QueenSide ≡ At 57 }
    ensures black_file { right_in Fischerandom black_rooks (codes "fb") Black KingSide ≡ At 61 }
    ensures black_well { names_rights_well Fischerandom black_rooks (codes "fb") ≡ true }
    ensures black_wrongly { names_rights_well Fischerandom black_rooks (codes "fk") ≡ false }
    ensures black_queen_side_wrongly { names_rights_well Fischerandom black_rooks (codes "bq") ≡ false }
{}
