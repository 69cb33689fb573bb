//! Laws of the rules. A caller learns one by calling its function, which does nothing.

ghost use Rattle.std.specs.Prelude.{◌≡◌};
ghost use Rattle.chess_base.specs.declared.man.Colour.{Colour};
ghost use Rattle.chess_base.specs.declared.man.Kind.{Kind};
ghost use Rattle.chess_base.specs.declared.man.Variant.TheVariants.{Normal};
ghost use Rattle.chess_base.specs.declared.setup.Setup.{Setup};
ghost use Rattle.chess_base.specs.Men.{same_colour, same_kind};
ghost use Rattle.chess_base_laws.specs.Castles.{CastlingIsNamed};
ghost use Rattle.chess_base_laws.specs.Laws.{AfterIsSound, BeforeUndoesAfter, MovesGoInSteps, MovesRise};
ghost use Rattle.chess_base_laws.specs.Normal.{NormalIsKept};

/// A law: the contract says it, and the function does nothing. A legal move of a sound position gives a sound position.
pub fn after_is_sound()
    ensures { AfterIsSound }
{}

/// A law: the contract says it, and the function does nothing. Taking back a legal move of a sound position gives that
/// very position again.
pub fn before_undoes_after()
    ensures { BeforeUndoesAfter }
{}

/// A law: the contract says it, and the function does nothing. For any move, legal or not: `take_steps` with the steps
/// of `steps_of` turns the pieces before the move into those after it, and with the steps of `steps_back` those after
/// it into those before it. The definitions of these pieces mention no steps: they say of each square what is on it.
pub fn moves_go_in_steps()
    ensures { MovesGoInSteps }
{}

/// A law: the contract says it, and the function does nothing. In a sound position, `castling` and `castle_of` take a
/// move as castling exactly if the side on move has the right to castle on one side, and the move goes from its king's
/// square to the one that names this castling: in normal chess the king's end square, in Chess960 the square of the
/// right's rook. The side and the four squares are those of this castling. Whether the way is empty and not attacked is
/// not asked.
pub fn castling_is_named()
    ensures { CastlingIsNamed }
{}

/// A law: the contract says it, and the function does nothing. On positions of normal chess the rules, which are
/// defined for both variants together, agree with those defined for normal chess alone: on which castling rights are
/// sound, which moves are legal, and the position after each move, legal or not.
pub fn normal_is_kept()
    ensures { (p : Setup) → p.variant ≡ Normal → NormalIsKept p }
{}

/// A law: the contract says it, and the function does nothing. The equalities of colours and of kinds of piece that the
/// definitions use are those that Rust derives (`==`), which definitions can't name.
pub fn equalities_are_derived()
    ensures colours { (c d : Colour) → ⟦<chess_base::Colour as PartialEq>⟧.eq c d ≡ same_colour c d }
    ensures kinds { (k l : Kind) → ⟦<chess_base::Kind as PartialEq>⟧.eq k l ≡ same_kind k l }
{}

/// A law: the contract says it, and the function does nothing. The list of legal moves rises by start square, then by
/// end square, then by promotion (none, queen, rook, bishop, knight). So no move is in it twice.
pub fn moves_rise()
    ensures { MovesRise }
{}
