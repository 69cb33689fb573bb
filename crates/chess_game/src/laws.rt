//! Laws of games. A caller learns one by calling its function, which does nothing.

ghost use Rattle.std.specs.Prelude.{◌≡◌, Option};
ghost use Rattle.std.specs.Option.{option_eq};
ghost use Rattle.chess_base.specs.declared.man.Man.{Man};
ghost use Rattle.chess_base.specs.declared.man.Rights.{Rights};
ghost use Rattle.chess_game.specs.Results.{same_outcome};
ghost use Rattle.chess_game.specs.Same.{same_man, same_rights};
ghost use Rattle.chess_game.specs.declared.results.Outcome.{Outcome};

/// States a law and does nothing: the definitions' own equalities of pieces, castling rights and outcomes agree with
/// `==` as Rust derives it, which definitions can't name.
#[tactic(auto, unfolding(crate::specs::Same::same_rights))]
pub fn equalities_are_derived()
    ensures men { (o r : Option Man) → option_eq ⟦<chess_base::Man as PartialEq>⟧.eq o r ≡ same_man o r }
    ensures rights { (r q : Rights) → ⟦<chess_base::Rights as PartialEq>⟧.eq r q ≡ same_rights r q }
    ensures outcomes { (o r : Outcome) → ⟦<crate::results::Outcome as PartialEq>⟧.eq o r ≡ same_outcome o r }
{}
