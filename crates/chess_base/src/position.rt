//! Positions, always sound, and the rules of chess on them.

ghost use Rattle.std.specs.Prelude.{◌≡◌, ◌↔◌, IsTrue, IsOk, IfOk, IfErr};
ghost use Rattle.chess_base.specs.Men.{man_at};
ghost use Rattle.chess_base.specs.Attacks.{is_attacked, is_in_check};
ghost use Rattle.chess_base.specs.Moves.{is_legal, after};
ghost use Rattle.chess_base.specs.Sound.{IsSound};
ghost use Rattle.chess_base.specs.Faults.{setup_fault};
ghost use Rattle.chess_base.specs.Initial.{initial_setup, initial_setup_of};

use crate::after::{fullmove_after, halfmove_after, men_after, rights_after, target_after};
use crate::attack::{is_attacked, is_king_attacked};
use crate::fen_fault::FenFault;
use crate::initial::initial_men;
use crate::legality::is_legal;
use crate::man::{Colour, ColourRights, Man, Move, Rights, Variant};
use crate::setup::Setup;
use crate::sound::setup_fault;
use crate::square::Square;
use std::marker::Model;

/// A position, always sound: one king a colour, no pawn on the first or last rank, the side not on move not in check,
/// and the rest of `IsSound` in specs/Sound. In contracts it is its `Setup`.
#[derive(Clone, Copy, Debug, PartialEq, Eq)]
pub struct Position {
    setup: Setup,
}

impl Model for Position {
    ghost use Rattle.chess_base.specs.declared.setup.Setup.{Setup};

    ghost Value = { Setup };

    ghost use Rattle.chess_base.specs.Sound.{IsSound};

    ghost view = { λ p. p.setup };

    ghost invariant = { λ p. IsSound p.setup };

    ghost inverse = { λ v. record { setup = v } };
}

impl Position {
    /// The setup as a position, if it is sound; otherwise the first condition that fails, in the order counters, kings,
    /// pawns, number of pieces, castling, target, check.
    pub fn new(setup: Setup) -> Result<Self, FenFault>
        ensures sound { IsOk result ↔ IsSound setup }
        ensures value { IfOk result (λ p. p ≡ setup) }
        ensures fault { IfErr result (λ f. Some f ≡ setup_fault setup) }
    {
        match setup_fault(&setup) {
            None => Ok(Position { setup }),
            Some(fault) => Err(fault),
        }
    }

    /// The initial position of normal chess (Laws of Chess 2023, article 2.3).
    #[tactic(auto, unfolding(crate::specs::Initial::initial_setup))]
    pub fn initial() -> Self
        ensures { result ≡ initial_setup }
    {
        Position::initial_of(Variant::Normal)
    }

    /// The initial position of normal chess, with this variant: in Chess960 it is one of the 960 starting positions.
    pub fn initial_of(variant: Variant) -> Self
        ensures { result ≡ initial_setup_of variant }
    {
        Position {
            setup: Setup {
                variant,
                men: initial_men(),
                side: Colour::White,
                rights: Rights {
                    white: ColourRights {
                        king_side: Some(Square::new(7)),
                        queen_side: Some(Square::new(0)),
                    },
                    black: ColourRights {
                        king_side: Some(Square::new(63)),
                        queen_side: Some(Square::new(56)),
                    },
                },
                target: None,
                halfmove: 0,
                fullmove: 1,
            },
        }
    }

    /// The setup as a position; the caller knows that it is sound.
    pub fn from_sound(setup: Setup) -> Self
        requires { IsSound setup }
        ensures { result ≡ setup }
    {
        Position { setup }
    }

    /// All that the position holds, as the six fields of FEN and the variant.
    pub fn setup(&self) -> &Setup
        ensures value { result.now ≡ self.now }
        ensures sound { IsSound result.now }
    {
        &self.setup
    }

    /// Whether castling follows the rules of normal chess or of Chess960.
    pub fn variant(&self) -> Variant
        ensures { result ≡ self.now.variant }
    {
        self.setup.variant
    }

    /// The colour on move.
    pub fn side(&self) -> Colour
        ensures { result ≡ self.now.side }
    {
        self.setup.side
    }

    /// The piece on this square, or none.
    pub fn at(&self, square: Square) -> Option<Man>
        ensures { result ≡ man_at self.now.men square }
    {
        self.setup.men[square.index()]
    }

    /// Whether some piece of colour `by` attacks the square, also one that may not move because it shields its king
    /// (Laws of Chess 2023, articles 3.1 to 3.8).
    pub fn attacked(&self, square: Square, by: Colour) -> bool
        ensures { result ≡ is_attacked self.now.men square by }
    {
        is_attacked(&self.setup.men, square, by)
    }

    /// Whether the side on move is in check (Laws of Chess 2023, article 3.9.1).
    ///
    /// ```
    /// if position.in_check() {
    ///     println!(rt; "check")?;
    /// }
    /// ```
    #[tactic(auto, using(crate::proofs::shared::Kings::one_king_of))]
    pub fn in_check(&self) -> bool
        ensures { result ≡ is_in_check self.now.men self.now.side }
    {
        is_king_attacked(&self.setup.men, self.setup.side)
    }

    /// Whether the side on move may make this move: one of its pieces can go there, and its king is not attacked
    /// afterwards (Laws of Chess 2023, articles 3.1 to 3.9).
    pub fn is_legal(&self, m: Move) -> bool
        ensures { result ≡ is_legal self.now m }
    {
        is_legal(&self.setup, &m)
    }

    /// The position after a legal move. It is sound too, by the law `after_is_sound` of chess_base_laws.
    #[tactic(auto, unfolding(crate::specs::Moves::after))]
    pub fn after(&self, m: Move) -> Self
        requires { IsTrue (is_legal self.now m) }
        ensures { result ≡ after self.now m }
    {
        Position {
            setup: Setup {
                variant: self.setup.variant,
                men: men_after(&self.setup, &m),
                side: self.setup.side.other(),
                rights: rights_after(&self.setup, &m),
                target: target_after(&self.setup, &m),
                halfmove: halfmove_after(&self.setup, &m),
                fullmove: fullmove_after(self.setup.side, self.setup.fullmove),
            },
        }
    }
}
