//! What is wrong with the setup of a position, or with its text, which chess_fen reads.

ghost use Rattle.std.specs.Prelude.{◌≡◌, ◌≤◌, length};
ghost use Rattle.chess_base.specs.Faults.{fen_fault_name};

/// Why a text is no FEN of a position, or a `Setup` is no `Position`: the first fault. Those of the text come first, in
/// this order: number of fields, placement, side, form of the castling rights, form of the en passant target, form of
/// the counters. Then come those of the setup, read from a text or not: range of the counters, kings, pawns, number of
/// pieces, king and rook of each right, pieces around the target, check. So `Castling`, `EnPassant` and `Counters` can
/// come from either part.
#[derive(Clone, Copy, Debug, PartialEq, Eq, thiserror::Error)]
pub enum FenFault {
    /// The first field is not eight ranks of eight squares.
    #[error("the placement is not eight ranks of eight squares")]
    Placement,
    /// The second field is neither `w` nor `b`.
    #[error("the side is neither w nor b")]
    Side,
    /// The third field denotes no rights, or the king or the rook of a right is not where castling with it begins; in
    /// Chess960 also if a letter names no rook on that side of the king, or two letters name the same right.
    #[error("the castling rights are malformed or do not fit the pieces")]
    Castling,
    /// The fourth field denotes no target, or the target is not an empty square that an enemy pawn may just have
    /// crossed by its double advance.
    #[error("the en passant target is malformed or does not fit the pieces")]
    EnPassant,
    /// A counter of the text is no number of one to six digits; or the halfmove clock of the setup is above 999,999, or
    /// its fullmove number not from 1 to 999,999.
    #[error("a counter is not a number in its range")]
    Counters,
    /// A colour has not exactly one king.
    #[error("a colour has not exactly one king")]
    Kings,
    /// A pawn is on the first or last rank.
    #[error("a pawn is on the first or last rank")]
    Pawns,
    /// A colour has more than 16 pieces.
    #[error("a colour has more than 16 pieces")]
    Men,
    /// The side that is not on move is in check.
    #[error("the side that is not on move is in check")]
    Check,
    /// The text has neither four nor six fields.
    #[error("there are neither four nor six fields")]
    Fields,
}

impl FenFault {
    /// The fault's short name, such as `kings`, by which refusals and reports of games name it.
    pub fn name(self) -> &'static str
        ensures value { result.now ≡ fen_fault_name self }
        ensures short { length result.now ≤ 10 }
    {
        match self {
            FenFault::Fields => "fields",
            FenFault::Placement => "placement",
            FenFault::Side => "side",
            FenFault::Castling => "castling",
            FenFault::EnPassant => "en passant",
            FenFault::Counters => "counters",
            FenFault::Kings => "kings",
            FenFault::Pawns => "pawns",
            FenFault::Men => "men",
            FenFault::Check => "check",
        }
    }
}
