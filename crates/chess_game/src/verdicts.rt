//! Verdicts, by which a game ends on the board, through its position or its moves; and which draws may be claimed.

ghost use Rattle.std.specs.Prelude.{◌≡◌, ◌≤◌, ◌<◌, Some, length, count_by};
ghost use Rattle.std.specs.List.{list_any};
ghost use Rattle.chess_base.specs.ByColour.{by_colour};
ghost use Rattle.chess_base.specs.Sound.{IsSound};
ghost use Rattle.chess_game.specs.Ends.{is_kind, has_bishop_on, has_insufficient_material, verdict_result, draw_claim, claim_comment};
ghost use Rattle.chess_game.specs.ties.Material.{is_pawn_rook_or_queen, is_minor};

use crate::packed::squares_of;
use crate::results::Outcome;
use chess_base::{Colour, Kind, Man};
use chess_moves::Board;
use std::fmt;

/// Why a game is over by its position and its moves: the first reason that holds, in this order.
#[derive(Clone, Copy, Debug, PartialEq, Eq, PartialOrd, Ord, Hash)]
pub enum Verdict {
    /// Black is mated (Laws of Chess 2023, article 5.1.1).
    WhiteMates,
    /// White is mated (article 5.1.1).
    BlackMates,
    /// The side on move has no legal move and is not in check (article 5.2.1).
    Stalemate,
    /// No series of moves leads to mate, by the pieces that are there (article 5.2.2). Besides the kings the board
    /// holds nothing, or one bishop or knight in all, or bishops only, of one side or both, and all on squares of one
    /// colour. Other dead positions are not found.
    InsufficientMaterial,
    /// The position is there for the fifth time (article 9.6.1).
    FivefoldRepetition,
    /// 75 moves of each side without a pawn move or a capture (article 9.6.2).
    SeventyFiveMoves,
}

impl Verdict {
    /// The outcome that the verdict gives: a win of the side that mates, or a draw.
    pub fn outcome(self) -> Outcome
        ensures { result ≡ (verdict_result self).outcome }
    {
        match self {
            Verdict::WhiteMates => Outcome::WhiteWins,
            Verdict::BlackMates => Outcome::BlackWins,
            Verdict::Stalemate
            | Verdict::InsufficientMaterial
            | Verdict::FivefoldRepetition
            | Verdict::SeventyFiveMoves => Outcome::Draw,
        }
    }

    /// The comment on the verdict, such as `White mates`.
    pub fn as_str(self) -> &'static str
        ensures value { result.now ≡ (verdict_result self).comment }
        ensures short { length result.now ≤ 60 }
    {
        match self {
            Verdict::WhiteMates => "White mates",
            Verdict::BlackMates => "Black mates",
            Verdict::Stalemate => "Stalemate",
            Verdict::InsufficientMaterial => "Insufficient material",
            Verdict::FivefoldRepetition => "Fivefold repetition",
            Verdict::SeventyFiveMoves => "75-move rule",
        }
    }

    /// The verdict as bytes: the comment in the braces of `1-0 {White mates}`.
    pub fn comment(self) -> &'static [u8]
        ensures value { result.now ≡ (verdict_result self).comment }
        ensures short { length result.now ≤ 60 }
    {
        self.as_str().as_bytes()
    }
}

impl fmt::Display for Verdict {
    ghost output = { λ v. Some (verdict_result v).comment };

    // Writes the comment on the verdict, such as `White mates`.
    fn fmt<W: fmt::Write>(&self, f: &mut fmt::Formatter<W>) -> fmt::Result {
        f.write_str(self.as_str())
    }
}

/// By what the player on move may claim a draw.
#[derive(Clone, Copy, Debug, PartialEq, Eq, Hash)]
pub struct Claims {
    /// The position is there for at least the third time (Laws of Chess 2023, article 9.2).
    pub threefold: bool,
    /// At least 50 moves of each side without a pawn move or a capture (article 9.3).
    pub fifty_moves: bool,
}

impl Claims {
    /// The claim by which a draw is declared, if any holds: threefold repetition comes before 50 moves.
    pub fn draw_claim(self) -> Option<DrawClaim>
        ensures { result ≡ draw_claim self }
    {
        if self.threefold {
            Some(DrawClaim::Threefold)
        } else if self.fifty_moves {
            Some(DrawClaim::FiftyMoves)
        } else {
            None
        }
    }
}

/// Why a draw is claimed.
#[derive(Clone, Copy, Debug, PartialEq, Eq)]
pub enum DrawClaim {
    /// The position is there for at least the third time (Laws of Chess 2023, article 9.2).
    Threefold,
    /// At least 50 moves of each side without a pawn move or a capture (article 9.3).
    FiftyMoves,
}

impl DrawClaim {
    /// The comment on a draw that was claimed for this reason: it is in the braces of `1/2-1/2 {50-move rule}`.
    pub fn comment(self) -> &'static [u8]
        ensures value { result.now ≡ claim_comment self }
        ensures short { length result.now ≤ 60 }
    {
        match self {
            DrawClaim::Threefold => b"Threefold repetition",
            DrawClaim::FiftyMoves => b"50-move rule",
        }
    }
}

// The verdict that the side of this colour has mated the other.
pub(crate) fn mate_by(colour: Colour) -> Verdict
    ensures { result ≡ by_colour Verdict.WhiteMates Verdict.BlackMates colour }
{
    match colour {
        Colour::White => Verdict::WhiteMates,
        Colour::Black => Verdict::BlackMates,
    }
}

// Whether a square's content is a piece of this kind, of either colour.
fn is_kind(kind: Kind, man: Option<Man>) -> bool
    ensures { result ≡ is_kind kind man }
{
    match man {
        None => false,
        Some(man) => man.kind == kind,
    }
}

// Whether a square's content is a bishop or a knight, of either colour.
fn is_minor(man: Option<Man>) -> bool
    ensures { result ≡ is_minor man }
{
    is_kind(Kind::Bishop, man) || is_kind(Kind::Knight, man)
}

// Whether some bishop, of either side, is on a square whose file and rank have a sum of this parity: 0 for the black
// squares, as a1, and 1 for the white ones.
#[tactic(auto, unfolding(crate::specs::Ends::has_bishop_on))]
fn has_bishop_on(parity: u8, men: &[Option<Man>; 64]) -> bool
    ensures { result ≡ has_bishop_on parity men.now }
{
    let mut is_found = false;
    for number in 0..64 {
        is_found = is_found
            || ((number % 8 + number / 8) % 2 == parity
                && is_kind(Kind::Bishop, men[number as usize]));
    }
    is_found
}

// Whether a piece of this kind, of either colour, is on the board.
fn has_kind<B: Board>(board: &B, kind: Kind) -> bool
    requires { IsSound (B.position board.now) }
    ensures { result ≡ list_any (is_kind kind) (B.position board.now).men }
{
    !squares_of(board, kind).is_empty()
}

// Whether a pawn, rook or queen, of either colour, is on the board.
#[tactic(auto, using(crate::proofs::SomeKind::by_kinds))]
fn has_pawn_rook_or_queen<B: Board>(board: &B) -> bool
    requires { IsSound (B.position board.now) }
    ensures { result ≡ list_any is_pawn_rook_or_queen (B.position board.now).men }
{
    has_kind(board, Kind::Pawn) || has_kind(board, Kind::Rook) || has_kind(board, Kind::Queen)
}

// How many bishops and knights, of both colours, are on the board.
fn minor_count(men: &[Option<Man>; 64]) -> usize
    ensures { result ≡ count_by is_minor men.now }
{
    men.iter().filter(|man| is_minor(**man)).count()
}

// Whether neither side can mate for lack of pieces: no pawn, rook or queen is on the board, and of both sides together
// at most one bishop or knight, or no knight and all bishops, however many, on squares of one colour.
#[tactic(auto, unfolding(crate::specs::Ends::has_insufficient_material))]
pub(crate) fn has_insufficient_material<B: Board>(board: &B) -> bool
    ensures { result ≡ has_insufficient_material (B.position board.now).men }
{
    let men = &board.setup().men;
    !has_pawn_rook_or_queen(board)
        && (minor_count(men) <= 1
            || (!has_kind(board, Kind::Knight)
                && !(has_bishop_on(0, men) && has_bishop_on(1, men))))
}
