//! The pieces of a position.

ghost use Rattle.std.specs.Prelude.{◌≡◌, ◌<◌, ◌+◌, ◌*◌, ◌==◌, take, replicate, None, IfSome, IfNone};
ghost use Rattle.std.specs.List.{before_first};
ghost use Rattle.byte_devices.specs.Bytes.{space};
ghost use Rattle.chess_fen.specs.Texts.{placement_of};
ghost use Rattle.chess_fen.specs.ties.Runs.{NoRankIsRead, RankIsPlaced, SlashIsRead, NoSlashIsRead, Ends, PlacementIsRead};

use crate::rank::read_rank;
use chess_base::Man;

// Reads the eight squares of a rank into their place on the board, on which these squares and all before them are still
// empty; `rank` is 0 for rank 1. Returns the text after them; `None` if no eight squares are at the front of the text.
fn place_rank<'t>(text: &'t [u8], men: &mut [Option<Man>; 64], rank: usize) -> Option<&'t [u8]>
    requires in_board { rank < 8 }
    requires empty { take (8 * rank + 8) men.old ≡ replicate (8 * rank + 8) None }
    ensures read { IfSome result (λ rest. RankIsPlaced text.now rank men.old men.new rest.now) }
    ensures none { IfNone result (NoRankIsRead text.now) }
{
    read_rank(text, &mut men[8 * rank..8 * rank + 8])
}

// The text after the `/` between two ranks; `None` if it does not begin with one.
fn after_slash(text: &[u8]) -> Option<&[u8]>
    ensures read { IfSome result (λ rest. SlashIsRead text.now rest.now) }
    ensures none { IfNone result (NoSlashIsRead text.now) }
{
    let [first, rest @ ..] = text else {
        return None;
    };
    if *first == b'/' { Some(rest) } else { None }
}

// Whether a field ends where this text begins: at a space, or at the end.
fn ends_field(text: &[u8]) -> bool
    ensures { Ends result text.now }
{
    match text {
        [] => true,
        [first, ..] => *first == b' ',
    }
}

// Reads the pieces that a FEN's first field denotes, eight ranks, rank 8 first, with `/` between them, onto a board
// that is still empty. Returns the text from the space on that ends the field (an empty one if none does); `None` if
// the field denotes no pieces.
pub(crate) fn read_placement<'t>(text: &'t [u8], men: &mut [Option<Man>; 64]) -> Option<&'t [u8]>
    requires empty { men.old ≡ replicate 64 None }
    ensures read { IfSome result (λ rest. PlacementIsRead text.now men.new rest.now) }
    ensures none { IfNone result (placement_of (before_first (λ b. b == space) text.now) ≡ None) }
{
    let mut rest = text;
    for rank in (1..8).rev() {
        let ended = place_rank(rest, men, rank)?;
        rest = after_slash(ended)?;
    }
    let ended = place_rank(rest, men, 0)?;
    if ends_field(ended) { Some(ended) } else { None }
}
