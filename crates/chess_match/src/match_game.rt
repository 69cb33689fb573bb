//! What a match asks of its game.

ghost use Rattle.chess_match.specs.declared.block.TheConstants.{BLOCK_LEN};
ghost use Rattle.std.specs.Prelude.{◌≡◌, ◌<◌, ◌≤◌, ◌+◌, ◌++◌, ◌∷◌, [], List, ℕ, length, nat_le, is_some, Some, None, false};
ghost use Rattle.arrayvec.specs.ArrayVec.{array_vec_len};
ghost use Rattle.chess_match.specs.Rules.{Rules, start_fen, has_bare_king};
ghost use Rattle.chess_match.specs.Lines.{bytes_of};
ghost use Rattle.chess_text.specs.declared.reading.Reading.TheVariants as reads;
ghost use Rattle.chess_match.specs.ties.Delivering.{start_lines};
ghost use Rattle.chess_match.specs.ties.Texts.{AreTexts};
ghost use Rattle.chess_game.specs.declared.game.TheConstants.{MOST_MOVES};
ghost use Rattle.chess_game.specs.Ends.{verdict, claims, draw_claim};
ghost use Rattle.chess_game.specs.Line.{position_after};
ghost use Rattle.chess_text.specs.Moves.{reading};

use crate::block::Block;
use crate::texts::MoveTexts;
use chess_base::{Colour, Move, Variant};
use chess_game::{DrawClaim, Verdict};
use chess_text::Reading;

/// The game of a match, as the match sees it.
pub(crate) trait MatchGame {
    ghost use Rattle.std.specs.Prelude.{List, ℕ};
    ghost use Rattle.chess_base.specs.declared.man.Move.{Move};
    ghost use Rattle.chess_base.specs.declared.setup.Setup.{Setup};
    ghost use Rattle.chess_match.specs.Rules.{Rules};

    /// The claim that it has the start and the limit of these rules, and that no result was declared.
    ghost plays: { Self → Rules → Type 0 };

    /// The moves so far.
    ghost played: { Self → List Move };

    /// The start, and how many half-moves the game may have: neither ever changes.
    ghost origin: { Self → Setup × ℕ };

    /// Which side moves first: the one on move in the game's start.
    fn first(&self) -> Colour
        ensures { (r : Rules) → plays self.now r → result ≡ r.start.side };

    /// Whether the start is sent by `setboard`: it is not if it is the initial position of normal chess.
    fn has_start(&self) -> bool
        ensures { (r : Rules) → plays self.now r → result ≡ is_some (start_fen r.start) };

    /// The variant of the game: normal chess or Chess960.
    fn variant(&self) -> Variant
        ensures { (r : Rules) → plays self.now r → result ≡ r.start.variant };

    /// Whether the game has as many half-moves as its limit allows, so that no move can be played any more.
    fn is_full(&self) -> bool
        ensures value { (r : Rules) → plays self.now r → result ≡ nat_le r.limit (length (played self.now)) }
        ensures few { result ≡ false → length (played self.now) < MOST_MOVES };

    /// What a text denotes in the current position: a legal move, or why it is none.
    fn reading(&self, text: &[u8]) -> Reading
        ensures { (r : Rules) → plays self.now r
            → result ≡ reading (position_after r.start (played self.now)) text.now };

    /// The board's verdict on the current position, if there is one.
    fn verdict(&self) -> Option<Verdict>
        ensures { (r : Rules) → plays self.now r → result ≡ verdict r.start (played self.now) };

    /// The draw that may be claimed now, if there is one.
    fn claim(&self) -> Option<DrawClaim>
        ensures { (r : Rules) → plays self.now r → result ≡ draw_claim (claims r.start (played self.now)) };

    /// Whether that side has no piece but its king.
    fn has_bare_king(&self, side: Colour) -> bool
        ensures { (r : Rules) → plays self.now r
            → result ≡ has_bare_king side (position_after r.start (played self.now)).men };

    /// Plays a move, which some text denotes, in a game that is not over and has room, and returns its two texts, in
    /// SAN and by squares.
    fn play(&mut self, chosen: Move) -> MoveTexts
        requires { (r : Rules) × (text : List ℕ) × (plays self.old r) × (verdict r.start (played self.old) ≡ None)
            × (nat_le r.limit (length (played self.old)) ≡ false)
            × (reading (position_after r.start (played self.old)) text ≡ reads.Move chosen) }
        ensures moves { played self.new ≡ played self.old ++ chosen ∷ [] }
        ensures rules { (r : Rules) → plays self.old r → plays self.new r }
        ensures texts { (r : Rules) → plays self.old r → AreTexts r result (played self.new) }
        ensures origin { origin self.new ≡ origin self.old };

    /// Appends the line `setboard FEN` to the block, unless the start is the initial position of normal chess.
    fn add_start(&self, block: &mut Block)
        requires { array_vec_len block.old + 110 ≤ BLOCK_LEN }
        ensures text { (r : Rules) → plays self.now r
            → block.new.items ≡ block.old.items ++ bytes_of (start_lines (start_fen r.start)) }
        ensures len { array_vec_len block.new ≤ array_vec_len block.old + 110 };
}
