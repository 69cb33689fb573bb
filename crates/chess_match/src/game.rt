//! A game of chess, as a match sees it.

ghost use Rattle.std.specs.Prelude.{◌≡◌, ◌≤◌, ◌<◌, ◌++◌, ◌∷◌, ◌&&◌, ◌||◌, not, if◌then◌else◌, [], length, nat_le, is_some, false, IfSome, None, Some};
ghost use Rattle.std.specs.Option.{option_map};
ghost use Rattle.arrayvec.specs.ArrayVec.{array_vec_len};
ghost use Rattle.std.specs.List.{list_all};
ghost use Rattle.chess_fen.specs.Writing.{fen, is_initial};
ghost use Rattle.chess_text.specs.San.{is_fischerandom};
ghost use Rattle.chess_base.specs.Men.{is_of, is_man};
ghost use Rattle.chess_base.specs.declared.man.Kind.TheVariants.{King};
ghost use Rattle.chess_base.specs.Initial.{initial_setup};
ghost use Rattle.chess_game.specs.Game.{current, verdict_now, State};
ghost use Rattle.chess_game.specs.Ends.{verdict, claims};
ghost use Rattle.chess_text.specs.Moves.{reading};
ghost use Rattle.chess_match.specs.Rules.{start_fen};
ghost use Rattle.chess_match.specs.Rules.{has_bare_king};

use crate::block::Block;
use crate::match_game::MatchGame;
use crate::texts::MoveTexts;
use byte_devices::append;
use chess_base::{Colour, Kind, Man, Move, Position, Variant};
use chess_fen::{FenText, is_initial, write_fen};
use chess_game::{DrawClaim, Game, Verdict};
use chess_moves::Board;
use chess_text::{
    Reading, add_check_mark, move_text, read_move, read_moves_are_legal, unmarked_san,
};

// Whether a square (`man` is what is on it) is empty, or has a king or a piece of the other colour than `colour`.
#[tactic(auto, unfolding(chess_base::specs::Men::is_of, chess_base::specs::Men::is_man))]
fn is_king_or_other(colour: Colour, man: Option<Man>) -> bool
    ensures { result ≡ (not (is_of colour man) || is_man colour King man) }
{
    match man {
        None => true,
        Some(man) => man.colour != colour || man.kind == Kind::King,
    }
}

// Whether this side has no piece but its king; `men` are the 64 squares.
#[tactic(auto, unfolding(crate::specs::Rules::has_bare_king))]
fn has_bare_king(colour: Colour, men: &[Option<Man>; 64]) -> bool
    ensures { result ≡ has_bare_king colour men.now }
{
    men.iter().all(|man| is_king_or_other(colour, *man))
}

// The FEN that `setboard` sends to the engines for this start; `None` for the initial position of normal chess, in
// which `new` starts anyway.
#[tactic(auto, unfolding(crate::specs::Rules::start_fen))]
fn start_text(start: &Position) -> Option<FenText>
    ensures text { option_map (λ t. t.items) result ≡ start_fen start.now }
    ensures short { IfSome result (λ t. array_vec_len t ≤ 100) }
{
    match start.variant() {
        Variant::Normal => {
            if is_initial(start) {
                None
            } else {
                Some(write_fen(start))
            }
        }
        Variant::Fischerandom => Some(write_fen(start)),
    }
}

impl<B: Board> MatchGame for Game<B> {
    ghost use Rattle.chess_match.specs.ties.Chess.{Plays};

    ghost plays = { λ g r. Plays g r };

    ghost played = { λ g. g.state.moves };

    ghost origin = { λ g. (g.state.start, g.limit) };

    // Which side moves first: the one on move in the game's start.
    fn first(&self) -> Colour {
        self.start_side()
    }

    // Whether the start is sent to the engines by `setboard`: it is not if it is the initial position of normal chess.
    fn has_start(&self) -> bool {
        start_text(&self.start()).is_some()
    }

    // The variant of the start.
    fn variant(&self) -> Variant {
        Game::variant(self)
    }

    // Whether the game has as many half-moves as its limit allows, so that no move can be played any more.
    fn is_full(&self) -> bool {
        Game::is_full(self)
    }

    // What a text denotes in the current position.
    fn reading(&self, text: &[u8]) -> Reading {
        read_move(self.board(), text)
    }

    // The board's verdict on the current position, if there is one.
    fn verdict(&self) -> Option<Verdict> {
        Game::verdict(self)
    }

    // The draw that may be claimed now, if there is one.
    fn claim(&self) -> Option<DrawClaim> {
        self.claims().draw_claim()
    }

    // Whether this side has no piece but its king in the current position.
    fn has_bare_king(&self, side: Colour) -> bool {
        has_bare_king(side, &self.position().setup().men)
    }

    // Plays a legal move, and returns its two texts, in SAN and by squares. The SAN is begun before the move is played,
    // and its check mark added after it.
    fn play(&mut self, chosen: Move) -> MoveTexts {
        // The prover wants this law: the move that a text is read as is legal.
        read_moves_are_legal();
        // The prover wants three variables here: one move is shown, one is lent, and one is played.
        let shown = chosen;
        let lent = chosen;
        let squares = move_text(&self.position(), shown);
        let mut san = unmarked_san(self.board(), &lent);
        self.play_legal(chosen);
        add_check_mark(self.board(), &mut san);
        MoveTexts { san, squares }
    }

    // Appends the line `setboard FEN` to the block, unless the start is the initial position of normal chess.
    #[tactic(auto, unfolding(crate::specs::Lines::bytes_of))]
    fn add_start(&self, block: &mut Block) {
        match start_text(&self.start()) {
            None => {}
            Some(text) => {
                append(block, b"setboard ");
                append(block, text.as_slice());
                append(block, b"\n");
            }
        }
    }
}
