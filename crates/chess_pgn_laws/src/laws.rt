//! Laws of the definitions, each the contract of a function that does nothing.

ghost use Rattle.std.specs.Prelude.{◌≡◌, Bool, List, length, ℕ};
ghost use Rattle.chess_game.specs.Game.{State, IsPlayable};
ghost use Rattle.pgn_writer.specs.declared.tags.Tags.{Tags};
ghost use Rattle.chess_pgn.specs.GameRead.{GameRead, pgn_read};
ghost use Rattle.chess_pgn.specs.GameRead.{IsRead};
ghost use Rattle.chess_pgn.specs.laws.TokenByToken.{tokens_read};
ghost use Rattle.pgn_writer.specs.GameText.{pgn};
ghost use Rattle.pgn_writer.specs.Written.{lines_of};
ghost use Rattle.pgn_tokens.specs.Tokens.{Token, tokens_from};
ghost use Rattle.byte_devices.specs.Bytes.{after_byte_order_mark};
ghost use Rattle.chess_pgn_laws.specs.EmptyGames.{EmptyGamesAreRead};
ghost use Rattle.chess_pgn_laws.specs.Examples.{TextsAreLaidOut, TextsAreRead, TextsAreSplit};
ghost use Rattle.chess_pgn_laws.specs.GameOfTokens.{GamesAreOfTokens};
ghost use Rattle.pgn_writer.specs.laws.Layout.{AreFilled, AreShort};
ghost use Rattle.chess_pgn_laws.specs.LegalVariations.{VariationsAreLegal};
ghost use Rattle.chess_pgn_laws.specs.Normal.{NormalIsKept};
ghost use Rattle.chess_pgn_laws.specs.PgnLaw.{PgnIsReadBack, ResultIsWritten, VariantIsWritten};
ghost use Rattle.pgn_writer.specs.PgnText.{IsPgn};
ghost use Rattle.pgn_tokens.specs.Split.{IsSplit};

use chess_base::{Position, Variant};
use chess_base_laws::after_is_sound;
use chess_fen_laws::written_is_denoted;
use chess_text::read_moves_are_legal;
use chess_text_laws::texts_have_parts;

/// States a law and does nothing: if a game is written without a prefix, and its text is read where it begins, the
/// start, the moves, the outcome and the termination that are read are the written ones, whatever text comes before and
/// after it. The offset returned is right after the outcome. The texts of tags must have at most 60 bytes of printable
/// ASCII, and the reader must allow at least as many half-moves as the game has.
///
/// A result that was declared is read without its comment, since the text doesn't contain the comment. Tags such as
/// `White` are not kept. The last tag `Result` of the text names the game's outcome (`result`), and the last tag
/// `Variant`, if there is one, a variant that is known (`variant`).
pub fn pgn_is_read_back()
    ensures read { PgnIsReadBack }
    ensures result { ResultIsWritten }
    ensures variant { VariantIsWritten }
{
    // The prover wants these laws: each position of a game is sound, and a FEN that was written is read back.
    after_is_sound();
    written_is_denoted();
    // The prover wants this fact: the initial position of normal chess is sound.
    let initial = Position::initial_of(Variant::Normal);
    let _sound = initial.setup();
}

/// States a law and does nothing: the support for Chess960 changes nothing for normal chess. Definitions without
/// Chess960 give the same for the tags that are written of a game of normal chess, and for what is read of a text whose
/// game has no tag `Variant`.
pub fn normal_is_kept()
    ensures { NormalIsKept }
{}

/// States a law and does nothing: from each offset on, a text can be split into tokens in exactly one way, which is
/// `tokens_from`. A split (`IsSplit`) takes the tokens from left to right, each the longest at its offset. It ends at
/// the text's end, or with a fault at the first offset where no token can be read.
pub fn a_text_has_one_split()
    ensures read { (text : List ℕ) → (at : ℕ) → IsSplit text at (tokens_from text at) }
    ensures no_other { (text : List ℕ) → (at : ℕ) → (tokens : List (ℕ × Token)) → IsSplit text at tokens
        → tokens ≡ tokens_from text at }
{}

/// States a law and does nothing: three definitions of what is read of a text agree. `IsRead` takes any split of the
/// text into tokens, first its tags and then its moves; `pgn_read` is the only result of which `IsRead` holds; and
/// `tokens_read` takes the tokens one after another, with a step for each. This holds whether fivefold repetition and
/// 75 moves end a game (`draws`) or not.
pub fn a_game_is_tags_and_moves()
    ensures read { (draws : Bool) → (limit : ℕ) → (text : List ℕ) → (at : ℕ)
        → IsRead draws limit text at (pgn_read draws limit text at) }
    ensures no_other { (draws : Bool) → (limit : ℕ) → (text : List ℕ) → (at : ℕ) → (r : GameRead)
        → IsRead draws limit text at r → r ≡ pgn_read draws limit text at }
    ensures token_by_token { (draws : Bool) → (limit : ℕ) → (text : List ℕ) → (at : ℕ) → pgn_read draws limit text at
        ≡ tokens_read draws limit (length text) (tokens_from text (after_byte_order_mark text at)) }
{}

/// States a law and does nothing: a game that is read is made of the first tokens of its text. It begins from the
/// position of their last tag `FEN`, or from its variant's initial position if they have none. Its moves are those that
/// their words denote, each in the position after the moves before it. Reading stops at the text's end or at the next
/// token: an outcome, or one that can't be taken, such as an illegal move. The end or the fault returned is the one
/// there.
pub fn games_are_of_tokens()
    ensures { GamesAreOfTokens }
{}

/// States a law and does nothing: if a game has variations, and no fault in them, then its own moves and those of each
/// variation are legal where they are made. A variation begins in the position before the last move of the line (the
/// game, or another variation) that it is in.
pub fn variations_are_legal()
    ensures { VariationsAreLegal }
{
    // The prover wants this law: moves that are read are legal.
    read_moves_are_legal();
}

/// States a law and does nothing: tokens of 1 to 79 bytes are put into lines (`lines_of`) that are as full as they can
/// be. A line has at most 79 bytes, and with a space and the first token of the next line it would have more. There are
/// no other lines of these tokens, in this order, of which that is true.
pub fn lines_are_filled()
    ensures filled { (tokens : List (List ℕ)) → AreShort tokens → AreFilled tokens (lines_of tokens) }
    ensures no_other { (tokens texts : List (List ℕ)) → AreFilled tokens texts → texts ≡ lines_of tokens }
{}

/// States a law and does nothing: the text that is written of a game has its tags, an empty line, its moves in lines as
/// full as they can be, and an empty line. No other text has this form (`IsPgn`). `IsPlayable` holds of every game.
pub fn games_are_laid_out()
    ensures written { (prefix : List ℕ) → (t : Tags) → (limit : ℕ) → (s : State)
        → IsPlayable (record { limit = limit; state = s }) → IsPgn prefix t s (pgn prefix t s) }
    ensures no_other { (prefix : List ℕ) → (t : Tags) → (s : State) → (text : List ℕ) → IsPgn prefix t s text
        → text ≡ pgn prefix t s }
{}

/// States a law and does nothing: small examples of what the definitions mean. `split`: six texts as tokens, for tags,
/// strings, `%` lines, comments and variations. `read`: what is read of five texts (a game of one move, no game, a
/// missing result, a bad tag, a bad FEN), and how many variations may be open at once: 64. `laid_out`: a game of one
/// move, each line with a prefix, and two tokens that need two lines.
pub fn texts_are_worked_out()
    ensures split { TextsAreSplit }
    ensures read { TextsAreRead }
    ensures laid_out { TextsAreLaidOut }
{}

/// States a law and does nothing: what small texts are read as, most of them games without moves, in which a number, a
/// comment or a variation could be taken for moves or for a result. `*` declares nothing, `1-0` does. The texts of the
/// tags Variant and Termination may be in capital or small letters. After a mate `O-O` is a move after the end. The
/// texts show where strings, comments, variations, glyphs and words end, where `%` skips a line, which tags count, by
/// which rules a FEN is read, and which names of variants, terminations and outcomes are known.
///
/// For example, the law doesn't hold of a definition by which the number 12 in a game without moves is a fault, moves
/// in a comment are played, a `)` in a comment ends the variation around it, a quote after a backslash ends a string, a
/// `%` within a line skips its rest, or `O-O` after a mate is an illegal move.
pub fn empty_games_are_read()
    ensures { EmptyGamesAreRead }
{
    // The prover needs it for `O-O` after a mate: which texts have the shape of a move.
    texts_have_parts();
}
