//! Laws of the definitions, each the contract of a function that does nothing. That a law refuses something means: with
//! definitions that allow it, the law can't be proved.

ghost use Rattle.std.specs.Prelude.{◌≡◌, Bool, false, List, Option, Result, ℕ};
ghost use Rattle.chess_game.specs.Game.{State};
ghost use Rattle.chess_pgn.specs.declared.read.PgnEnd.{PgnEnd};
ghost use Rattle.verify_options.specs.declared.options.Strictness.{Strictness};
ghost use Rattle.pgn_verifier.specs.declared.game_fault.GameFault.{GameFault};
ghost use Rattle.pgn_pieces.specs.Pieces.{known_pieces};
ghost use Rattle.pgn_verifier.specs.Collection.{AreCollectionReports};
ghost use Rattle.pgn_verifier.specs.GameFaults.{IsJudged};
ghost use Rattle.pgn_verifier.specs.Reports.{AreReports, Placed};
ghost use Rattle.pgn_verifier.specs.laws.Reported.{collection_placed, collection_reports, judged_at, placed_on, read_at, reports_on, without_spans};
ghost use Rattle.pgn_verifier_laws.specs.Counted.{CountedGamesAreGames, CountedGamesOfPiecesAreGames};
ghost use Rattle.pgn_verifier_laws.specs.FaultOrder.{DrawsArePassed, FaultsAreInOrder};
ghost use Rattle.pgn_verifier_laws.specs.Files.{FilesAreVerifiedAlike};
ghost use Rattle.pgn_verifier_laws.specs.NoFaults.{FaultlessTextsAreReportedAlike};
ghost use Rattle.pgn_verifier_laws.specs.Parts.{GamesAreInParts, WholeGamesAreReportedAlike, PiecesAreReportedAlike, TextsAreReportedInParts};
ghost use Rattle.pgn_verifier_laws.specs.Shards.{ShardsAreCut};
ghost use Rattle.pgn_verifier_laws.specs.Spans.{SpansMakeUpTheText, SpansMakeUpTheCollection};
ghost use Rattle.pgn_verifier_laws.specs.WorkedExplanations.{FaultsAreCalled, PartsAreShown, ReasonsAreGiven};
ghost use Rattle.pgn_verifier_laws.specs.WorkedReports.{GamesAreFound, PiecesBegin, ReportsAreWritten, TextsAreReadOn};
ghost use Rattle.pgn_verifier_laws.specs.WrittenGames.{WrittenGamesHaveNoFault, WrittenTextsHaveNoFault};

use chess_base::{Position, Variant};
use chess_pgn_laws::{a_game_is_tags_and_moves, games_are_of_tokens, pgn_is_read_back};
use chess_text::read_moves_are_legal;

/// States a law and does nothing: a game is judged in one way only, and a text (up to its first fault) and a collection
/// have one list of reports only: those made by reading games one after another. Without their spans (`Plain`) they are
/// the reports of which the other laws speak.
pub fn reports_are_the_only_ones()
    ensures game { (strict : Strictness) (text : List ℕ) (at : ℕ)
        → IsJudged strict text at (read_at strict.draws_of_2014 text at).state (judged_at strict text at) }
    ensures no_other_game { (strict : Strictness) (text : List ℕ) (at : ℕ) (s : State)
        (answer : Result (Option PgnEnd) GameFault) → IsJudged strict text at s answer
        → (s ≡ (read_at strict.draws_of_2014 text at).state) × (answer ≡ judged_at strict text at) }
    ensures text { (strict : Strictness) (start : ℕ) (text : List ℕ)
        → AreReports false strict start text 0 (placed_on strict start text) }
    ensures no_other_of_text { (strict : Strictness) (start : ℕ) (text : List ℕ) (reports : List Placed)
        → AreReports false strict start text 0 reports → reports ≡ placed_on strict start text }
    ensures collection { (strict : Strictness) (ended : Bool) (text : List ℕ)
        → AreCollectionReports strict 0 (known_pieces ended text) (collection_placed strict ended text) }
    ensures no_other_of_collection { (strict : Strictness) (ended : Bool) (text : List ℕ) (reports : List Placed)
        → AreCollectionReports strict 0 (known_pieces ended text) reports
        → reports ≡ collection_placed strict ended text }
    ensures plain { (strict : Strictness) (start : ℕ) (text : List ℕ)
        → without_spans (placed_on strict start text) ≡ reports_on strict start text }
    ensures plain_of_collection { (strict : Strictness) (ended : Bool) (text : List ℕ)
        → without_spans (collection_placed strict ended text) ≡ collection_reports strict ended text }
{}

/// States a law and does nothing: the text that `write_pgn` of pgn_writer writes of a game has no fault when it is
/// verified from its first byte on, with `--strict` or without, and is read as that game, whatever text comes before
/// and after it. Variations aren't looked at.
pub fn written_games_have_no_fault()
    ensures { WrittenGamesHaveNoFault }
{
    // The prover wants this law: what is written of a game is read back.
    pgn_is_read_back();
}

/// States a law and does nothing: if the texts that `write_pgn` of pgn_writer writes of some games come one after
/// another, as a match writes its games before the line of the score, then the reports on the whole text are on just
/// these games, and none is a fault. Variations aren't looked at.
pub fn written_texts_have_no_fault()
    ensures { WrittenTextsHaveNoFault }
{
    // The prover wants these laws: what is written of a game is read back, token by token.
    pgn_is_read_back();
    a_game_is_tags_and_moves();
}

/// States a law and does nothing: a game that is read in a text without a fault, from a byte of one of its parts on,
/// and that ends in that part, is read in the part alone, if the part begins where a line begins, and a byte order mark
/// is skipped in both or in neither. So a part that holds whole games has the same reports alone as in the text; all
/// such parts of a text together have its reports; and where the pieces of a text of at most 16,777,216 bytes hold
/// whole games, `verify` and `verify_collection` report the same games. Variations aren't looked at.
pub fn games_are_in_parts()
    ensures game { GamesAreInParts }
    ensures reports { WholeGamesAreReportedAlike }
    ensures text { TextsAreReportedInParts }
    ensures pieces { PiecesAreReportedAlike }
{
    // The prover wants this law: a game is read token by token.
    a_game_is_tags_and_moves();
}

/// States a law and does nothing: if `verify_collection` reports no fault of a text, then the reports on the text as a
/// whole are on the same games, unless a piece of the text after the first begins with a byte order mark, or a piece
/// ends with `\r`. `verify` writes these reports if the text has at most 16,777,216 bytes; it takes no longer one.
/// Variations aren't looked at.
pub fn a_text_without_faults_is_reported_alike()
    ensures { FaultlessTextsAreReportedAlike }
{
    // The prover wants this law: a game is read token by token.
    a_game_is_tags_and_moves();
}

/// States a law and does nothing: the spans that `verify --spans` writes of a text or of a collection are in order,
/// don't overlap, and have a byte or more; with what lies before, between and after them they are the text.
pub fn spans_make_up_the_text()
    ensures text { SpansMakeUpTheText }
    ensures collection { SpansMakeUpTheCollection }
{
    // The prover wants this law: a game is read token by token.
    a_game_is_tags_and_moves();
}

/// States a law and does nothing: a game that `verify` counts in a text, or with `--keep-going` in a piece, is a game
/// by the Laws. It has a sound start, and as many moves as the report says, one for each word between the tags and the
/// termination marker that is no number and no marks. Each move is legal where it is made, and the one legal move that
/// its word denotes. Before the last one no verdict had ended the game: neither mate, stalemate nor a dead position,
/// nor, unless they are ignored, fivefold repetition or 75 moves. The next game begins where this one ends.
///
/// It refuses a move after mate, a word that is passed over, and a report of another number of half-moves.
pub fn counted_games_are_games()
    ensures text { CountedGamesAreGames }
    ensures piece { CountedGamesOfPiecesAreGames }
{
    // The prover wants these laws: a game that is read is made of its tokens, and moves that are read are legal.
    games_are_of_tokens();
    read_moves_are_legal();
    // The prover wants these facts: the initial position of either variant is sound.
    let normal = Position::initial_of(Variant::Normal);
    let _normal_sound = normal.setup();
    let fischerandom = Position::initial_of(Variant::Fischerandom);
    let _fischerandom_sound = fischerandom.setup();
}

/// States a law and does nothing: if a text is divided in two after a line of moves and any empty lines, right after a
/// `\n`, and before a tag line, its pieces are those of the first part and then those of the second. So a large
/// collection may be divided there into parts (shards), which are verified one by one.
pub fn shards_are_cut()
    ensures { ShardsAreCut }
{}

/// States a law and does nothing: a collection may be cut into files where pieces begin, and these verified by
/// themselves, in any order. `verify --keep-going` reports the same of each game, but that numbers and offsets count
/// from the beginning of its file. The counts of the collection are the sums of those of its files.
///
/// Each file but the last is to end in a line of moves, perhaps with empty lines after it, and with a `\n`; each but
/// the first is to begin with a tag line, such as `[Event "..."]`, perhaps with a byte order mark before it.
pub fn files_are_verified_alike()
    ensures { FilesAreVerifiedAlike }
{}

/// States a law and does nothing: of a game that has several faults at its end the first of these is reported that is
/// looked for: a fault in a variation, a variant that isn't known, a tag Result that differs from the marker, a verdict
/// of the board that differs from it. This is worked out for an example. Three more examples: a tag Result that names
/// no result differs from the marker, the marker `*` contradicts a mate, and a fault of reading comes before all of
/// these. With `--ignore after-end` a game may continue after fivefold repetition and 75 moves, and after no other end.
///
/// It refuses the board before the tag.
pub fn faults_are_in_order()
    ensures order { FaultsAreInOrder }
    ensures draws { DrawsArePassed }
{}

/// States a law and does nothing: examples of what `verify` reports are worked out. Byte by byte: the lines of some
/// reports, of their counts and of an explanation, with some options, and what is written of a text and of a collection
/// with two reports, of an empty collection, and if a read fails. Also where two games of a text begin and end; where
/// some texts are read on after a fault; into which pieces some texts are cut; how each fault is named, which part of a
/// text is shown for it, and for which reasons.
///
/// It refuses a game that is numbered only if it is shown, Black's name before White's, white space that belongs to the
/// game after it, a result that is read again after a fault, an Event line that begins no piece, or begins one after
/// any other tag line, and for a fault of castling another field.
pub fn reports_are_worked_out()
    ensures lines { ReportsAreWritten }
    ensures spans { GamesAreFound }
    ensures read_on { TextsAreReadOn }
    ensures pieces { PiecesBegin }
    ensures names { FaultsAreCalled }
    ensures parts { PartsAreShown }
    ensures reasons { ReasonsAreGiven }
{}
