//! Laws of matches, said of their acts. An act is that the arbiter sends an engine a block of lines, or reads an event,
//! such as an engine's line (and then the clock). A caller learns one by calling its function, which does nothing.

ghost use Rattle.std.specs.Prelude.{true, false};
ghost use Rattle.chess_match_laws.specs.Answering.{AnsweringEnginesAreBlameless};
ghost use Rattle.chess_match_laws.specs.OfActs.{AtEachLine, AtEachMoment, AtEachOpening, InEachMatch, EndsAfterItsActs, AutomaticDrawsEndMatches, LinesAreReadInOrder, SilencesAreReadInOrder, NothingIsDueAtEvents, FailedBlocksAreLast, OneBlockFails, WriteFaultsAreOfBlocks, OnlyOneMatch, OneMatchButForEndLines, OnlyOneMatchOfARun, DecidedByTheBoard, OutcomesAreOfTheGame, LastLineIsTheirs, MovesAreRead, ItemsAreSaid, MovesAreSent, EachIsSentOthersMoves, AllMovesAreGiven, AllMovesAreSent, IsSentAllMoves, MovesSentAreKnown, GamesAreLines, TimesAreClocks, OtherTimesAreClocks, UsedTimesAreDifferences, ClocksDoNotUnderflow, LinesAreFew, SilencesAreAskedFor, SilencesChangeNothing, SilencesEndMatches, SilencesLeaveNoLine, TimeForfeitsAreShown, NotesAreInOrder, NotesHaveTheEvents, NotesHaveAllLines, NotesHaveLinesRead, NotesHaveMoments, EndsAtVerdicts};
ghost use Rattle.chess_match_laws.specs.Rows.{AgreedDrawsAreOffered, DrawsAreFew, DrawsAreOffered, GoIsSentOnce, IsSetUp, OffersArePassedOn, PingsAreNumbered, TurnsAreOpenedOnce, WasSentGo};
ghost use Rattle.chess_match.specs.laws.Laws.{VerdictsEndMatches};

use chess_text::read_moves_are_legal;

/// States a law and does nothing: the rules, two engines and a clock fix the match. Two matches by the same rules are
/// the same, act by act, if engines and clock give the same lines, ends and moments, the same looks for a line found
/// none yet, and to each engine sending fails after the same number of blocks, or never. If neither ended by a failed
/// write, their events and their ends are the same, whichever end lines (`result ..`, `quit`) could be sent. And two
/// matches of one run are the same, act by act, if everything is known about its devices, and the same looks found none
/// (or the rules set no limit to waiting).
pub fn match_is_the_only_one()
    ensures of_streams { OnlyOneMatch }
    ensures events { OneMatchButForEndLines }
    ensures of_a_run { OnlyOneMatchOfARun }
{}

/// States a law and does nothing: after a block of lines that could not be sent to an engine, none is sent to it, or
/// tried. So at most one block for each engine fails. If a match ended because writing to an engine failed, a block for
/// this engine failed.
pub fn failed_blocks_are_last()
    ensures last { FailedBlocksAreLast }
    ensures single { InEachMatch OneBlockFails }
    ensures reason { InEachMatch WriteFaultsAreOfBlocks }
{}

/// States a law and does nothing: a match that ended for a verdict of the board, such as mate, has this verdict after
/// its moves. Conversely, if the board has a verdict after the moves of a match, the match ended for it, or by a fault
/// before its first move. The outcome that is reported of a match is always that of its game.
pub fn verdicts_end_matches()
    ensures decided { DecidedByTheBoard }
    ensures verdicts { VerdictsEndMatches }
    ensures outcomes { OutcomesAreOfTheGame }
{}

/// States a law and does nothing: where draws are automatic, a match ends when a draw may be claimed. If a draw may be
/// claimed after the moves of a match, and the board has no verdict, the match ended for this draw, or by a fault
/// before its first move.
pub fn automatic_draws_end_matches()
    ensures { AutomaticDrawsEndMatches }
{}

/// States a law and does nothing: if a side lost by a line of its own (it resigned, made an illegal move, moved out of
/// turn, made a false claim, rejected a legal move, or lost on time where flags fall only with a line), the last line
/// read is of that side. After that line and its moment only blocks were sent, or could not be sent.
pub fn last_line_is_theirs()
    ensures { LastLineIsTheirs }
{}

/// States a law and does nothing: the moves of a match are read off the two engines' lines. Each is the one legal move
/// that the next `move` line of the side to move denotes. Lines before the end of a side's setup don't count, and one
/// last `move` line of either side may be left over. This holds at each moment of a match.
pub fn moves_are_read()
    ensures whole { InEachMatch MovesAreRead }
    ensures so_far { AtEachMoment MovesAreRead }
{}

/// States a law: each move of a match is legal where it is made, so that its game is one of the Laws of Chess.
pub fn games_are_lines()
    ensures { GamesAreLines }
{
    // The prover needs this law: a move that is read is legal.
    read_moves_are_legal();
}

/// States a law and does nothing: a match has no move after a verdict of the board, such as mate, and no more
/// half-moves than its limit. Where draws are automatic, it has no move once a draw may be claimed, either.
pub fn games_end_at_verdicts()
    ensures { InEachMatch EndsAtVerdicts }
{}

/// States a law and does nothing: the two engines' lines fix which moves each is sent, but for the last. Their `move`
/// lines denote moves in turn. Each engine is sent the other's (a block of lines that could not be sent counts), each
/// once and in order, in SAN or by squares, as its handshake asks for. At most the last is not sent, and at the end
/// only if the match ended because writing to the engine failed. Also, the items known of an engine are those of its
/// `feature` lines. All this holds at each moment of a match.
pub fn each_is_sent_the_others()
    ensures said { InEachMatch ItemsAreSaid }
    ensures sent { InEachMatch (EachIsSentOthersMoves true) }
    ensures said_so_far { AtEachMoment ItemsAreSaid }
    ensures sent_so_far { AtEachMoment (EachIsSentOthersMoves false) }
{}

/// States a law and does nothing: an engine is sent the other's moves, each once and in order, and no others; at each
/// moment all but at most the last one, which is not sent while the `pong` of the engine that made it is awaited. All
/// were sent whenever a line of the engine is read, or the clock for the opening of its turn; and in the end, unless a
/// write to the engine failed. If only its last block, with its end lines, could not be sent, its blocks have all
/// moves.
pub fn moves_are_sent_once()
    ensures whole { InEachMatch AllMovesAreSent }
    ensures given { InEachMatch AllMovesAreGiven }
    ensures each { AtEachMoment MovesAreSent }
    ensures all { AtEachLine IsSentAllMoves }
    ensures opened { AtEachOpening IsSentAllMoves }
{}

/// States a law and does nothing: whenever a line of an engine is read, it was sent a move if and only if its opponent
/// has made one. And a match ends in the state after all its acts.
pub fn moves_sent_are_known()
    ensures whole { AtEachLine MovesSentAreKnown }
    ensures after { InEachMatch EndsAfterItsActs }
{}

/// States a law and does nothing: the `time` lines that an engine is sent show its own clock in centiseconds, rounded
/// down, before its first move and after each of its moves, in order; the `otim` lines show its opponent's, but before
/// the opponent's first move only to the side that moves first. The last number may be unsent, and none is sent with
/// `time=0`. A block of lines that could not be sent counts. This holds at each moment of a match.
pub fn times_are_clocks()
    ensures own { InEachMatch TimesAreClocks }
    ensures others { InEachMatch OtherTimesAreClocks }
    ensures own_so_far { AtEachMoment TimesAreClocks }
    ensures others_so_far { AtEachMoment OtherTimesAreClocks }
{}

/// States a law and does nothing: the time that is charged for a move is the moment of its line less the moment when
/// its turn was opened, or 0 if that is negative. A last `move` line that ended the match may be charged nothing. This
/// holds at each moment of a match.
pub fn used_times_are_differences()
    ensures whole { InEachMatch UsedTimesAreDifferences }
    ensures so_far { AtEachMoment UsedTimesAreDifferences }
{}

/// States a law and does nothing: the moves of a side take no more time than it was given. What it has left and what
/// its moves took add up to what it was given. This holds at each moment of a match.
pub fn clocks_do_not_underflow()
    ensures whole { InEachMatch ClocksDoNotUnderflow }
    ensures so_far { AtEachMoment ClocksDoNotUnderflow }
{}

/// States a law and does nothing: a side loses on time, or draws against a bare king, exactly if its flag fell: at some
/// moment of its turn, when a line had come or none yet, more time had passed since the opening of the turn than it had
/// left.
pub fn time_forfeits_are_shown()
    ensures { InEachMatch TimeForfeitsAreShown }
{}

/// States a law and does nothing: a silence (a look for an engine's line that found none yet) ends the match exactly if
/// this side was beyond its limit: before its move, if more time had passed since the opening of its turn than it had
/// left; otherwise, if it owed its line for longer than the rules allow. A silence within the limit changes nothing,
/// except that the first one of a match may begin the time for a reply. If the rules let flags fall only with a line,
/// and set no limit for replies, there are no silences.
pub fn silences_end_matches()
    ensures asked_for { SilencesAreAskedFor }
    ensures beyond { SilencesEndMatches }
    ensures otherwise { SilencesChangeNothing }
{}

/// States a law and does nothing: if a match ended by a silence, so that a side lost on time without a line or did not
/// answer, all lines in the bytes that were read from its engine are lines of the match. None was passed over.
pub fn silences_leave_no_line()
    ensures { SilencesLeaveNoLine }
{}

/// States a law and does nothing: in a game of at most `limit` half-moves at most 22,000 + 10,002 * (limit + 1) lines
/// of both engines together are read. This holds at each moment of a match.
pub fn lines_are_few()
    ensures whole { InEachMatch LinesAreFew }
    ensures so_far { AtEachMoment LinesAreFew }
{}

/// States a law and does nothing: the notes of a match, which its witness (such as the log) is given, are complete and
/// in order. Their events are just those of the match, so they lead from the beginning to its end; a failed write is an
/// event only if the match ended by it. For each engine the notes have the bytes of all lines that it is sent, also of
/// a block that could not be sent. Their lines of each side are just those that were read of it, and their moments just
/// those that the clock showed.
pub fn notes_have_all()
    ensures of_matches { NotesHaveTheEvents }
    ensures in_order { NotesAreInOrder }
    ensures lines_of_matches { NotesHaveAllLines }
    ensures lines_read { NotesHaveLinesRead }
    ensures moments { NotesHaveMoments }
{}

/// States a law and does nothing: right after a line is read, or a look for one found none, the clock is read, and the
/// line or silence is noted with that moment. And whenever an event is read (a line, a silence, the clock, an output's
/// end or a failure), no block is still to be sent.
pub fn acts_are_in_order()
    ensures lines { LinesAreReadInOrder }
    ensures silences { SilencesAreReadInOrder }
    ensures events { NothingIsDueAtEvents }
{}

/// States a law and does nothing: whenever a line of an engine is read whose `pong 1` is awaited, the lines that it was
/// sent last are those of its setup. This is said, byte by byte, of two cases: normal chess from the initial position,
/// if the engine's own level is 40 moves in 5 minutes, and Chess960 from any position, if it is 2 minutes and 12
/// seconds for each move.
pub fn setups_are_these_lines()
    ensures { AtEachLine IsSetUp }
{}

/// States a law and does nothing: the n-th `ping` that an engine is sent (a block of lines that could not be sent
/// counts) has the number n. This holds at each moment of a match.
pub fn pings_are_numbered()
    ensures whole { InEachMatch PingsAreNumbered }
    ensures so_far { AtEachMoment PingsAreNumbered }
{}

/// States a law and does nothing: at each moment of a match each engine was sent `go` at most once (a block of lines
/// that could not be sent counts), and just once whenever the clock is read for the opening of one of its turns.
pub fn go_is_sent_once()
    ensures whole { InEachMatch GoIsSentOnce }
    ensures so_far { AtEachMoment GoIsSentOnce }
    ensures opened { AtEachOpening WasSentGo }
{}

/// States a law and does nothing: each turn is opened once. The clock was read for a side's openings (the lines that
/// ask for its move) as often as it has moved, or once more, if its move is awaited or the match ended before it. This
/// holds at each moment of a match.
pub fn turns_are_opened_once()
    ensures whole { InEachMatch TurnsAreOpenedOnce }
    ensures so_far { AtEachMoment TurnsAreOpenedOnce }
{}

/// States a law and does nothing: in a match that ended by agreement one side offered a draw, and then the other, by
/// the last line that was read. In between the latter made no move, by which the offer would have lapsed.
pub fn agreed_draws_are_offered()
    ensures { InEachMatch AgreedDrawsAreOffered }
{}

/// States a law and does nothing: whenever a line of a side is read while the other side's offer of a draw is open, the
/// side of this line was sent `draw`, unless its engine has the feature off. At each moment a side was sent `draw` (a
/// block of lines that could not be sent counts) at most as often as the other side has offered a draw, and at most
/// once more than it has made moves; so a repeated offer is not passed on again.
pub fn offers_are_passed_on()
    ensures passed { AtEachLine OffersArePassedOn }
    ensures offered { AtEachMoment DrawsAreOffered }
    ensures once { AtEachMoment DrawsAreFew }
{}

/// States a law: an engine that answers its handshake and each `ping`, makes one legal move in each of its turns,
/// within its time, and says nothing else that counts, is never reported with a fault, and loses only by mate.
///
/// This holds whatever the other engine does. The engine may also send lines that mean nothing, such as its thinking,
/// but fewer than 1,000 in its handshake (with all others), its setup or a turn. Its `feature` lines say `done=1`, and
/// that it lacks nothing which the match needs: `ping=1`, `setboard=1` if a FEN is sent, and for Chess960 the variant,
/// if they name any. Its output doesn't end, and no read from it and no write to it fails.
pub fn answering_engines_lose_only_by_mate()
    ensures { AnsweringEnginesAreBlameless }
{}
