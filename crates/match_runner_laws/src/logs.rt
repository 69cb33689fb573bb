//! Laws of logs.

ghost use Rattle.match_runner_laws.specs.Entries.{LogLinesLook, LogsHaveOneReading};
ghost use Rattle.match_runner_laws.specs.ReadBack.{LogsGiveTheGame, LogsGiveTheOutput, LogsGiveThePgn, LogsShow};

/// States a law and does nothing: a log whose lines' texts are printable ASCII can be read in only one way, as these
/// lines with their moments, marks and engines (`first`, the engine of `--white`, or `second`). A line of each kind is
/// written out, and those on standard error: on an engine that was killed, and on why a match was not played to its
/// end.
pub fn logs_have_one_reading()
    ensures reading { LogsHaveOneReading }
    ensures lines { LogLinesLook }
{}

/// States a law and does nothing: a log gives its game back. From its lines, if their texts are printable ASCII, follow
/// the lines that each engine sent and its silences, with their moments; the lines that it was sent, which show the
/// clocks; the moves; the reason for which the game ended, and so its result; and its PGN, if the plan and the game's
/// number are given. If two matches by one plan were both played to the end, their scores were written, and their games
/// have the same logs, then they write the same to the output. A log doesn't give back the moments at which turns were
/// opened, so not the milliseconds that moves used; nor whether a write of the last lines failed.
pub fn logs_give_the_game()
    ensures shows { LogsShow }
    ensures gives { LogsGiveTheGame }
    ensures pgn { LogsGiveThePgn }
    ensures output { LogsGiveTheOutput }
{}
