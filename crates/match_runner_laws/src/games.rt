//! Laws of the games of a match.

ghost use Rattle.match_runner_laws.specs.Faults.{OnlyLastGamesHaveFailedWrites};
ghost use Rattle.match_runner_laws.specs.Players.{EachKeepsItsLevel, GamesAreTagged};

/// States a law and does nothing: a game without a fault of an engine leaves the counts of failed writes and flushes of
/// both engines' inputs as they were, also at its end lines. So only the last game of a match can raise them.
pub fn only_last_games_have_failed_writes()
    ensures { OnlyLastGamesHaveFailedWrites }
{}

/// States a law and does nothing: in odd games the engine of `--white` has White, in even games Black, and each engine
/// has its own time control in all games. In the tags an engine that gave itself no name has its command as its name,
/// and one that named itself `Sjeng` (an example) has this name. The tags Event, Site and Round of the twelfth game are
/// written out, its date is the plan's, and its Termination is as it ended: `time forfeit` if White has lost on time.
///
/// It refuses a level or a name that stays with its colour, and for the twelfth game another event, another round, a
/// date that isn't the plan's, and a loss on time that is written as a normal end.
pub fn levels_stay_with_engines()
    ensures levels { EachKeepsItsLevel }
    ensures tags { GamesAreTagged }
{}
