//! Laws of the program's arguments: which are read as what, and which are refused. A caller learns one by calling its
//! function, which does nothing.

ghost use Rattle.std.specs.Prelude.{[], ◌∷◌, codes};
ghost use Rattle.clap.specs.declared.error.kind.ErrorKind.TheVariants.{DisplayHelp, DisplayVersion, MissingRequiredArgument};
ghost use Rattle.arbiter_laws.specs.Arguments.{AreRefused, AskFor, PlansAreNamed, VerifyAsBare, VerifyIsAsAsked};
ghost use Rattle.arbiter_laws.specs.PlainArguments.{PlainArgumentsAreRead};
ghost use Rattle.arbiter_laws.specs.WorkedOptions.{DatesAreRead, LevelsAreRead, OptionsMean, StartsAreAsked};

/// States a law and does nothing: plain arguments are read as what they say. Plain are: no arguments; `session`;
/// `verify` and `match` with their options, in any order and each at most once (`match` at least with `--white` and
/// `--black`); and `stub` with what it plays. No value begins with a hyphen.
pub fn plain_arguments_are_read()
    ensures { PlainArgumentsAreRead }
{}

/// States a law and does nothing: `clap` accepts the empty list of arguments, the one argument `session` and the one
/// argument `verify`. The first two ask for a session, the last to verify without flags.
pub fn plain_arguments_are_taken()
    ensures none { AskFor [] (codes "session") }
    ensures session { AskFor (codes "session" ∷ []) (codes "session") }
    ensures verify { AskFor (codes "verify" ∷ []) (codes "verify") }
    ensures bare { VerifyAsBare (codes "verify" ∷ []) }
{}

/// States a law and does nothing: `clap` refuses `--help` and `--version` with the fault that asks to show a text, and
/// `match` without options with the fault that required options are missing.
pub fn plain_arguments_are_refused()
    ensures help { AreRefused (codes "--help" ∷ []) (DisplayHelp ∷ []) }
    ensures version { AreRefused (codes "--version" ∷ []) (DisplayVersion ∷ []) }
    ensures bare_match { AreRefused (codes "match" ∷ []) (MissingRequiredArgument ∷ []) }
{}

/// States a law and does nothing: each plan is asked for by the subcommand of its kind: `session`, `verify`, `stub` or
/// `match`.
pub fn plans_are_named()
    ensures { PlansAreNamed }
{}

/// States a law and does nothing: a plan to verify has just the flags that were given after `verify`, and ignores just
/// the kinds of fault that `--ignore` names.
pub fn verify_is_as_asked()
    ensures { VerifyIsAsAsked }
{}

/// States a law and does nothing: what some options of `match` and of `verify` mean, by examples. Each engine of a
/// match has its own level or the common one; each game starts in the position of `--fen` or in the initial one, both
/// in the variant of `--variant`; `--reply-timeout` is in seconds; one game is played without `--games`; and `--strict`
/// looks for three faults but for those that `--ignore` names. Some dates are worked out that `--date` takes or
/// refuses. Of several faults one of a level is reported first, then one of the FEN, then one of the date.
///
/// It refuses a common level that is not looked at if each engine has its own, a level of White that is Black's, a
/// variant that counts only with a FEN, two games by default, and a flag that sets another.
pub fn options_are_worked_out()
    ensures levels { LevelsAreRead }
    ensures starts { StartsAreAsked }
    ensures dates { DatesAreRead }
    ensures options { OptionsMean }
{}
