//! The grammar of the command line, and its texts of help.

ghost use Rattle.std.specs.Prelude.{◌≡◌, ◌∷◌, [], IfOk, Some, codes, false, map, true};
ghost use Rattle.clap.specs.Words.{app_of, new_app, rule_of};
ghost use Rattle.clap.specs.declared.builder.texts.Texts.TheVariants.{One};
ghost use Rattle.clap.specs.declared.builder.value_parser.ValueParser.TheVariants.{Names, Unsigned};
ghost use Rattle.clap.specs.declared.builder.command.Command.TheViews.{out-Command as fields_of};
ghost use Rattle.arbiter_grammar.specs.Grammar.{checked_rule, flag_rule, option_rule, stub_app, verify_app};
ghost use Rattle.arbiter_grammar.specs.ties.Grammars.{GivesMatchApp, GivesArbiterApp, bare_app};

use clap::builder::ValueParser;
use clap::{Arg, ArgAction, Command};
use std::alloc::{AllocError, Global};

// The version that `--version` prints.
const VERSION: &str = "0.3.0";

// What the program is, in its help.
const ABOUT: &str = "\
Checks games between chess engines by the Laws of Chess: answers the XBoard protocol (CECP, version 2), verifies PGN,
and plays matches between two engines";

// The end of the program's help; those of its subcommands follow.
const EXAMPLES: &str = "\
Examples:
  arbiter                                              a session: type e2e4, showfen, quit
  arbiter verify < games.pgn                           one line per game, up to the first fault
  arbiter match --white sjeng --black phalanx > a.txt  one game between two engines
  arbiter stub e2e4 g1f3                               an engine that plays these two moves

Exit status: 0 on success; 1 if an I/O error occurs, memory runs out, the input of verify is too long, an engine fails,
or verify finds a fault; 2 if the arguments are invalid.";

// The end of the help of `session`.
const SESSION_EXAMPLES: &str = "\
Commands, one per line:
  new                                start from the initial position of normal chess
  variant fischerandom               start from the same position, in Chess960
  setboard FEN                       start from a position
  e2e4, Nf3, O-O, usermove e7e8q     play a move
  undo, remove                       take back one half-move, or two
  claim                              claim a draw by threefold repetition or the 50-move rule
  result 1-0 {Black resigns}         declare the result
  showfen, showmoves                 print the position, or all legal moves
  showstate, showpgn                 print the state of the game, or its PGN
  ping 7, protover 2                 print `pong 7`, or the features of the arbiter
  quit                               end the session

A legal move gets no answer, unless it ends the game: then the result is printed.

Example:
  printf 'e2e4\\nshowfen\\n' | arbiter session";

// The end of the help of `verify`.
const VERIFY_EXAMPLES: &str = "\
Prints one line per game: `game 1: 40 half-moves, 1-0`, or its first fault: `game 1: illegal move at byte 6`. Bytes are
counted from 0. The exit status is 1 if a game has a fault.

Without --keep-going the first fault ends the run, and the input may have at most 16,777,216 bytes. For longer input
use --keep-going: it reads piece by piece. A piece may have 16,777,216 bytes. It begins at a tag line after a line of
moves, or at a second Event tag. The totals, `games 2 half-moves 91 faults 1`, count games without a fault, their
half-moves, and faults.

With --explain a second line shows the line and column of each fault, the text there, the position, and for some faults
a reason: `# line 2 column 4 Ke3 | rnbqkbnr/pppp1ppp/8/4p3/4P3/8/PPPP1PPP/RNBQKBNR w KQkq e6 0 2`.

With --spans each line ends with the part of the input that the game has: `game 1: 40 half-moves, 1-0, bytes 0 to 412`
begins at byte 0 and ends before byte 412. With --keep-going a game with a fault ends where reading continues: after
its result, or at the next tags. If neither is found, it has the rest of its piece, which is not read.

With --variations the moves in variations are read, too: `game 1: illegal move in a variation at byte 61`. A variation
replaces the move just before it.

With --strict --ignore board the result is not compared with the final position, as for studies that end with `*` after
mate. Further kinds are `result` (the Result tag) and `variant`; commas go between several: `--ignore board,variant`.

With --ignore after-end a game may go on after the fifth time that a position is there, and after 75 moves of each side
without a capture or pawn move, as games from before July 2014 do: since then both end a game. This needs no --strict.

With --names the line of a fault ends with ` | White - Black, Event Date`, each as the last tag of this name has it, but
at most 40 bytes, with `?` for each byte that is not printable ASCII, and for a tag that is missing.

Examples:
  arbiter verify < games.pgn
  arbiter verify --explain < games.pgn
  arbiter verify --keep-going --quiet < games.pgn
  zcat games.pgn.gz | arbiter verify --keep-going --strict";

// The end of the help of `stub`.
const STUB_EXAMPLES: &str = "\
On each turn the stub plays the next REPLY: a move; `resign`; or `end`, which closes its output in the middle of a
line. After a move, `offer` offers a draw and `claim` claims one. When none is left, it resigns.

Examples:
  arbiter stub e2e4 g1f3 offer resign
  arbiter match --white \"arbiter stub f2f3 g2g4\" --black \"arbiter stub e7e5 d8h4\"";

// The end of the help of `match`.
const MATCH_EXAMPLES: &str = "\
The first engine plays White in odd games and Black in even ones. Both must send `feature ping=1` and `done=1`. They
must also send `setboard=1`, except in normal chess from its initial position: in Chess960 it is always needed. After
the last game comes the score, which is not PGN: grep -v '^score ' removes it.

Without --flag and --reply-timeout there are no time-outs: an engine that never answers is waited for, and a flag falls
only when the engine's next line comes. With --flag it falls as soon as the time is over. With --reply-timeout S the
match ends if an engine takes more than S seconds for its next `feature` line, for a `pong`, or to read what it is sent;
and one that has not exited S seconds after its input was closed is killed. With both every match ends.

In the log, `312 <first : move e2e4` is a line from the first engine, whichever side it has, and `312 >second: e2e4` a
line to the second; `!` marks an end of output, an I/O error, that no line came, or a line that is too long and left
out.

For a tournament, with openings, standings and SPRT, take tools/tournament.

Examples:
  arbiter match --white sjeng --black phalanx
  arbiter match --white sjeng --black phalanx --games 10 --level \"40 5 0\" --date 2026.11.23 > match.txt
  arbiter match --white ./a --black \"./b -x\" --level \"0 0:30 1\" --fen \"4k3/8/8/8/8/8/4P3/4K3 w - - 0 1\"
  arbiter match --white ./a --black ./b --variant fischerandom
  arbiter match --white ./a --black ./b --draws automatic
  arbiter match --white ./a --black ./b --white-level \"0 1 0\" --black-level \"0 0:30 0\"
  arbiter match --white ./a --black ./b --log 2> match.debug
  arbiter match --white ./a --black ./b --flag --reply-timeout 10";

// The names that `--variant` takes.
static VARIANTS: [&str; 2] = ["normal", "fischerandom"];

// A subcommand (or the program itself) with no arguments yet; `about` and `examples` are the beginning and the end of
// its help.
fn command<'a>(alloc: Global, name: &'a str, about: &'a str, examples: &'a str) -> Command<'a>
    ensures app { app_of result ≡ new_app name.entry.now }
    ensures about { (fields_of result).about ≡ Some about.entry }
    ensures examples { (fields_of result).after_help ≡ Some examples.entry }
    ensures local { (fields_of result).has_globals ≡ false }
{
    Command::new(alloc, name).about(about).after_help(examples)
}

// An option `--NAME VALUE`; `value` is what its help calls the value, and `help` is its line in the help.
fn option<'a>(alloc: Global, name: &'a str, value: &'a str, help: &'a str) -> Arg<'a>
    ensures rule { rule_of result ≡ option_rule name.entry.now }
    ensures value { result.val_names ≡ One value.entry }
    ensures help { result.help ≡ Some help.entry }
    ensures local { result.global ≡ false }
{
    Arg::new(alloc, name)
        .long(name)
        .value_name(value)
        .help(help)
}

// An option `--NAME`, which takes no value; `help` is its line in the help.
fn flag<'a>(alloc: Global, name: &'a str, help: &'a str) -> Arg<'a>
    ensures rule { rule_of result ≡ flag_rule name.entry.now }
    ensures help { result.help ≡ Some help.entry }
    ensures local { result.global ≡ false }
{
    Arg::new(alloc, name)
        .long(name)
        .action(ArgAction::SetTrue)
        .help(help)
}

// An option `--NAME VALUE` that must be given; `value` is what its help calls the value, and `help` is its line in the
// help.
fn needed_option<'a>(alloc: Global, name: &'a str, value: &'a str, help: &'a str) -> Arg<'a>
    ensures rule { rule_of result ≡ record (option_rule name.entry.now) { required = true } }
    ensures value { result.val_names ≡ One value.entry }
    ensures help { result.help ≡ Some help.entry }
    ensures local { result.global ≡ false }
{
    option(alloc, name, value, help).required(true)
}

// The option `--games N`, with N from 1 to 1,000.
fn games_option<'a>(alloc: Global) -> Arg<'a>
    ensures rule { rule_of result ≡ checked_rule (codes "games") (Unsigned 1 1000) }
    ensures local { result.global ≡ false }
{
    option(
        alloc,
        "games",
        "N",
        "Number of games, 1 to 1000, changing colours after each [default: 1]",
    )
    .value_parser(ValueParser::unsigned(1, 1000))
}

// The names that `--draws` takes.
static DRAWS: [&str; 2] = ["claimed", "automatic"];

// The option `--variant NAME`, where NAME is `normal` or `fischerandom`.
fn variant_option<'a>(alloc: Global) -> Arg<'a>
    ensures rule { (names : _) × (map (λ n. n.now) names.now ≡ codes "normal" ∷ codes "fischerandom" ∷ [])
        × (rule_of result ≡ checked_rule (codes "variant") (Names names)) }
    ensures local { result.global ≡ false }
{
    option(
        alloc,
        "variant",
        "NAME",
        "Normal chess or Chess960 [default: normal]",
    )
    .value_parser(VARIANTS.as_slice())
}

// The option `--draws NAME`, where NAME is `claimed` or `automatic`.
fn draws_option<'a>(alloc: Global) -> Arg<'a>
    ensures rule { (names : _) × (map (λ n. n.now) names.now ≡ codes "claimed" ∷ codes "automatic" ∷ [])
        × (rule_of result ≡ checked_rule (codes "draws") (Names names)) }
    ensures local { result.global ≡ false }
{
    option(
        alloc,
        "draws",
        "NAME",
        "Whether draws by threefold repetition and 50 moves must be claimed, or end the game [default: claimed]",
    )
    .value_parser(DRAWS.as_slice())
}

// The option `--reply-timeout S`, with S from 1 to 999.
fn reply_timeout_option<'a>(alloc: Global) -> Arg<'a>
    ensures rule { rule_of result ≡ checked_rule (codes "reply-timeout") (Unsigned 1 999) }
    ensures local { result.global ≡ false }
{
    option(
        alloc,
        "reply-timeout",
        "S",
        "Seconds, 1 to 999, in which an engine must answer, read what it is sent, or exit [default: no limit]",
    )
    .value_parser(ValueParser::unsigned(1, 999))
}

// The option `--log`.
fn log_option<'a>(alloc: Global) -> Arg<'a>
    ensures rule { rule_of result ≡ flag_rule (codes "log") }
    ensures local { result.global ≡ false }
{
    flag(
        alloc,
        "log",
        "Log the lines from and to both engines on standard error, in the format of XBoard's debug file",
    )
}

// The subcommand `match` with its options, of which `--white` and `--black` must be given.
fn match_command<'a>(alloc: Global) -> Result<Command<'a>, AllocError>
    ensures app { IfOk result (λ c. GivesMatchApp (app_of c)) }
    ensures local { IfOk result (λ c. (fields_of c).has_globals ≡ false) }
{
    command(
        alloc,
        "match",
        "Play games between two engines, and write them as PGN",
        MATCH_EXAMPLES,
    )
    .arg(needed_option(
        alloc,
        "white",
        "CMD",
        "The first engine: a program and its arguments, split at spaces and tabs",
    ))?
    .arg(needed_option(alloc, "black", "CMD", "The second engine"))?
    .arg(option(
        alloc,
        "level",
        "LEVEL",
        "Moves per time control (0: the whole game), minutes or M:SS, seconds added per move, as 0.1 [default: 40 5 0]",
    ))?
    .arg(option(
        alloc,
        "white-level",
        "LEVEL",
        "The level of the first engine, whichever side it has [default: that of --level]",
    ))?
    .arg(option(
        alloc,
        "black-level",
        "LEVEL",
        "The level of the second engine [default: that of --level]",
    ))?
    .arg(option(
        alloc,
        "fen",
        "FEN",
        "Start of every game [default: the initial position]",
    ))?
    .arg(games_option(alloc))?
    .arg(option(
        alloc,
        "date",
        "TEXT",
        "Date tag of every game [default: ????.??.??]",
    ))?
    .arg(variant_option(alloc))?
    .arg(draws_option(alloc))?
    .arg(log_option(alloc))?
    .arg(flag(
        alloc,
        "flag",
        "Let a flag fall as soon as the time is over, without waiting for the engine's next line",
    ))?
    .arg(reply_timeout_option(alloc))
}

// The subcommand `verify` without its flags. Its usage shows that the games come from standard input.
fn bare_verify_command<'a>(alloc: Global) -> Command<'a>
    ensures app { app_of result ≡ new_app (codes "verify") }
    ensures local { (fields_of result).has_globals ≡ false }
{
    command(
        alloc,
        "verify",
        "Check the games of a PGN file on standard input",
        VERIFY_EXAMPLES,
    )
    .override_usage("arbiter verify [OPTIONS] < FILE")
}

// The subcommand `verify` with its flags `--keep-going`, `--quiet`, `--strict`, `--explain`, `--spans`, `--names` and
// `--variations`, and its option `--ignore`.
fn verify_command<'a>(alloc: Global) -> Result<Command<'a>, AllocError>
    ensures app { IfOk result (λ c. app_of c ≡ verify_app) }
    ensures local { IfOk result (λ c. (fields_of c).has_globals ≡ false) }
{
    bare_verify_command(alloc)
        .arg(flag(
            alloc,
            "keep-going",
            "Continue after a fault where its game ends, and print totals at the end; for input of any size",
        ))?
        .arg(flag(alloc, "quiet", "Leave out games without a fault"))?
        .arg(flag(
            alloc,
            "strict",
            "Also check the variant, and the result against the Result tag and the final position",
        ))?
        .arg(flag(
            alloc,
            "explain",
            "After each fault print a line that shows where it is (line, column, text, position) and why",
        ))?
        .arg(flag(
            alloc,
            "spans",
            "End each line with `, bytes A to B`: the game begins at byte A and ends before byte B",
        ))?
        .arg(flag(
            alloc,
            "names",
            "End the line of each fault with the game's players, event and date",
        ))?
        .arg(flag(
            alloc,
            "variations",
            "Also read the moves in variations, each from the position before the move that it replaces",
        ))?
        .arg(option(
            alloc,
            "ignore",
            "KINDS",
            "Leave out faults of these kinds, with commas between: variant, result, board (of --strict); after-end",
        ))
}

// The subcommand `stub`, which takes any number of arguments.
fn stub_command<'a>(alloc: Global) -> Result<Command<'a>, AllocError>
    ensures app { IfOk result (λ c. app_of c ≡ stub_app) }
    ensures local { IfOk result (λ c. (fields_of c).has_globals ≡ false) }
{
    let words = Arg::new(alloc, "words")
        .action(ArgAction::Append)
        .value_name("REPLY")
        .help("A move, resign, or end; after a move also offer or claim");
    command(
        alloc,
        "stub",
        "Play given moves, as an engine for tests",
        STUB_EXAMPLES,
    )
    .arg(words)
}

// The program without its subcommands.
fn bare_command<'a>(alloc: Global) -> Result<Command<'a>, AllocError>
    ensures app { IfOk result (λ c. app_of c ≡ bare_app) }
{
    Ok(
        command(alloc, "arbiter", ABOUT, EXAMPLES)
            .bin_name("arbiter")?
            .version(VERSION)
            .no_binary_name(true)
            .disable_help_subcommand(true),
    )
}

// The subcommand `session`.
fn session_command<'a>(alloc: Global) -> Command<'a>
    ensures app { app_of result ≡ new_app (codes "session") }
    ensures local { (fields_of result).has_globals ≡ false }
{
    command(
        alloc,
        "session",
        "Answer commands on standard input (the default)",
        SESSION_EXAMPLES,
    )
}

// The whole grammar of the command line: the program `arbiter` with the subcommands `session`, `verify`, `stub` and
// `match`.
pub(crate) fn arbiter_command<'a>(alloc: Global) -> Result<Command<'a>, AllocError>
    ensures { IfOk result (λ c. GivesArbiterApp (app_of c)) }
{
    bare_command(alloc)?
        .subcommand(session_command(alloc))?
        .subcommand(verify_command(alloc)?)?
        .subcommand(stub_command(alloc)?)?
        .subcommand(match_command(alloc)?)
}
