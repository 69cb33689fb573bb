//! The plan that arguments ask for.

ghost use Rattle.std.specs.Prelude.{◌≡◌, ◌&&◌, IfErr, IfOk, Ok, false, nat_le, option_map, true};
ghost use Rattle.std.specs.List.{list_all};
ghost use Rattle.std.specs.Option.{option_map_or};
ghost use Rattle.cecp_engine.specs.Levels.{level_reading};
ghost use Rattle.arbiter_cli.specs.Plans.{is_date as date_test};
ghost use Rattle.arbiter_cli.specs.declared.fault.WordsFault.TheVariants.{BadKind};
ghost use Rattle.arbiter_cli.specs.ties.Requests.{IsJudged, IsJudgedFault, IsPlanFault, IsPlanned, is_kind, levels_by, names_in, patience_by, start_of};

use crate::fault::WordsFault;
use crate::ignored::can_be_ignored;
use crate::request::{MatchRequest, Request};
use cecp_engine::{Level, LevelFault};
use chess_base::{FenFault, Position, Variant};
use chess_fen::read_fen_as;
use chess_match::{GamesPlan, Patience};
use verify_options::VerifyOptions;

/// What the arguments ask for.
#[derive(Drop)]
pub enum Plan<'a> {
    /// A session on the standard streams.
    Session,
    /// To verify the games on the standard input.
    Verify {
        /// Whether verifying continues after a game with a fault, where that game ends, and writes totals at the end.
        keep_going: bool,
        /// How they are verified.
        options: VerifyOptions,
    },
    /// To be the built-in engine `stub`, whose replies are these arguments.
    Stub(Vec<&'a str>),
    /// Games between two engines, 1 to 1,000 of them; their log, if there is one, goes to the error output.
    Match(GamesPlan<'a>),
}

// Whether all bytes are printable ASCII (32 to 126).
fn is_plain(bytes: &[u8]) -> bool
    ensures { result ≡ list_all (λ b. nat_le 32 b && nat_le b 126) bytes.now }
{
    bytes.iter().all(|b| 32 <= *b && *b <= 126)
}

// Whether a text can be the tag Date: at most 60 bytes of printable ASCII. It need not be a date.
fn is_date(text: &str) -> bool
    ensures { result ≡ date_test text.now }
{
    text.len() <= 60 && is_plain(text.as_bytes())
}

// The position in which games start: the one that the FEN denotes in this variant, or without a FEN the variant's
// initial position.
fn start_of(variant: Variant, fen: Option<&str>) -> Result<Position, FenFault>
    ensures { result ≡ start_of variant (option_map (λ t. t.now) fen.entry) }
{
    match fen {
        None => Ok(Position::initial_of(variant)),
        Some(text) => read_fen_as(variant, text.as_bytes()),
    }
}

// How long a match waits for its engines: whether a flag falls as soon as the time is over, without waiting for a line,
// and for how many seconds an engine's reply is waited for (`None`: without a limit). The result has milliseconds.
fn patience_of(flag: bool, seconds: Option<u16>) -> Patience
    ensures { result ≡ patience_by flag seconds }
{
    let reply = match seconds {
        None => None,
        Some(seconds) => Some(u64::from(seconds) * 1000),
    };
    Patience { flag, reply }
}

// The time control of an engine by the text of its own, if it was given one, otherwise the common one.
fn own_level(text: Option<&str>, common: Level) -> Result<Level, LevelFault>
    ensures { result ≡ option_map_or level_reading (option_map (λ t. t.now) text.entry) (Ok common) }
{
    match text {
        None => Ok(common),
        Some(text) => Level::try_from(text.as_bytes()),
    }
}

// The time controls of both engines, by the text of the common one and those of their own, which may be missing; or the
// fault of the first that is not valid.
fn levels_of(
    common: &str,
    white: Option<&str>,
    black: Option<&str>,
) -> Result<(Level, Level), LevelFault>
    ensures { result
        ≡ levels_by common.now (option_map (λ t. t.now) white.entry) (option_map (λ t. t.now) black.entry) }
{
    let common = Level::try_from(common.as_bytes())?;
    let white_level = own_level(white, common)?;
    let black_level = own_level(black, common)?;
    Ok((white_level, black_level))
}

// The plan of the match that `request` asks for, if its levels, FEN and date are valid; otherwise the fault of the
// first of them that is not.
fn validate<'a>(request: &MatchRequest<'a>) -> Result<GamesPlan<'a>, WordsFault>
    ensures plan { IfOk result (IsJudged request.now) }
    ensures fault { IfErr result (IsJudgedFault request.now) }
{
    let (white_level, black_level) = levels_of(
        request.level,
        request.white_level,
        request.black_level,
    )?;
    let start = start_of(request.variant, request.fen)?;
    if !is_date(request.date) {
        return Err(WordsFault::BadDate);
    }
    Ok(GamesPlan {
        white: request.white,
        black: request.black,
        white_level,
        black_level,
        patience: patience_of(request.flag, request.reply),
        draws: request.draws,
        start,
        games: request.games,
        date: request.date,
        log: request.log,
    })
}

// The options of `verify`, if the list that `--ignore` was given names only kinds that can be ignored; otherwise
// `BadKind`.
fn validate_kinds(
    options: VerifyOptions,
    ignored: Option<&str>,
) -> Result<VerifyOptions, WordsFault>
    ensures options { IfOk result (λ o. (o ≡ options)
        × (list_all is_kind (names_in (option_map (λ t. t.now) ignored.entry)) ≡ true)) }
    ensures fault { IfErr result (λ f. (f ≡ BadKind)
        × (list_all is_kind (names_in (option_map (λ t. t.now) ignored.entry)) ≡ false)) }
{
    if can_be_ignored(ignored) {
        Ok(options)
    } else {
        Err(WordsFault::BadKind)
    }
}

// The plan of what the request asks for; of a match only if levels, FEN and date are valid, otherwise the fault of the
// first of them that is not; of `verify` only if the kinds to ignore are valid, otherwise `BadKind`.
pub(crate) fn planned<'a>(request: Request<'a>) -> Result<Plan<'a>, WordsFault>
    ensures plan { IfOk result (IsPlanned request.entry) }
    ensures fault { IfErr result (IsPlanFault request.entry) }
{
    match request {
        Request::Session => Ok(Plan::Session),
        Request::Verify {
            keep_going,
            options,
            ignored,
        } => Ok(Plan::Verify {
            keep_going,
            options: validate_kinds(options, ignored)?,
        }),
        Request::Stub(arguments) => Ok(Plan::Stub(arguments)),
        Request::Match(request) => Ok(Plan::Match(validate(&request)?)),
    }
}
