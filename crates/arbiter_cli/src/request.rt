//! The request of the arguments: the options as they are written.

ghost use Rattle.std.specs.Prelude.{◌≡◌, ◌≤◌, ◌&&◌, ℕ, [], IfOk, IfSome, IsSome, true, codes, is_some, map, not, option_map, unwrap_or};
ghost use Rattle.std.specs.List.{list_any};
ghost use Rattle.std.specs.Str.{bytes_eq};
ghost use Rattle.clap.specs.Words.{all_of, first_of, found_of, rows_of, subcommand_rows_of};
ghost use Rattle.arbiter_grammar.specs.Grammar.{HasNumber, HasNumbers, IsCommand, NamesBoth};
ghost use Rattle.arbiter_cli.specs.Plans.{has_value, is_set, number_of, verify_options_of};
ghost use Rattle.arbiter_cli.specs.ties.Requests.{IsMatchOf, IsRequestOf, draws_in, games_in, matched, names_in, said_of, variant_in};

use crate::ignored::is_ignored;
use chess_base::Variant;
use chess_match::Draws;
use clap::ArgMatches;
use std::alloc::{AllocError, Global};
use verify_options::{Strictness, VerifyOptions};

/// The options of a match, not yet read as time controls or positions. Each field has the value of the option of its
/// name, and `reply` that of `--reply-timeout`, in seconds.
#[derive(Clone, Copy, Debug)]
pub(crate) struct MatchRequest<'a> {
    pub white: &'a str,
    pub black: &'a str,
    pub level: &'a str,
    pub white_level: Option<&'a str>,
    pub black_level: Option<&'a str>,
    pub fen: Option<&'a str>,
    pub games: u16,
    pub date: &'a str,
    pub variant: Variant,
    pub log: bool,
    pub flag: bool,
    pub reply: Option<u16>,
    pub draws: Draws,
}

/// What the arguments ask for; texts are not yet read as time controls or positions, and `ignored`, the list of
/// `--ignore`, may have names of no kind of fault.
#[derive(Drop)]
pub(crate) enum Request<'a> {
    Session,
    Verify {
        keep_going: bool,
        options: VerifyOptions,
        ignored: Option<&'a str>,
    },
    Stub(Vec<&'a str>),
    Match(MatchRequest<'a>),
}

// The value that the option `name` was given, otherwise its default; `found` are the options as matched.
fn text_or<'a>(found: &ArgMatches<'a>, name: &str, default: &'a str) -> &'a str
    ensures { result.now ≡ unwrap_or (first_of name.now (rows_of (found_of found.now))) default.entry.now }
{
    match found.get_str(name) {
        Some(text) => text,
        None => default,
    }
}

// Whether the option `name` was given this value; `found` are the options as matched.
fn has_value(found: &ArgMatches<'_>, name: &str, text: &str) -> bool
    ensures { result ≡ has_value name.now text.now (matched (rows_of (found_of found.now))) }
{
    match found.get_str(name) {
        Some(given) => given == text,
        None => false,
    }
}

// Whether the flag `name`, such as `--quiet`, was given; `found` are the options as matched.
fn is_set(found: &ArgMatches<'_>, name: &str) -> bool
    ensures { result ≡ is_set name.now (matched (rows_of (found_of found.now))) }
{
    has_value(found, name, "true")
}

// The value that the option `name` was given, if it was given; `found` are the options as matched.
fn value_in<'a>(found: &ArgMatches<'a>, name: &str) -> Option<&'a str>
    ensures { option_map (λ t. t.now) result ≡ first_of name.now (rows_of (found_of found.now)) }
{
    found.get_str(name)
}

// Whether faults of this kind are looked for: with `--strict`, unless the list `ignored` of `--ignore` has it.
fn is_looked_for(strict: bool, ignored: Option<&str>, kind: &str) -> bool
    ensures { result ≡ (strict && not
        (list_any (bytes_eq kind.now) (names_in (option_map (λ t. t.now) ignored.entry)))) }
{
    strict && !is_ignored(ignored, kind)
}

// Which faults the flags of `verify` and the list `ignored` of `--ignore` ask for; `found` are the options as matched.
fn strictness(found: &ArgMatches<'_>, ignored: Option<&str>) -> Strictness
    requires { option_map (λ t. t.now) ignored ≡ first_of (codes "ignore") (rows_of (found_of found.now)) }
    ensures { result ≡ (verify_options_of (matched (rows_of (found_of found.now)))).strict }
{
    let is_strict = is_set(found, "strict");
    Strictness {
        draws_of_2014: !is_ignored(ignored, "after-end"),
        variations: is_set(found, "variations"),
        variant: is_looked_for(is_strict, ignored, "variant"),
        result: is_looked_for(is_strict, ignored, "result"),
        board: is_looked_for(is_strict, ignored, "board"),
    }
}

// What the options of `verify` but `--keep-going` ask for; `ignored` is the list of `--ignore`, and `found` are the
// options as matched.
fn verify_options(found: &ArgMatches<'_>, ignored: Option<&str>) -> VerifyOptions
    requires { option_map (λ t. t.now) ignored ≡ first_of (codes "ignore") (rows_of (found_of found.now)) }
    ensures { result ≡ verify_options_of (matched (rows_of (found_of found.now))) }
{
    VerifyOptions {
        quiet: is_set(found, "quiet"),
        strict: strictness(found, ignored),
        spans: is_set(found, "spans"),
        names: is_set(found, "names"),
        explain: is_set(found, "explain"),
    }
}

// The arguments that follow `stub`, in their order; in `found`, as matched, they have the name `words`.
fn stub_arguments<'a>(alloc: Global, found: &ArgMatches<'a>) -> Result<Vec<&'a str>, AllocError>
    ensures { IfOk result (λ v. map (λ w. w.now) v.items
        ≡ unwrap_or (all_of (codes "words") (rows_of (found_of found.now))) []) }
{
    match found.get_strs("words") {
        Some(arguments) => arguments.to_vec(alloc),
        None => Ok(Vec::new(alloc)),
    }
}

// The number that the option `name` was given, if it was given; `found` are the options as matched.
fn number_in(found: &ArgMatches<'_>, name: &str) -> Option<u16>
    requires { (most : ℕ) × (most ≤ 65535) × HasNumber name.now most (rows_of (found_of found.now)) }
    ensures { result ≡ option_map number_of (first_of name.now (rows_of (found_of found.now))) }
{
    match found.get_str(name) {
        None => None,
        Some(text) => match text.parse::<u16>() {
            Ok(number) => Some(number),
            // The grammar takes only numbers, and none above 1,000.
            Err(_) => unreachable!(),
        },
    }
}

// The value of `--games`, 1 if it was not given; `found` are the options as matched.
fn games_of(found: &ArgMatches<'_>) -> u16
    requires { HasNumber (codes "games") 1000 (rows_of (found_of found.now)) }
    ensures value { result ≡ games_in (matched (rows_of (found_of found.now))) }
    ensures range { (1 ≤ result) × (result ≤ 1000) }
{
    number_in(found, "games").unwrap_or(1)
}

// The variant that `--variant` asks for, normal chess if it was not given; `found` are the options as matched.
fn variant_of(found: &ArgMatches<'_>) -> Variant
    ensures { result ≡ variant_in (matched (rows_of (found_of found.now))) }
{
    if has_value(found, "variant", "fischerandom") {
        Variant::Fischerandom
    } else {
        Variant::Normal
    }
}

// Whether draws must be claimed, by `--draws`; they must if it was not given. `found` are the options as matched.
fn draws_of(found: &ArgMatches<'_>) -> Draws
    ensures { result ≡ draws_in (matched (rows_of (found_of found.now))) }
{
    if has_value(found, "draws", "automatic") {
        Draws::Automatic
    } else {
        Draws::Claimed
    }
}

// The options of `match`, each as given or by default; `None` if `--white` or `--black` was not given. `found` are the
// options as matched.
fn match_request<'a>(found: &ArgMatches<'a>) -> Option<MatchRequest<'a>>
    requires { HasNumbers (rows_of (found_of found.now)) }
    ensures given { IfSome result (IsMatchOf (matched (rows_of (found_of found.now)))) }
    ensures needed { (is_some (first_of (codes "white") (rows_of (found_of found.now))) ≡ true)
        → (is_some (first_of (codes "black") (rows_of (found_of found.now))) ≡ true) → IsSome result }
{
    let white = found.get_str("white")?;
    let black = found.get_str("black")?;
    Some(MatchRequest {
        white,
        black,
        level: text_or(found, "level", "40 5 0"),
        white_level: found.get_str("white-level"),
        black_level: found.get_str("black-level"),
        fen: found.get_str("fen"),
        games: games_of(found),
        date: text_or(found, "date", "????.??.??"),
        variant: variant_of(found),
        log: is_set(found, "log"),
        flag: is_set(found, "flag"),
        reply: number_in(found, "reply-timeout"),
        draws: draws_of(found),
    })
}

// What the subcommand `name` with these options (`found`, as matched) asks for.
pub(crate) fn request_in<'a>(
    alloc: Global,
    name: &str,
    found: &ArgMatches<'a>,
) -> Result<Request<'a>, AllocError>
    requires known { IsCommand name.now }
    requires both { NamesBoth (name.now, rows_of (found_of found.now)) }
    requires numbers { HasNumbers (rows_of (found_of found.now)) }
    ensures { IfOk result (IsRequestOf (said_of (name.now, rows_of (found_of found.now)))) }
{
    if name == "verify" {
        let ignored = value_in(found, "ignore");
        return Ok(Request::Verify {
            keep_going: is_set(found, "keep-going"),
            options: verify_options(found, ignored),
            ignored,
        });
    }
    if name == "stub" {
        let arguments = stub_arguments(alloc, found)?;
        return Ok(Request::Stub(arguments));
    }
    if name == "match" {
        return match match_request(found) {
            Some(arguments) => Ok(Request::Match(arguments)),
            // The grammar takes `match` only with `--white` and `--black`.
            None => unreachable!(),
        };
    }
    Ok(Request::Session)
}
