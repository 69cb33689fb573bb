//! The command of a line, by its first word.

ghost use Rattle.std.specs.Prelude.{◌≡◌, ◌+◌, ◌<◌, ◌≤◌, ◌++◌, length};
ghost use Rattle.byte_devices.specs.Bytes.{is_blank};
ghost use Rattle.chess_cecp.specs.Commands.{command_of, named_command, is_ignored};
ghost use Rattle.text_lines.specs.Words.{word_of, argument_of, command_number};
ghost use Rattle.chess_cecp.specs.ties.Ignored.{is_engine_command, is_opponent_or_clock_command};
ghost use Rattle.std.specs.Option.{option_map_or};

use chess_text::has_move_shape;
use text_lines::{read_number, split_word};

/// The kinds of command (CECP, version 2; `claim`, `showfen`, `showmoves`, `showpgn` and `showstate` are this project's
/// own). The text after a command's name is not part of it, but of its line.
#[derive(Clone, Copy, Debug, PartialEq, Eq)]
pub enum Command {
    /// `new`
    New,
    /// `usermove M` (`usermove` without a move is `Unknown`)
    UserMove,
    /// A line that has the form of a move, such as `Nf3`, without `usermove`.
    BareMove,
    /// `undo`
    Undo,
    /// `remove`
    Remove,
    /// `result R {C}`, or anything else after `result`.
    Declare,
    /// `claim`
    Claim,
    /// `ping N`, with a number of one to nine digits.
    Ping(u32),
    /// `protover N`, with a number of one to nine digits: the version of the protocol that the interface speaks.
    Protover(u32),
    /// `setboard FEN`
    SetBoard,
    /// `variant NAME`
    Variant,
    /// `go`
    Go,
    /// `showfen`
    ShowFen,
    /// `showmoves`
    ShowMoves,
    /// `showstate`
    ShowState,
    /// `showpgn`
    ShowPgn,
    /// `quit`
    Quit,
    /// A command that is accepted and ignored, such as `xboard` or `force`, and an empty line.
    Silent,
    /// `ping` or `protover` without a number of one to nine digits.
    BadNumber,
    /// Anything else.
    Unknown,
}

// The command of a line `ping N` with this argument: `BadNumber` if it isn't a number of 1 to 9 digits.
fn ping(argument: &[u8]) -> Command
    ensures { result ≡ option_map_or Command.Ping (command_number argument.now) Command.BadNumber }
{
    match read_number(argument) {
        Some(number) => Command::Ping(number),
        None => Command::BadNumber,
    }
}

// The command of a line `protover N` with this argument: `BadNumber` if it isn't a number of 1 to 9 digits.
fn protover(argument: &[u8]) -> Command
    ensures { result ≡ option_map_or Command.Protover (command_number argument.now) Command.BadNumber }
{
    match read_number(argument) {
        Some(number) => Command::Protover(number),
        None => Command::BadNumber,
    }
}

// Whether a word is an ignored command of the handshake, or of how an engine is to play (`?` means: move at once).
#[tactic(auto, unfolding(crate::specs::ties::Ignored::is_engine_command))]
fn is_engine_command(word: &[u8]) -> bool
    ensures { result ≡ is_engine_command word.now }
{
    word == b"xboard".as_slice()
        || word == b"accepted".as_slice()
        || word == b"rejected".as_slice()
        || word == b"force".as_slice()
        || word == b"random".as_slice()
        || word == b"hard".as_slice()
        || word == b"easy".as_slice()
        || word == b"post".as_slice()
        || word == b"nopost".as_slice()
        || word == b"?".as_slice()
}

// Whether a word is an ignored command of an engine's opponent (who may offer a draw), of the clocks or of the depth of
// search.
#[tactic(auto, unfolding(crate::specs::ties::Ignored::is_opponent_or_clock_command))]
fn is_opponent_or_clock_command(word: &[u8]) -> bool
    ensures { result ≡ is_opponent_or_clock_command word.now }
{
    word == b"computer".as_slice()
        || word == b"name".as_slice()
        || word == b"rating".as_slice()
        || word == b"ics".as_slice()
        || word == b"draw".as_slice()
        || word == b"level".as_slice()
        || word == b"st".as_slice()
        || word == b"sd".as_slice()
        || word == b"time".as_slice()
        || word == b"otim".as_slice()
}

// Whether a word is the name of a command that an arbiter accepts and ignores, such as `xboard` or `time`.
#[tactic(auto, using(crate::proofs::Words::ignored_parts))]
fn is_ignored(word: &[u8]) -> bool
    ensures { result ≡ is_ignored word.now }
{
    is_engine_command(word) || is_opponent_or_clock_command(word)
}

// The command that a line's first word names, by its argument: `Silent` for one that is ignored and for an empty line,
// `Unknown` for `usermove` without an argument; `None` if the word is no command's name, as in a bare `e2e4`.
#[tactic(auto, unfolding(crate::specs::Commands::named_command))]
pub(crate) fn named_command(word: &[u8], argument: &[u8]) -> Option<Command>
    ensures { result ≡ named_command word.now argument.now }
{
    if word.is_empty() || is_ignored(word) {
        Some(Command::Silent)
    } else if word == b"new".as_slice() {
        Some(Command::New)
    } else if word == b"setboard".as_slice() {
        Some(Command::SetBoard)
    } else if word == b"usermove".as_slice() {
        if argument.is_empty() {
            Some(Command::Unknown)
        } else {
            Some(Command::UserMove)
        }
    } else if word == b"undo".as_slice() {
        Some(Command::Undo)
    } else if word == b"remove".as_slice() {
        Some(Command::Remove)
    } else if word == b"result".as_slice() {
        Some(Command::Declare)
    } else if word == b"claim".as_slice() {
        Some(Command::Claim)
    } else if word == b"ping".as_slice() {
        Some(ping(argument))
    } else if word == b"protover".as_slice() {
        Some(protover(argument))
    } else if word == b"variant".as_slice() {
        Some(Command::Variant)
    } else if word == b"go".as_slice() {
        Some(Command::Go)
    } else if word == b"showfen".as_slice() {
        Some(Command::ShowFen)
    } else if word == b"showmoves".as_slice() {
        Some(Command::ShowMoves)
    } else if word == b"showstate".as_slice() {
        Some(Command::ShowState)
    } else if word == b"showpgn".as_slice() {
        Some(Command::ShowPgn)
    } else if word == b"quit".as_slice() {
        Some(Command::Quit)
    } else {
        None
    }
}

/// The command of a line with this text, which has no spaces or tabs at its ends: `ping 7`, or a bare move `Nf3`.
#[tactic(auto, unfolding(crate::specs::Commands::command_of))]
pub fn read_command(text: &[u8]) -> Command
    ensures { result ≡ command_of text.now }
{
    let (word, argument) = split_word(text);
    if let Some(command) = named_command(word, argument) {
        return command;
    }
    if has_move_shape(text) {
        Command::BareMove
    } else {
        Command::Unknown
    }
}
