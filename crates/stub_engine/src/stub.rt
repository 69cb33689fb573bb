//! A stub of an engine, which plays its arguments.

ghost use Rattle.std.specs.Prelude.{◌≡◌, ◌≤◌, ◌++◌, ◌∷◌, [], IfOk, codes, decimal, drop, if◌then◌else◌, length, option_map};
ghost use Rattle.std.specs.Str.{bytes_eq};
ghost use Rattle.byte_devices.specs.Devices.{Puts};
ghost use Rattle.byte_devices.specs.Bytes.{new_line};
ghost use Rattle.chess_cecp.specs.Commands.{command_of};
ghost use Rattle.chess_cecp.specs.declared.command.Command.TheVariants.{Unknown};
ghost use Rattle.stub_engine.specs.Stub.{after_remarks, played_text, remark, remarks, stub_row, stub_response, turn, waiting};

use arrayvec::ArrayVec;
use byte_devices::{Output, WriteFault, append, append_number, put, put_parts};
use chess_cecp::{COMMAND_LEN, Command, Go, LineServer, read_command};
use std::marker::Model;
use text_lines::{Line, first_word};

// The reply to `protover`, whatever the version: the features that the stub has on, among them `usermove`.
const FEATURES: &[u8] = b"feature ping=1 setboard=1 usermove=1 myname=\"stub\" done=1\n";

// The line that the stub sends for the argument `offer` (`offer draw`) or `claim` (a claim of a draw), which may follow
// a move; `None` for any other argument.
fn remark(argument: &str) -> Option<&'static [u8]>
    ensures { option_map (λ t. t.now) result ≡ remark argument.now }
{
    if argument == "offer" {
        Some(b"offer draw\n")
    } else if argument == "claim" {
        Some(b"1/2-1/2 {Draw by repetition}\n")
    } else {
        None
    }
}

// What the stub sends before an argument that it plays, in the same line: nothing before `resign`, `move ` before any
// other.
fn prefix_of(argument: &str) -> &'static [u8]
    ensures value { result.now ≡ (if bytes_eq argument.now (codes "resign") then [] else codes "move ") }
    ensures short { length result.now ≤ 5 }
{
    if argument == "resign" { b"" } else { b"move " }
}

// Sends a line made of a prefix and an argument, by one write unless it is long: with a prefix of at most 5 bytes and
// the `\n`, up to 30 bytes of the argument surely fit into the buffer of 40.
fn say_line<W: Output>(writer: &mut W, prefix: &[u8], argument: &str) -> Result<(), WriteFault>
    requires { length prefix.now ≤ 5 }
    ensures { Puts (W.seen writer.old) (W.seen writer.new) result (prefix.now ++ (argument.now ++ new_line ∷ [])) }
{
    if argument.len() > 30 {
        return put_parts(writer, &[prefix, argument.as_bytes(), b"\n".as_slice()]);
    }
    let mut line: ArrayVec<u8, 40> = ArrayVec::new();
    append(&mut line, prefix);
    append(&mut line, argument.as_bytes());
    line.push(b'\n');
    put(writer, line.as_slice())
}

// Sends the line of an argument that the stub plays: `resign` as it is, any other after `move`.
fn say_argument<W: Output>(writer: &mut W, argument: &str) -> Result<(), WriteFault>
    ensures { Puts (W.seen writer.old) (W.seen writer.new) result (played_text argument.now) }
{
    say_line(writer, prefix_of(argument), argument)
}

// Sends `pong` with this number, the answer to a `ping`.
fn say_pong<W: Output>(writer: &mut W, number: u32) -> Result<(), WriteFault>
    ensures { Puts (W.seen writer.old) (W.seen writer.new) result (codes "pong " ++ (decimal number ++ new_line ∷ [])) }
{
    let mut line: ArrayVec<u8, 40> = ArrayVec::new();
    append(&mut line, b"pong ");
    append_number(&mut line, u64::from(number));
    line.push(b'\n');
    put(writer, line.as_slice())
}

// Sends the lines (`remark`) of the arguments `offer` and `claim` from the index `from` on, up to the first other
// argument.
fn say_remarks<W: Output>(arguments: &[&str], from: usize, writer: &mut W) -> Result<(), WriteFault>
    requires { from ≤ length arguments.now }
    ensures { Puts (W.seen writer.old) (W.seen writer.new) result (remarks (drop from arguments.now)) }
{
    let mut at = from;
    while at < arguments.len() {
        let Some(text) = remark(arguments[at]) else {
            return Ok(());
        };
        put(writer, text)?;
        at += 1;
    }
    Ok(())
}

// The index of the first argument, from `from` on, that is neither `offer` nor `claim`; the number of arguments, if
// there is none.
fn after_remarks(arguments: &[&str], from: usize) -> usize
    requires { from ≤ length arguments.now }
    ensures in_range { result ≤ length arguments.now }
    ensures rest { drop result arguments.now ≡ after_remarks (drop from arguments.now) }
{
    let mut at = from;
    while at < arguments.len() {
        if remark(arguments[at]).is_none() {
            return at;
        }
        at += 1;
    }
    at
}

// Sends the line of an argument that the stub plays, and then the lines (`remark`) of the arguments `offer` and `claim`
// from the index `from` of `arguments` on, up to the first other argument.
fn say_played<W: Output>(
    argument: &str,
    arguments: &[&str],
    from: usize,
    writer: &mut W,
) -> Result<(), WriteFault>
    requires { from ≤ length arguments.now }
    ensures { Puts (W.seen writer.old) (W.seen writer.new) result
        (played_text argument.now ++ remarks (drop from arguments.now)) }
{
    say_argument(writer, argument)?;
    say_remarks(arguments, from, writer)
}

// Sends what the stub plays in its turn: the line of the argument at the index `at`, and those of each `offer` and
// `claim` right after it; `resign` if no argument is left. At `end` it sends only `mov`, an unended line. Returns
// whether the stub continues: not after `end`.
fn say_turn<W: Output>(arguments: &[&str], at: usize, writer: &mut W) -> Result<Go, WriteFault>
    requires { at ≤ length arguments.now }
    ensures written { Puts (W.seen writer.old) (W.seen writer.new) result (turn (drop at arguments.now)).text }
    ensures go { IfOk result (λ go. go ≡ (if (turn (drop at arguments.now)).ends then Go.Quit else Go.On)) }
{
    if at == arguments.len() {
        put(writer, b"resign\n")?;
        return Ok(Go::On);
    }
    let argument = arguments[at];
    if argument == "end" {
        put(writer, b"mov")?;
        return Ok(Go::Quit);
    }
    say_played(argument, arguments, at + 1, writer)?;
    Ok(Go::On)
}

// The index of the first argument that is not yet used after a turn that began with the one at the index `at`; the
// number of arguments, if all are used.
fn after_turn(arguments: &[&str], at: usize) -> usize
    requires { at ≤ length arguments.now }
    ensures in_range { result ≤ length arguments.now }
    ensures rest { drop result arguments.now ≡ (turn (drop at arguments.now)).state.arguments }
{
    if at == arguments.len() {
        return at;
    }
    if arguments[at] == "end" {
        return at + 1;
    }
    after_remarks(arguments, at + 1)
}

/// A stub: its arguments, the index of the next one, and whether it plays a side.
#[derive(Drop)]
pub struct Stub<'a> {
    arguments: &'a [&'a str],
    at: usize,
    // Whether it replies to its opponent's moves: after `go`, until `force` or `new`.
    plays: bool,
}

impl<'a> Model for Stub<'a> {
    ghost use Rattle.std.specs.Prelude.{◌≤◌, drop, length};
    ghost use Rattle.stub_engine.specs.Stub.{StubState};

    ghost Value = { StubState };

    ghost view = { λ s. record {
      arguments = drop s.at s.arguments.now;
      plays = s.plays;
    } };

    ghost invariant = { λ s. s.at ≤ length s.arguments.now };
}

impl<'a> Stub<'a> {
    /// A stub that plays these arguments; it plays no side yet.
    pub fn new(arguments: &'a [&'a str]) -> Self
        ensures { result ≡ waiting arguments.now }
    {
        Stub {
            arguments,
            at: 0,
            plays: false,
        }
    }

    // Takes the stub's turn: plays the next argument (and `offer` and `claim` after it), after which the stub plays a
    // side, and returns whether the stub continues.
    #[tactic(auto, using(crate::proofs::Remarks::turn_state))]
    fn play<W: Output>(&mut self, writer: &mut W) -> Result<Go, WriteFault>
        ensures next { self.new ≡ (turn self.old.arguments).state }
        ensures written { Puts (W.seen writer.old) (W.seen writer.new) result (turn self.old.arguments).text }
        ensures go { IfOk result (λ go. go ≡ (if (turn self.old.arguments).ends then Go.Quit else Go.On)) }
    {
        let at = self.at;
        self.at = after_turn(self.arguments, at);
        self.plays = true;
        say_turn(self.arguments, at, writer)
    }

    // Obeys a line by its first word: after `usermove` it is the stub's turn if it plays a side, and after `force` it
    // plays none; any other line is ignored. Returns whether the stub continues.
    #[tactic(auto, unfolding(crate::specs::Stub::stub_row))]
    fn obey_word<W: Output>(&mut self, text: &[u8], writer: &mut W) -> Result<Go, WriteFault>
        ensures next { self.new ≡ (stub_row self.old text.now Unknown).state }
        ensures written { Puts (W.seen writer.old) (W.seen writer.new) result
            (stub_row self.old text.now Unknown).text }
        ensures go { IfOk result (λ go. go ≡ (if (stub_row self.old text.now Unknown).ends then Go.Quit else Go.On)) }
    {
        let word = first_word(text);
        if word == b"usermove".as_slice() && self.plays {
            return self.play(writer);
        }
        if word == b"force".as_slice() {
            self.plays = false;
        }
        Ok(Go::On)
    }

    // Obeys the command of a line (`text`), writes the reply that it has, and returns whether the stub continues: not
    // after `quit`, nor after a turn that plays `end`.
    #[tactic(auto, unfolding(crate::specs::Stub::stub_row))]
    fn obey<W: Output>(&mut self, text: &[u8], writer: &mut W) -> Result<Go, WriteFault>
        ensures next { self.new ≡ (stub_row self.old text.now (command_of text.now)).state }
        ensures written { Puts (W.seen writer.old) (W.seen writer.new) result
            (stub_row self.old text.now (command_of text.now)).text }
        ensures go { IfOk result
            (λ go. go ≡ (if (stub_row self.old text.now (command_of text.now)).ends then Go.Quit else Go.On)) }
    {
        match read_command(text) {
            Command::Protover(_) => {
                put(writer, FEATURES)?;
                Ok(Go::On)
            }
            Command::Ping(number) => {
                say_pong(writer, number)?;
                Ok(Go::On)
            }
            Command::New => {
                self.plays = false;
                Ok(Go::On)
            }
            Command::Go => self.play(writer),
            Command::Quit => Ok(Go::Quit),
            Command::UserMove
            | Command::Unknown
            | Command::Silent
            | Command::BareMove
            | Command::Undo
            | Command::Remove
            | Command::Declare
            | Command::Claim
            | Command::SetBoard
            | Command::Variant
            | Command::ShowFen
            | Command::ShowMoves
            | Command::ShowState
            | Command::ShowPgn
            | Command::BadNumber => self.obey_word(text, writer),
        }
    }
}

impl<'a> LineServer for Stub<'a> {
    ghost respond = { stub_response };

    // Obeys the command of a line, unless the line is too long and so ignored, flushes the writer, and returns whether
    // the stub continues.
    #[tactic(auto, unfolding(crate::specs::Stub::stub_response))]
    fn answer_line<W: Output>(
        &mut self,
        line: &Line<COMMAND_LEN>,
        writer: &mut W,
    ) -> Result<Go, WriteFault> {
        let go = if line.is_too_long() {
            Go::On
        } else {
            self.obey(line.text(), writer)?
        };
        writer.flush()?;
        Ok(go)
    }
}
