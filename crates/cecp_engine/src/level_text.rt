//! Time controls as text, read and written.

ghost use Rattle.std.specs.Prelude.{◌≡◌, ◌+◌, ◌≤◌, ◌++◌, Some};
ghost use Rattle.std.specs.Str.{IsAscii};
ghost use Rattle.arrayvec.specs.ArrayVec.{array_vec_len};
ghost use Rattle.cecp_engine.specs.Levels.{level_reading, level_text, base_text, decimals_text, increment_text};

use crate::level::{Level, read_level};
use crate::level_fault::LevelFault;
use arrayvec::ArrayVec;
use byte_devices::{append, append_number};
use std::str::FromStr;
use std::{fmt, str};

/// The text of a level: at most 80 bytes of ASCII, with room for three numbers of 20 digits (`append_number`).
pub type LevelText = ArrayVec<u8, 80>;

// Appends a part of a second, given in milliseconds, as it is written after whole seconds: nothing for 0, otherwise a
// point and decimals without zeros at their end (`.5` for 500, `.08` for 80).
#[tactic(auto, unfolding(crate::specs::Levels::decimals_text))]
fn append_decimals(text: &mut LevelText, part: u32)
    requires room { array_vec_len text.old + 4 ≤ 80 }
    requires few { part ≤ 999 }
    ensures text { text.new.items ≡ text.old.items ++ decimals_text part }
    ensures len { array_vec_len text.new ≤ array_vec_len text.old + 4 }
{
    let first = b'0' + (part / 100) as u8;
    if part == 0 {
        return;
    }
    if part % 100 == 0 {
        append(text, &[b'.', first]);
    } else if part % 10 == 0 {
        let two = part / 10;
        append(
            text,
            &[b'.', b'0' + (two / 10) as u8, b'0' + (two % 10) as u8],
        );
    } else {
        let two = part % 100;
        append(
            text,
            &[
                b'.',
                first,
                b'0' + (two / 10) as u8,
                b'0' + (two % 10) as u8,
            ],
        );
    }
}

// Appends a base time, given in milliseconds, as it is written: minutes (`5` for 300,000), and after a colon seconds,
// if there are any (`0:08.5` for 8,500).
#[tactic(auto, unfolding(crate::specs::Levels::base_text))]
fn append_base(text: &mut LevelText, base: u32)
    requires room { array_vec_len text.old + 30 ≤ 80 }
    requires few { base ≤ 59999999 }
    ensures text { text.new.items ≡ text.old.items ++ base_text base }
    ensures len { array_vec_len text.new ≤ array_vec_len text.old + 30 }
{
    append_number(text, u64::from(base / 60000));
    let rest = base % 60000;
    if rest != 0 {
        let seconds = rest / 1000;
        append(
            text,
            &[
                b':',
                b'0' + (seconds / 10) as u8,
                b'0' + (seconds % 10) as u8,
            ],
        );
        append_decimals(text, base % 1000);
    }
}

// Appends an increment, given in milliseconds, as it is written, in seconds: `2` for 2,000, `0.1` for 100.
#[tactic(auto, unfolding(crate::specs::Levels::increment_text))]
fn append_increment(text: &mut LevelText, increment: u32)
    requires room { array_vec_len text.old + 24 ≤ 80 }
    ensures text { text.new.items ≡ text.old.items ++ increment_text increment }
    ensures len { array_vec_len text.new ≤ array_vec_len text.old + 24 }
{
    append_number(text, u64::from(increment / 1000));
    append_decimals(text, increment % 1000);
}

impl Level {
    /// The time control as `level` of CECP sets it, such as `40 5 0` or `0 0:10 0.1`.
    #[tactic(auto, unfolding(crate::specs::Levels::level_text))]
    pub fn text(self) -> LevelText
        ensures text { result.items ≡ level_text self }
        ensures ascii { IsAscii result.items }
    {
        let mut text = LevelText::new();
        append_number(&mut text, u64::from(self.moves()));
        append(&mut text, b" ");
        append_base(&mut text, self.base_milliseconds());
        append(&mut text, b" ");
        append_increment(&mut text, self.increment_milliseconds());
        text
    }
}

impl TryFrom<&[u8]> for Level {
    type Error = LevelFault;

    ghost try_from_gives = { λ text r. r ≡ level_reading text.now };

    // The time control that the text denotes, or the text's first fault.
    fn try_from(text: &[u8]) -> Result<Self, LevelFault> {
        read_level(text)
    }
}

impl FromStr for Level {
    type Err = LevelFault;

    ghost from_str_gives = { λ text r. r ≡ level_reading text };

    // The time control that the text denotes, or the text's first fault.
    fn from_str(text: &str) -> Result<Self, LevelFault> {
        read_level(text.as_bytes())
    }
}

impl fmt::Display for Level {
    ghost output = { λ level. Some (level_text level) };

    // Writes the time control as `text` returns it.
    fn fmt<W: fmt::Write>(&self, f: &mut fmt::Formatter<W>) -> fmt::Result {
        let text = self.text();
        match str::from_utf8(text.as_slice()) {
            Ok(text) => f.write_str(text),
            // All its bytes are ASCII.
            Err(_) => unreachable!(),
        }
    }
}
