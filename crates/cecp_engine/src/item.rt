//! The items of a `feature` line.

ghost use Rattle.std.specs.Prelude.{◌≡◌, ◌==◌, ◌||◌, drop, take};
ghost use Rattle.byte_devices.specs.Bytes.{byte, is_blank, is_digit, is_name_byte};
ghost use Rattle.cecp_engine.specs.Items.{item_of, is_one, ends_handshake, items_of, is_known, has_word};
ghost use Rattle.cecp_engine.specs.shared.Values.{value_cut};
ghost use Rattle.cecp_engine.specs.ties.Taken.{said_again, fischerandom_again, value_read};
ghost use Rattle.cecp_engine.specs.Seen.{value_seen, item_seen, item_read};
ghost use Rattle.std.specs.List.{list_all, prefix_len, take_while};

use byte_devices::{is_blank, is_digit, is_name_byte, len_before, split_while};
use text_lines::trim_start;

/// The value of an item `NAME=VALUE`.
#[derive(Clone, Copy, Debug, PartialEq, Eq, Hash)]
pub enum Value<'a> {
    /// Digits, without quotes.
    Digits(&'a [u8]),
    /// The text between double quotes.
    Quoted(&'a [u8]),
}

/// An item of a `feature` line: `NAME=VALUE`.
#[derive(Clone, Copy, Debug, PartialEq, Eq, Hash)]
pub struct Item<'a> {
    pub name: &'a [u8],
    pub value: Value<'a>,
}

// Splits a text into the name at its front (letters, digits and `_`; maybe empty) and the rest.
fn split_name(text: &[u8]) -> (&[u8], &[u8])
    ensures name { result.0.now ≡ take_while is_name_byte text.now }
    ensures rest { result.1.now ≡ drop (prefix_len is_name_byte text.now) text.now }
{
    split_while(text, |byte| is_name_byte(byte))
}

// Splits a text into the digits at its front, maybe none, and the rest.
fn split_digits(text: &[u8]) -> (&[u8], &[u8])
    ensures digits { result.0.now ≡ take_while is_digit text.now }
    ensures rest { result.1.now ≡ drop (prefix_len is_digit text.now) text.now }
{
    split_while(text, |byte| is_digit(byte))
}

// Reads the value of an item at a text's front, digits or a text in double quotes, and returns it with the text after
// it; `None` if there is neither.
fn read_value(text: &[u8]) -> Option<(Value<'_>, &[u8])>
    ensures { value_read result ≡ value_cut text.now }
{
    match text {
        [] => None,
        [first, tail @ ..] => {
            if *first == b'"' {
                let at = len_before(tail, b'"');
                if at < tail.len() {
                    Some((Value::Quoted(&tail[..at]), &tail[at + 1..]))
                } else {
                    None
                }
            } else if is_digit(*first) {
                let (digits, rest) = split_digits(text);
                Some((Value::Digits(digits), rest))
            } else {
                None
            }
        }
    }
}

// Whether an item may end where this text, the rest of its line, begins: the text is empty, or begins with a space or
// tab.
fn may_follow_item(text: &[u8]) -> bool
    ensures { result ≡ list_all is_blank (take 1 text.now) }
{
    match text {
        [] => true,
        [first, ..] => is_blank(*first),
    }
}

/// Reads the item at a text's front, such as `ping=1` or `myname="Sjeng"`, and returns it with what follows it, without
/// the spaces and tabs between; `None` if it is malformed.
#[tactic(auto, using(std::proofs::lemmas::Grind::common_steps, crate::proofs::shared::Items::item_parts))]
pub fn next_item(text: &[u8]) -> Option<(Item<'_>, &[u8])>
    ensures { item_read result ≡ item_of text.now }
{
    let (name, rest) = split_name(text);
    if name.is_empty() {
        return None;
    }
    match rest {
        [] => None,
        [first, tail @ ..] => {
            if *first != b'=' {
                return None;
            }
            match read_value(tail) {
                None => None,
                Some((value, rest)) => {
                    if may_follow_item(rest) {
                        Some((Item { name, value }, trim_start(rest)))
                    } else {
                        None
                    }
                }
            }
        }
    }
}

impl<'a> Value<'a> {
    /// Whether the value is the digit 1, without quotes.
    pub fn is_one(&self) -> bool
        ensures { result ≡ is_one (value_seen self.now) }
    {
        match self {
            Value::Digits(text) => *text == b"1".as_slice(),
            Value::Quoted(_) => false,
        }
    }

    /// The value's digits, or the text between its quotes.
    pub fn text(&self) -> &'a [u8]
        ensures { result.now ≡ (value_seen self.now).text }
    {
        match self {
            Value::Digits(text) => text,
            Value::Quoted(text) => text,
        }
    }
}

impl Item<'_> {
    /// Whether the engine has the feature `name` on after this item: if the item has that name, whether its value is 1,
    /// without quotes; otherwise as `before`.
    pub(crate) fn says_or(&self, name: &[u8], before: bool) -> bool
        ensures { result ≡ said_again name.now (item_seen self.now) before }
    {
        if self.name == name {
            self.value.is_one()
        } else {
            before
        }
    }

    /// Whether the engine plays Chess960 after this item: if the item is `variants`, whether its value has the word
    /// `fischerandom`; otherwise as `before`.
    pub(crate) fn names_fischerandom_or(&self, before: bool) -> bool
        ensures { result ≡ fischerandom_again (item_seen self.now) before }
    {
        if self.name == b"variants".as_slice() {
            has_word(self.value.text(), b"fischerandom")
        } else {
            before
        }
    }

    /// Whether this item is `done=1`, which ends the handshake.
    pub fn ends_handshake(&self) -> bool
        ensures { result ≡ ends_handshake (item_seen self.now) }
    {
        self.name == b"done".as_slice() && self.value.is_one()
    }
}

// Whether a byte separates the names in the value of `variants`: a comma, space or tab.
fn is_comma_or_blank(next: u8) -> bool
    ensures { result ≡ (is_blank next || (next == byte ",")) }
{
    is_blank(next) || next == b','
}

// Whether `text`, a list with commas, spaces or tabs between, such as `normal,fischerandom`, has this word.
#[tactic(auto, unfolding(crate::specs::Items::has_word))]
fn has_word(text: &[u8], word: &[u8]) -> bool
    ensures { result ≡ has_word word.now text.now }
{
    let mut from = 0;
    let mut at = 0;
    while at < text.len() {
        if is_comma_or_blank(text[at]) {
            if &text[from..at] == word {
                return true;
            }
            from = at + 1;
        }
        at += 1;
    }
    &text[from..] == word
}

/// Whether the arbiter answers a feature of this name by `accepted`: it uses the feature (the first list), or accepts
/// and ignores it (the second). Any other it answers by `rejected`.
#[tactic(auto, unfolding(crate::specs::Items::is_known))]
pub fn is_known(name: &[u8]) -> bool
    ensures { result ≡ is_known name.now }
{
    has_word(
        b"ping setboard san usermove time draw myname variants done",
        name,
    ) || has_word(b"playother sigint sigterm reuse analyze colors debug", name)
}
