//! Kinds of bytes, and splitting a text by a kind of byte. Functions that are called for each byte of a text are
//! inlined.

ghost use Rattle.std.specs.Prelude.{◌≡◌, ℕ, Bool, ◌+◌, ◌<◌, ◌≤◌, length, drop, take_while};
ghost use Rattle.std.specs.List.{prefix_len};
ghost use Rattle.byte_devices.specs.Bytes.{is_digit, is_blank, is_name_byte, shown_byte, after_byte_order_mark};

// Which bytes a name may have: `n` if it may have the byte, `-` if not. The table has a character for each byte, in
// eight rows of 32: the second row begins with the space (0x20), the third with `@` (0x40). Testing a tag's name with
// `is_ascii_alphanumeric` and `_` instead takes 1.2 % more instructions for the whole workload `puzzles` and 0.2 % more
// for `collections`.
static NAMES: [u8; 256] = *b"\
    --------------------------------\
    ----------------nnnnnnnnnn------\
    -nnnnnnnnnnnnnnnnnnnnnnnnnn----n\
    -nnnnnnnnnnnnnnnnnnnnnnnnnn-----\
    --------------------------------\
    --------------------------------\
    --------------------------------\
    --------------------------------";

/// Whether a byte is one of `0` to `9`.
#[inline(always)]
pub fn is_digit(byte: u8) -> bool
    ensures { result ≡ is_digit byte }
{
    byte.is_ascii_digit()
}

/// Whether a byte separates words in a line: a space or a tab.
#[inline(always)]
pub fn is_blank(byte: u8) -> bool
    ensures { result ≡ is_blank byte }
{
    byte == b' ' || byte == b'\t'
}

/// Whether a byte may be in a name, as of a PGN tag or of a CECP feature: a letter, a digit or `_`.
#[inline(always)]
pub fn is_name_byte(byte: u8) -> bool
    ensures { result ≡ is_name_byte byte }
{
    NAMES[byte as usize] == b'n'
}

/// A byte as tags, comments, logs and explanations show it: `?` in place of what is no printable ASCII (32 to 126).
#[inline(always)]
pub fn shown_byte(byte: u8) -> u8
    ensures { result ≡ shown_byte byte }
{
    if byte < 32 || byte > 126 { b'?' } else { byte }
}

/// Splits a text before its first byte that fails the test, or at its end if none fails. In the contract `p` is any
/// function on bytes that always agrees with the test.
#[inline(always)]
pub fn split_while<F: Fn(u8) -> bool>(text: &[u8], test: F) -> (&[u8], &[u8])
    requires { F.IsAlwaysCallable test }
    ensures front { (p : ℕ → Bool) → ((byte : ℕ) → byte < 256 → (r : Bool) → F.post test byte r → r ≡ p byte)
        → result.0.now ≡ take_while p text.now }
    ensures rest { (p : ℕ → Bool) → ((byte : ℕ) → byte < 256 → (r : Bool) → F.post test byte r → r ≡ p byte)
        → result.1.now ≡ drop (prefix_len p text.now) text.now }
    ensures lengths { length result.0.now + length result.1.now ≡ length text.now }
{
    let mut end = 0;
    while end < text.len() && test(text[end]) {
        end += 1;
    }
    text.split_at(end)
}

/// The offset where reading begins: 3 if `at` is 0 and the text begins with the bytes EF BB BF (a byte order mark of
/// UTF-8), and otherwise `at`.
pub fn after_byte_order_mark(text: &[u8], at: usize) -> usize
    requires { at ≤ length text.now }
    ensures offset { result ≡ after_byte_order_mark text.now at }
    ensures forward { at ≤ result }
    ensures within { result ≤ length text.now }
{
    if at == 0 && text.starts_with(&[0xEF, 0xBB, 0xBF]) {
        3
    } else {
        at
    }
}
