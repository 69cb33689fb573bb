//! Kinds of bytes. Each byte of a text is tested, so the look-ups in the table are inlined. The table (`CLASSES`) has a
//! character for each byte, in eight rows of 32: the second row begins with the space (0x20), the third with `@`
//! (0x40).

ghost use Rattle.std.specs.Prelude.{◌≡◌, ◌||◌, ◌==◌};
ghost use Rattle.pgn_tokens.specs.Tokens.{is_white_space, is_word_byte};
ghost use Rattle.byte_devices.specs.Bytes.{byte};

// The class of each byte: `w` if a word may have it, `p` if it is white space or a dot, which are passed over between
// tokens, and `-` for any other.
static CLASSES: [u8; 256] = *b"\
    ---------pp--p------------------\
    pw-w-------w-wpwwwwwwwwwwww--w-w\
    -wwwwwwwwwwwwwwwwwwwwwwwwww----w\
    -wwwwwwwwwwwwwwwwwwwwwwwwww-----\
    --------------------------------\
    --------------------------------\
    --------------------------------\
    --------------------------------";

/// Whether a byte is a space, a tab, or one of `\n` and `\r`.
pub fn is_white_space(byte: u8) -> bool
    ensures { result ≡ is_white_space byte }
{
    matches!(byte, b' ' | b'\t' | b'\n' | b'\r')
}

/// Whether a byte may be in a word (a move, a number, marks such as `!?`, or an outcome): it is a letter, a digit, or
/// one of `_+#=-/!?:`. The table `CLASSES` marks these with `w`.
#[inline(always)]
pub fn is_word_byte(byte: u8) -> bool
    ensures { result ≡ is_word_byte byte }
{
    CLASSES[byte as usize] == b'w'
}

// Whether the byte `next` is white space or a dot (as in `12.`): both are skipped between tokens. The table `CLASSES`
// marks these with `p`.
#[inline(always)]
pub(crate) fn is_passed(next: u8) -> bool
    ensures { result ≡ (is_white_space next || next == byte ".") }
{
    CLASSES[next as usize] == b'p'
}
