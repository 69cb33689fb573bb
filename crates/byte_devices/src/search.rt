//! Where the first of one or three bytes is in a text, such as the end of a line, the quote that closes a tag's
//! string, or the brace that closes a comment. 16 bytes are compared at a time: byte by byte, reading tags took 1.10
//! times as long, and matches, whose lines are found so, 1.09 times.
//!
//! All functions here are inlined, since their callers search for constant bytes. What inlining alone gains was not
//! measured.

ghost use Rattle.std.specs.Prelude.{◌≡◌, ◌+◌, ◌≤◌, ◌==◌, ◌||◌, length, map, take, drop};
ghost use Rattle.std.specs.List.{position_or_len};
ghost use Rattle.std.specs.Simd.Lanes.{mask_l};

use std::simd::prelude::*;

// How many bytes are compared at a time. Few, since a text that is shorter is looked at byte by byte, and many are
// short: a session's command or an engine's line that comes alone, a tag's string, a comment with a clock time. In a
// line of 5,000 bytes blocks of 64 would take a quarter less time, but in a text of 20 to 60 bytes more than twice as
// much.
const BLOCK_LEN: usize = 16;

// Which of the 16 bytes from `offset` on are one of `a`, `b` and `c`: a bit for each, the lowest for the first.
#[inline(always)]
fn mask_of_block(bytes: &[u8], offset: usize, a: u8, b: u8, c: u8) -> u64
    requires { offset + 16 ≤ length bytes.now }
    ensures { result ≡ mask_l (map (λ x. x == a || (x == b || x == c)) (take 16 (drop offset bytes.now))) }
{
    let block = u8x16::from_slice(&bytes[offset..]);
    let found = block.simd_eq(u8x16::splat(a))
        | block.simd_eq(u8x16::splat(b))
        | block.simd_eq(u8x16::splat(c));
    found.to_bitmask()
}

// Whether a byte is one of `a`, `b` and `c`.
#[inline(always)]
fn is_any(byte: u8, a: u8, b: u8, c: u8) -> bool
    ensures { result ≡ (byte == a || (byte == b || byte == c)) }
{
    byte == a || byte == b || byte == c
}

// The offset of the first of the bytes `a`, `b` and `c` from the offset `from` on, byte by byte; the text's length, if
// none comes there.
#[inline(always)]
fn offset_by_bytes(bytes: &[u8], from: usize, a: u8, b: u8, c: u8) -> usize
    requires { from ≤ length bytes.now }
    ensures { result ≡ from + position_or_len (λ x. x == a || (x == b || x == c)) (drop from bytes.now) }
{
    let mut offset = from;
    while offset < bytes.len() && !is_any(bytes[offset], a, b, c) {
        offset += 1;
    }
    offset
}

/// How many bytes come before the first that is one of `a`, `b` and `c`; all, if none is.
#[inline(always)]
pub fn len_before_any(bytes: &[u8], a: u8, b: u8, c: u8) -> usize
    ensures count { result ≡ position_or_len (λ x. x == a || (x == b || x == c)) bytes.now }
    ensures within { result ≤ length bytes.now }
{
    let mut offset = 0;
    while bytes.len() - offset >= BLOCK_LEN {
        let mask = mask_of_block(bytes, offset, a, b, c);
        if mask != 0 {
            return offset + mask.trailing_zeros() as usize;
        }
        // The offset grows by a constant, so that the next block is loaded without waiting for this one's mask.
        offset += BLOCK_LEN;
    }
    offset_by_bytes(bytes, offset, a, b, c)
}

/// How many bytes come before the first that is `wanted`; all, if none is.
#[inline(always)]
pub fn len_before(bytes: &[u8], wanted: u8) -> usize
    ensures count { result ≡ position_or_len (λ x. x == wanted) bytes.now }
    ensures within { result ≤ length bytes.now }
{
    // The compiler merges the three equal comparisons into one.
    len_before_any(bytes, wanted, wanted, wanted)
}
