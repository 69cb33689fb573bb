//! Once a piece has over 16,777,216 bytes (`PIECE_LEN`) and its end isn't read yet, its bytes are let go, which means
//! dropped from memory. `Gone` keeps the first 40 of them, and counts the others.

ghost use Rattle.std.specs.Prelude.{◌≡◌, ◌≤◌, ◌<◌, ◌+◌, ◌^◌, ◌++◌, ◌==◌, [], length, take};
ghost use Rattle.pgn_pieces.specs.Places.{line_ends};
ghost use Rattle.pgn_pieces.specs.ties.Held.{SameCounts};

use crate::line_kinds::line_ends;
use arrayvec::ArrayVec;
use byte_devices::append;
use std::marker::Model;

/// How many of a piece's first bytes are kept, even if the piece is too long. `verify --explain` shows them.
pub const BEGINNING_LEN: usize = 40;

/// What is kept of the bytes of a piece that were let go, which means dropped from memory: the first 40 of them, and
/// how many of the others are `\n` and how many aren't. In contracts the value of a `Gone` is a list of bytes with
/// these counts: the first 40, then a 10 for each `\n` among the others, and then a 0 for each of the rest.
#[derive(Drop)]
pub(crate) struct Gone {
    // The first 40 of these bytes; all, if they are fewer.
    beginning: ArrayVec<u8, BEGINNING_LEN>,
    // How many of the bytes after those are `\n`.
    line_ends: usize,
    // How many of the bytes after those are not `\n`.
    plain: usize,
}

impl Model for Gone {
    ghost use Rattle.std.specs.Prelude.{◌≡◌, ◌≤◌, ◌<◌, ◌+◌, ◌^◌, ◌++◌, ℕ, List, length, replicate};
    ghost use Rattle.arrayvec.specs.ArrayVec.{array_vec_len};

    ghost Value = { List ℕ };

    ghost view = { λ s. s.beginning.items ++ (replicate s.line_ends 10 ++ replicate s.plain 0) };

    ghost invariant = { λ s. (length s.beginning.items ≤ 40)
        × (length s.beginning.items < 40 → s.line_ends + s.plain ≡ 0) };
}

impl Gone {
    // For a new piece, of which no byte was let go.
    pub(crate) fn none() -> Self
        ensures { result ≡ [] }
    {
        Gone {
            beginning: ArrayVec::new(),
            line_ends: 0,
            plain: 0,
        }
    }

    // How many bytes were let go, the first 40 included.
    pub(crate) fn len(&self) -> usize
        requires { length self.now < 2 ^ 64 }
        ensures { result ≡ length self.now }
    {
        self.beginning.len() + self.line_ends + self.plain
    }

    // Whether no bytes were let go. Only `beginning` is looked at, since it is filled first.
    pub(crate) fn is_empty(&self) -> bool
        ensures { result ≡ (length self.now == 0) }
    {
        self.beginning.is_empty()
    }

    // How many of the bytes that were let go are `\n`: those among the first 40, and those counted among the others.
    pub(crate) fn line_ends(&self) -> usize
        requires { length self.now < 2 ^ 64 }
        ensures value { result ≡ line_ends self.now }
        ensures within { result ≤ length self.now }
    {
        line_ends(self.beginning.as_slice()) + self.line_ends
    }

    // The first 40 of the bytes that were let go; all of them, if they are fewer.
    pub(crate) fn beginning(&self) -> &[u8]
        ensures { result.now ≡ take 40 self.now }
    {
        self.beginning.as_slice()
    }

    // Lets go of `bytes` too, which are the piece's bytes right after those let go before. First `beginning` is filled
    // up to 40 bytes. In the rest the `\n` and the other bytes are only counted. The contract (`SameCounts`) says:
    // `self` then has as many bytes, as many line ends and the same first 40 bytes as what was let go before and then
    // `bytes`.
    pub(crate) fn add(&mut self, bytes: &[u8])
        requires { length self.old + length bytes.now < 2 ^ 64 }
        ensures { SameCounts (self.old ++ bytes.now) self.new }
    {
        let kept = bytes.len().min(BEGINNING_LEN - self.beginning.len());
        append(&mut self.beginning, &bytes[..kept]);
        let rest = &bytes[kept..];
        let ends = line_ends(rest);
        self.line_ends += ends;
        self.plain += rest.len() - ends;
    }
}
