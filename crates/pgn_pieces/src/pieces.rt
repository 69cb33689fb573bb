//! Returns the pieces of an input one after another. The input is read in parts: only the current piece, and the bytes
//! that were read after it, are held.

ghost use Rattle.std.specs.Prelude.{◌≡◌, ℕ, ◌≤◌, ◌<◌, ◌+◌, ◌^◌, ◌++◌, List, [], length, nat_lt, IfOk, false, true, Ok};
ghost use Rattle.std.specs.Option.{option_map};
ghost use Rattle.byte_devices.specs.Devices.{InputState};
ghost use Rattle.pgn_pieces.specs.declared.pieces.PieceFault.TheVariants.{NoMemory, ReadFailed};
ghost use Rattle.pgn_pieces.specs.declared.pieces.TheConstants.{PIECE_LEN};
ghost use Rattle.pgn_pieces.specs.Stream.{State, unread, past_piece, current, IsStateOf, Next};
ghost use Rattle.pgn_pieces.specs.ties.Held.{passed, FindsEnd, LetGo, Adds};

use crate::gone::{BEGINNING_LEN, Gone};
use crate::line_kinds::line_ends;
use crate::piece_end::Seen;
use byte_devices::{Input, ReadFault};
use std::alloc::{AllocError, Global};
use std::marker::Model;

/// The most bytes of a piece that `PgnPieces::text` returns. For a longer piece only its first 40 bytes and the number
/// of its line ends are returned.
pub const PIECE_LEN: usize = 16_777_216;

// How many bytes a read asks for.
const CHUNK_LEN: usize = 65_536;

// Once more bytes than this were read, the input is not read again. It is 2^63 - 1 - `CHUNK_LEN`: so all offsets and
// their sums stay below 2^63.
const MOST_READ: usize = 9_223_372_036_854_710_271;

/// Why there are no more pieces.
#[derive(Clone, Copy, Debug, PartialEq, Eq, thiserror::Error)]
pub enum PieceFault {
    /// A read failed.
    #[error("a read failed")]
    ReadFailed,
    /// Memory ran out for a piece.
    #[error("there is no memory for a piece")]
    NoMemory,
    /// The input has nearly 2^63 bytes or more.
    #[error("the input is too long")]
    InputTooLong,
}

impl From<ReadFault> for PieceFault {
    ghost from_gives = { λ _ fault. fault ≡ ReadFailed };

    // The fault that `?` returns for a read that failed: `ReadFailed`.
    fn from(_fault: ReadFault) -> PieceFault {
        PieceFault::ReadFailed
    }
}

impl From<AllocError> for PieceFault {
    ghost from_gives = { λ _ fault. fault ≡ NoMemory };

    // The fault that `?` returns if memory ran out: `NoMemory`.
    fn from(_error: AllocError) -> PieceFault {
        PieceFault::NoMemory
    }
}

/// The pieces of an input, one after another. Each call of `next` moves to the next piece; `text`, `offset`, `end`,
/// `beginning` and `line_ends` are then of this piece, the current one. What is held of the input is the current piece,
/// unless it is too long (over `PIECE_LEN` bytes, 16,777,216), and what was read after it.
#[derive(Drop)]
pub struct PgnPieces {
    // What is held of the input, in three parts:
    //
    //     bytes before `at`          done with
    //     `len` bytes from `at` on   of the current piece
    //     the rest                   read after the current piece
    held: Vec<u8>,
    // The buffer into which a read puts its bytes, `CHUNK_LEN` at most.
    chunk: Vec<u8>,
    // The index in `held` of the current piece's first byte, or of its first byte that was not let go.
    at: usize,
    // How many bytes of the current piece are in `held`.
    len: usize,
    // The bytes of the current piece that were let go, which come before its bytes in `held`. There are none unless the
    // piece is too long.
    gone: Gone,
    // The offset of the current piece's first byte in the input.
    offset: usize,
    // Whether the input has ended: the last read gave no bytes.
    ended: bool,
}

impl Model for PgnPieces {
    ghost use Rattle.std.specs.Prelude.{◌≡◌, ◌≤◌, ◌<◌, ◌+◌, ◌^◌, ◌++◌, take, drop, length, vec_len, replicate};
    ghost use Rattle.pgn_pieces.specs.declared.pieces.TheConstants.{PIECE_LEN, CHUNK_LEN};
    ghost use Rattle.pgn_pieces.specs.Stream.{State};

    ghost Value = { State };

    ghost view = { λ s. record {
      offset = s.offset;
      part = s.gone ++ take s.len (drop s.at s.held.items);
      coming = drop (s.at + s.len) s.held.items;
      ended = s.ended;
    } };

    ghost invariant = { λ s. (length s.chunk.items ≡ CHUNK_LEN) × (vec_len s.chunk ≡ CHUNK_LEN)
        × (vec_len s.held ≡ length s.held.items)
        × (s.at + s.len ≤ length s.held.items) × (0 < length s.gone → PIECE_LEN < length s.gone)
        × (s.offset + length s.gone + length s.held.items < s.at + 2 ^ 63) };
}

impl PgnPieces {
    /// Makes ready to cut an input of which nothing was read yet. The input itself is given to each call of `next`.
    /// Before the first of these calls there is no piece, and `text` returns no bytes.
    ///
    /// # Errors
    /// If memory runs out.
    pub fn open(alloc: Global) -> Result<Self, AllocError>
        ensures { IfOk result (λ s. s ≡ unread) }
    {
        let chunk = vec![in alloc; 0; CHUNK_LEN]?;
        Ok(PgnPieces {
            held: Vec::new(alloc),
            chunk,
            at: 0,
            len: 0,
            gone: Gone::none(),
            offset: 0,
            ended: false,
        })
    }

    /// The offset of the current piece's first byte in the input: how many bytes come before it. By the clause `small`
    /// the offset and the piece's length can be added without overflow.
    pub fn offset(&self) -> usize
        ensures value { result ≡ self.now.offset }
        ensures small { result + length self.now.part < 2 ^ 63 }
    {
        self.offset
    }

    /// The offset in the input of the byte after the current piece's last, where the next piece begins. A piece that is
    /// too long has it too.
    pub fn end(&self) -> usize
        ensures { result ≡ (current self.now).end }
    {
        self.offset + self.gone.len() + self.len
    }

    /// The current piece's bytes; `None` if the piece is too long, which means over `PIECE_LEN` bytes (16,777,216).
    pub fn text(&self) -> Option<&[u8]>
        ensures { option_map (λ text. text.now) result ≡ (current self.now).bytes }
    {
        if self.len > PIECE_LEN || !self.gone.is_empty() {
            return None;
        }
        Some(&self.held[self.at..self.at + self.len])
    }

    /// The current piece's first 40 bytes, or all if it has fewer. A piece that is too long has them too.
    pub fn beginning(&self) -> &[u8]
        ensures { result.now ≡ (current self.now).beginning }
    {
        if self.gone.is_empty() {
            let len = self.len.min(BEGINNING_LEN);
            return &self.held[self.at..self.at + len];
        }
        self.gone.beginning()
    }

    /// How many lines end in the current piece: the number of its bytes that are `\n`, also if it is too long.
    pub fn line_ends(&self) -> usize
        ensures value { result ≡ (current self.now).line_ends }
        ensures within { result ≤ length self.now.part }
    {
        self.gone.line_ends() + line_ends(&self.held[self.at..self.at + self.len])
    }

    // Makes the next piece the current one. It begins at the end of the piece before, and has no bytes so far: `next`
    // then looks for its end.
    fn pass_piece(&mut self)
        ensures { self.new ≡ past_piece self.old }
    {
        self.offset += self.gone.len() + self.len;
        self.at += self.len;
        self.gone = Gone::none();
        self.len = 0;
    }

    // Looks for the current piece's end in the bytes that were read after it, adds the bytes before the end to the
    // piece, and returns whether the end was found. If it was not, all bytes are added except those of a last line that
    // waits for more bytes (`Step::Waits`). `seen` is what is known of the piece's lines so far.
    fn find_end(&mut self, seen: &mut Seen) -> bool
        ensures { FindsEnd self.old self.new seen.old seen.new result }
    {
        let (is_found, count) = seen.find_end(&self.held[self.at + self.len..]);
        self.len += count;
        is_found
    }

    // Adds all bytes that are left to the current piece, and returns whether it then has any bytes, in `held` or let
    // go. It is called once the input has ended, so the piece is the last; if it has no bytes, there is no such piece.
    fn take_rest(&mut self) -> bool
        ensures state { self.new ≡ passed (length self.old.coming) self.old }
        ensures some { result ≡ nat_lt 0 (length self.new.part) }
    {
        self.len = self.held.len() - self.at;
        self.len > 0 || !self.gone.is_empty()
    }

    // If the current piece is too long (it was before, or now has over `PIECE_LEN` bytes), lets go of its bytes in
    // `held`: the first 40 bytes of the piece are kept in `gone`, the others are only counted there. Otherwise nothing
    // changes. `compact` then removes the bytes from `held`.
    fn let_go(&mut self)
        ensures { LetGo self.old self.new }
    {
        if !self.gone.is_empty() || self.len > PIECE_LEN {
            self.gone.add(&self.held[self.at..self.at + self.len]);
            self.at += self.len;
            self.len = 0;
        }
    }

    // Removes from `held` the bytes before `at`, which are of earlier pieces or were let go, by moving the rest to the
    // front. The current piece and the bytes read after it stay the same.
    fn compact(&mut self)
        ensures { self.new ≡ self.old }
    {
        let at = self.at;
        if at > 0 {
            let rest = self.held.len() - at;
            self.held.copy_within(at.., 0);
            self.held.truncate(rest);
            self.at = 0;
        }
    }

    // Reads up to 65,536 bytes (`CHUNK_LEN`) once, and adds them at the end of `held`. If the read gives no bytes, the
    // input has ended (`ended`). After a fault no bytes were added. Once more than `MOST_READ` bytes were read, nothing
    // is read, and the fault is `InputTooLong`.
    fn read_more<R: Input>(&mut self, input: &mut R) -> Result<(), PieceFault>
        ensures { Adds self.old self.new (R.seen input.old) (R.seen input.new) result }
    {
        if self.offset + self.gone.len() + (self.held.len() - self.at) > MOST_READ {
            return Err(PieceFault::InputTooLong);
        }
        self.held.reserve(CHUNK_LEN)?;
        let count = input.read(&mut self.chunk)?;
        // `held` has room for `CHUNK_LEN` more bytes, so this never runs out of memory.
        if self.held.extend_from_slice(&self.chunk[..count]).is_err() {
            unreachable!();
        }
        self.ended = count == 0;
        Ok(())
    }

    /// Moves to the next piece, which is then the current one, and returns true; or returns false if no piece is left.
    /// It reads until the piece's end is among the bytes held, or the input ends: not at all, if the end is there
    /// already.
    ///
    /// In the clause `next`, `text` is all that was read before the call, and `r` the input's state before that was
    /// read. `Next` says that this piece is the first of the pieces that were still to come.
    ///
    /// # Errors
    /// If a read fails, memory runs out, or nearly 2^63 bytes or more were read. No further piece ends in what was read
    /// so far, so no whole piece is skipped. No clause says what later calls return.
    pub fn next<R: Input>(&mut self, input: &mut R) -> Result<bool, PieceFault>
        ensures next { (r : InputState) (text : List ℕ) → IsStateOf self.old r (R.seen input.old) text
            → Next self.old self.new r (R.seen input.new) text result }
        ensures offset { IfOk result (λ _. self.new.offset ≡ self.old.offset + length self.old.part) }
        ensures some { IfOk result (λ more. more ≡ true → 0 < length self.new.part) }
    {
        self.pass_piece();
        let mut seen = Seen::nothing();
        // Each round looks for the piece's end in the bytes that were read, and if it isn't there, reads once more.
        loop {
            if self.find_end(&mut seen) {
                return Ok(true);
            }
            if self.ended {
                return Ok(self.take_rest());
            }
            self.let_go();
            self.compact();
            self.read_more(input)?;
        }
    }
}
