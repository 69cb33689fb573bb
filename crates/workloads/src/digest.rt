//! A digest of results.

/// A digest of numbers and bytes in their order: each number, or up to eight bytes as one, is mixed in by an exclusive
/// or and a multiplication, as in FNV-1a, whose constants these are; then the high bits are mixed into the low ones.
#[derive(Clone, Copy)]
pub struct Digest {
    value: u64,
}

impl Digest {
    /// The digest of nothing.
    pub fn new() -> Self {
        Digest {
            value: 0xCBF2_9CE4_8422_2325,
        }
    }

    /// Adds a number.
    pub fn add(&mut self, number: u64) {
        self.value = (self.value ^ number).wrapping_mul(0x0000_0100_0000_01B3);
        self.value ^= self.value >> 29;
    }

    /// Adds the bytes of a text.
    pub fn add_bytes(&mut self, text: &[u8]) {
        for piece in text.chunks(8) {
            let mut word: u64 = 0;
            for byte in piece {
                word = word.rotate_left(8) ^ u64::from(*byte);
            }
            self.add(word);
        }
        self.add(text.len() as u64);
    }

    /// The digest of all that was added.
    pub fn value(&self) -> u64 {
        self.value
    }
}
