//! The keys of position hashes, computed once.

ghost use Rattle.std.specs.Prelude.{◌≡◌, ℕ, ◌<◌, slice_index};
ghost use Rattle.chess_moves.specs.PositionHash.{key};

use chess_moves::{ComputedKeys, Keys};

/// All 785 Zobrist keys, of which position hashes are made. They are looked up, since each move of a board needs some
/// of them. Key n is at index n: 0 to 767 are for pieces on squares, 768 for Black on move, 769 to 784 for castling
/// rights.
#[derive(Drop)]
pub struct KeyTable {
    keys: [u64; 785],
    ghost of_numbers: { (n : ℕ) → n < 785 → slice_index keys n ≡ key n },
}

impl KeyTable {
    /// Computes all 785 Zobrist keys.
    pub fn new() -> Self {
        let mut keys = [0; 785];
        for number in 0..785 {
            keys[number as usize] = ComputedKeys.key(number);
        }
        KeyTable { keys }
    }
}

impl Keys for KeyTable {
    // The Zobrist key with this number, from 0 to 784, looked up in the table.
    #[inline(always)]
    fn key(&self, number: u16) -> u64 {
        self.keys[number as usize]
    }
}
