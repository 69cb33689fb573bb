//! Pseudorandom numbers.

ghost use Rattle.std.specs.Prelude.{◌≤◌};

/// A pseudorandom sequence of numbers (SplitMix64, whose constants these are): the same for the same seed.
#[derive(Drop)]
pub struct Random {
    state: u64,
}

impl Random {
    /// The sequence that begins from this seed.
    pub fn new(seed: u32) -> Self {
        Random {
            state: u64::from(seed),
        }
    }

    /// The next number of the sequence.
    pub fn next(&mut self) -> u64 {
        self.state = self.state.wrapping_add(0x9E37_79B9_7F4A_7C15);
        let first = (self.state ^ (self.state >> 30)).wrapping_mul(0xBF58_476D_1CE4_E5B9);
        let second = (first ^ (first >> 27)).wrapping_mul(0x94D0_49BB_1331_11EB);
        second ^ (second >> 31)
    }

    /// A random number below `limit`; 0 if the limit is 0.
    pub fn below(&mut self, limit: usize) -> usize
        ensures { result ≤ limit }
    {
        (self.next() >> 33) as usize % limit.max(1)
    }

    /// Returns true at random, on average once in `times` calls.
    pub fn once_in(&mut self, times: usize) -> bool {
        self.below(times) == 0
    }

    /// One of these texts, at random; empty if there are none.
    pub fn one_of<'a>(&mut self, texts: &[&'a [u8]]) -> &'a [u8] {
        match texts.get(self.below(texts.len())) {
            Some(text) => text,
            None => b"",
        }
    }
}
