//! The clock of a match between processes.

use chess_match::Moments;
use std::rt::Clock;
use std::time::Instant;

/// The milliseconds since this value was made, according to a runtime's monotonic clock; 0 if that can't be read. No
/// contract says what they are.
#[derive(Drop)]
pub struct SinceStart<'a, R> {
    rt: &'a R,
    start: Option<Instant>,
}

impl<'a, R: Clock> SinceStart<'a, R> {
    /// A clock that shows the milliseconds from now on.
    pub fn new(rt: &'a R) -> Self {
        SinceStart {
            rt,
            start: Instant::now(rt).ok(),
        }
    }

    /// A copy of this clock: it shows the milliseconds since the same beginning.
    pub(crate) fn again(&self) -> Self {
        SinceStart {
            rt: self.rt,
            start: self.start,
        }
    }
}

impl<R: Clock> Moments for SinceStart<'_, R> {
    ghost use Rattle.std.specs.Prelude.{None};

    // What the clock will show isn't known.
    ghost coming = { λ m n. None };

    // The milliseconds since this clock was made; 0 if the system's clock can't be read.
    fn now(&mut self) -> u64 {
        let Some(start) = self.start else {
            return 0;
        };
        match Instant::now(self.rt) {
            Ok(now) => u64::try_from(now.duration_since(start).as_millis()).unwrap_or(u64::MAX),
            Err(_) => 0,
        }
    }
}
