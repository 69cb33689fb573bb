//! Counts of games, and how verifying ended.

ghost use Rattle.std.specs.Prelude.{◌≡◌, ◌<◌, ◌+◌, ◌^◌};
ghost use Rattle.pgn_verifier.specs.Reports.{verified};

/// How verifying ended.
#[derive(Clone, Copy, Debug, PartialEq, Eq)]
pub enum Verified {
    /// No fault was reported.
    EachGame,
    /// A fault was reported.
    FaultReported,
}

/// Counts of what was reported, as the last line of `verify_collection` has them.
#[derive(Clone, Copy)]
pub struct Tally {
    /// How many games have no fault.
    pub games: usize,
    /// How many half-moves these have.
    pub half_moves: usize,
    /// How many faults there are, of games and of pieces that are too long.
    pub faults: usize,
}

impl Tally {
    // The counts before the first report: all 0.
    pub(crate) fn none() -> Self
        ensures { result ≡ record { games = 0; half_moves = 0; faults = 0 } }
    {
        Tally {
            games: 0,
            half_moves: 0,
            faults: 0,
        }
    }

    // The counts after one more game without a fault, which has `plies` half-moves.
    pub(crate) fn with_game(self, plies: usize) -> Self
        requires games { self.games + 1 < 2 ^ 64 }
        requires half_moves { self.half_moves + plies < 2 ^ 64 }
        ensures { result ≡ record
            { games = self.games + 1; half_moves = self.half_moves + plies; faults = self.faults } }
    {
        Tally {
            games: self.games + 1,
            half_moves: self.half_moves + plies,
            ..self
        }
    }

    // The counts after one more game with a fault.
    pub(crate) fn with_fault(self) -> Self
        requires { self.faults + 1 < 2 ^ 64 }
        ensures { result ≡ record { games = self.games; half_moves = self.half_moves; faults = self.faults + 1 } }
    {
        Tally {
            faults: self.faults + 1,
            ..self
        }
    }

    // The number of the next game: one more than the games so far, with and without faults.
    pub(crate) fn next_number(self) -> usize
        requires { self.games + self.faults + 1 < 2 ^ 64 }
        ensures { result ≡ self.games + self.faults + 1 }
    {
        self.games + self.faults + 1
    }

    // How verifying ended, by the counts of all reports: with or without a fault.
    pub(crate) fn verified(self) -> Verified
        ensures { result ≡ verified self }
    {
        if self.faults == 0 {
            Verified::EachGame
        } else {
            Verified::FaultReported
        }
    }
}
