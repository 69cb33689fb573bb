//! What chess_pgn's calls write and read, on the rows of the specification and on cases from outside.
#![tactic(auto)]

#[cfg(test)]
#[cfg(test)]
mod equal;
#[cfg(test)]
mod past_draws;
#[cfg(test)]
mod reading;
#[cfg(test)]
mod unknown_variants;
#[cfg(test)]
mod variations;
#[cfg(test)]
mod writing;
