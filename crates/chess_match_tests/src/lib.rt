//! What chess_match's matches send and come to, on the rows of the specification and on cases from outside.
#![tactic(auto)]

#[cfg(test)]
mod decided;
#[cfg(test)]
mod draws;
#[cfg(test)]
mod engines;
#[cfg(test)]
mod features;
#[cfg(test)]
mod laws;
#[cfg(test)]
mod levels;
#[cfg(test)]
mod matches;
#[cfg(test)]
mod pgn;
#[cfg(test)]
mod plays;
#[cfg(test)]
mod silences;
