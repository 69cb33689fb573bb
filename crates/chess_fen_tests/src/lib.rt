//! What chess_fen's calls answer, on the rows of the specification and on cases from outside.
#![tactic(auto)]

#[cfg(test)]
mod chess960;
#[cfg(test)]
mod examples;
#[cfg(test)]
mod fen;
#[cfg(test)]
mod judging;
#[cfg(test)]
mod laws;
