//! What chess_game's calls answer, on the rows of the specification and on cases from outside.
#![tactic(auto)]

#[cfg(test)]
mod examples;
#[cfg(test)]
mod laws;
#[cfg(test)]
mod tests;
