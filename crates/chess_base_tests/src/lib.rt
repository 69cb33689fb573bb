//! What chess_base's calls answer, on the rows of the specification and on cases from outside.
#![tactic(auto)]

#[cfg(test)]
mod chess960;
#[cfg(test)]
mod laws;
#[cfg(test)]
mod playing;
#[cfg(test)]
mod positions;
#[cfg(test)]
mod squares;
