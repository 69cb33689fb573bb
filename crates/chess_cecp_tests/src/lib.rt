//! What chess_cecp's sessions answer, on the rows of the specification and on cases from outside.
#![tactic(auto)]

#[cfg(test)]
mod hostile;
#[cfg(test)]
mod laws;
#[cfg(test)]
mod rows;
#[cfg(test)]
mod running;
#[cfg(test)]
mod tests;
#[cfg(test)]
mod transcript;
