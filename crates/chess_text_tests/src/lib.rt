//! What chess_text's calls answer, on the rows of the specification and on cases from outside.
#![tactic(auto)]

#[cfg(test)]
mod tests;
