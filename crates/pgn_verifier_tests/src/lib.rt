//! What verifying a text or a collection writes, however it is read.
#![tactic(auto)]

#[cfg(test)]
mod laws;
#[cfg(test)]
mod tests;
