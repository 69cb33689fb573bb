//! The pieces that collections are cut into, however they are read.
#![tactic(auto)]

#[cfg(test)]
mod laws;
#[cfg(test)]
mod tests;
