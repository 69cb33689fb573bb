//! What cecp_engine's calls answer, on the examples of its documentation.
#![tactic(auto)]

#[cfg(test)]
mod levels;
