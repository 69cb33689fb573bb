//! Each law of rules_laws can be called, without a condition.
#![tactic(auto)]

#[cfg(test)]
mod laws;
