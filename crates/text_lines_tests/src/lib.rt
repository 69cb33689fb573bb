//! What lines are read from devices that cut their bytes and fail at some call.
#![tactic(auto)]

#[cfg(test)]
mod tests;
