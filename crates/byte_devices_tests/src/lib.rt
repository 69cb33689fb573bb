//! What readers and writers do, on devices that count their calls and fail at some.
#![tactic(auto)]

#[cfg(test)]
mod tests;
