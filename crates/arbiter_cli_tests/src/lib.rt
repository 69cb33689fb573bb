//! The arguments of the command line as their callers read them.
#![tactic(auto)]

#[cfg(test)]
mod tests;
