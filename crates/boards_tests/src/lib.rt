//! What each board of the repository counts, makes and takes back.
#![tactic(auto)]

#[cfg(test)]
mod tests;
