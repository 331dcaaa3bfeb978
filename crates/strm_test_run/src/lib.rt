//! Worked examples of shared streams and of runs, by the public calls alone.
#![tactic(auto)]

#[cfg(test)]
mod tests;
