//! Worked examples of streams and of their histories, by the public calls alone.
#![tactic(auto)]

#[cfg(test)]
mod tests;
