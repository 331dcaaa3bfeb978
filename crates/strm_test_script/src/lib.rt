//! Worked examples of scripts and transcripts that no script can show, by the public calls alone.
#![tactic(auto)]

#[cfg(test)]
mod tests;
