//! Worked examples of messages, queues, modules and chains, by the public calls alone.
#![tactic(auto)]

#[cfg(test)]
mod tests;
