//! Worked examples of owners, a terminal, an acknowledged link and links between wires, by the public calls
//! alone.
#![tactic(auto)]

#[cfg(test)]
mod tests;
