//! Tests of the targets, of tables of them, and of bios that are cut at their edges.
#![tactic(auto)]

#[cfg(test)]
mod tests;
