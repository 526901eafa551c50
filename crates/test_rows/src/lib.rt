//! Tests that cross the crates: faults of the program's streams, runs of the laboratory, and runs by threads.
//!
//! The worked rows of `tests/rows` are run on the built program, by `tests/rows.sh`. What they have to answer was
//! worked out apart from the program.
#![tactic(auto)]

#[cfg(test)]
mod tests;
