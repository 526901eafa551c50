//! Tests of the machine and of what accepts its scenarios, part by part.
#![tactic(auto)]

#[cfg(test)]
mod tests;
