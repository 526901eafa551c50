//! Tests of what reads and keeps: texts, logs, histories, scripts, disks, the queue, numbers
//! in groups and with ranks, and items by number.
#![tactic(auto)]

#[cfg(test)]
mod tests;
