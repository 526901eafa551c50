//! Examples of the laboratory, computed by the checker: what whole runs report, and histories
//! that are no runs.
#![tactic(auto)]
