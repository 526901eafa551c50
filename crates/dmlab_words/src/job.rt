use crate::Asked;

/// What the program is asked to do with the bundle that it reads.
#[derive(Clone, Copy, Debug, PartialEq, Eq)]
pub enum Job {
    /// Tell the scenario's budget, or why it is refused.
    Check,
    /// Run the scenario by the words of a generator with this seed, and report; tell the findings
    /// and the events where asked, and let the clock wait for all other events where asked for a
    /// prompt run.
    Sim {
        seed: u64,
        history: bool,
        prompt: bool,
        asked: Asked,
    },
    /// Run the bundle's history, and report, or tell where it is no complete run.
    Audit,
}
