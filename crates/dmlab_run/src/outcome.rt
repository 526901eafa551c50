ghost use Rattle.std.specs.Prelude.{map};
ghost use Rattle.std.proofs.Props.{props};
ghost use Rattle.lab_refusal.specs.Faults.{fault_seen};
ghost use Rattle.dmlab_run.specs.Troubles.{IsStopped};

use lab_advice::Trouble;
use lab_verify::Fault;

/// What is written for a bundle.
#[derive(Debug, Drop)]
pub(crate) struct Answer<'a> {
    /// The whole output.
    pub(crate) text: Vec<u8>,
    /// Whether the bundle was refused.
    pub(crate) refused: bool,
    /// Whether something was found that is to be a failure.
    pub(crate) found: bool,
    /// What standard error is told besides.
    pub(crate) besides: String,
    /// What stopped it, where it was refused.
    pub(crate) trouble: Option<Trouble<'a>>,
    /// The faults that are told below the first line, if all are asked for.
    pub(crate) others: Vec<Fault<'a>>,
    // The text of a refusal is the line of what stopped the bundle, and those of the other faults.
    ghost stopped: { IsStopped refused text.items trouble (map fault_seen others.items) } by { Prim.hlevel props },
}
