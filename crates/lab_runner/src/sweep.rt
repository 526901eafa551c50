ghost use Rattle.std.specs.Prelude.{IfErr, IfOk};
ghost use Rattle.lab_any.specs.Any.{any_meaning};
ghost use Rattle.lab_runner.specs.Counts.{CountsTurns};
ghost use Rattle.lab_runner.specs.Finished.{IsFinished, IsHandedBack};

use lab_any::AnyTarget;
use lab_core::Lab;
use std::alloc::Global;

/// A run by threads that is done.
#[derive(Drop)]
pub struct Finished {
    /// The laboratory, done.
    pub lab: Lab<AnyTarget>,
    /// How many events each worker fired: one number for each log, then one for the script and one for the timers.
    pub counts: Vec<u64>,
    /// How many events were fired after the workers had ended; 0 unless a stop was asked for.
    pub swept: u64,
}

/// A run by threads for which memory ran out.
#[derive(Drop)]
pub struct RunFault {
    /// The laboratory as it stands; it can be driven on.
    pub lab: Lab<AnyTarget>,
}

/// What is left after the workers have ended, fired in the written order.
pub(crate) fn sweep(
    alloc: Global,
    lab: Lab<AnyTarget>,
    counts: Vec<u64>,
) -> Result<Finished, RunFault>
    requires { CountsTurns any_meaning lab.scenario lab.history counts.items }
    ensures ok { IfOk result (λ f. IsFinished any_meaning lab.scenario f) }
    ensures err { IfErr result (λ fault. IsHandedBack any_meaning lab.scenario fault.lab) }
{
    let mut lab = lab;
    let fired = lab.history().len() as u64;
    let driven = lab.drive(alloc);
    let swept = lab.history().len() as u64 - fired;
    match driven {
        Ok(()) => Ok(Finished { lab, counts, swept }),
        Err(_) => Err(RunFault { lab }),
    }
}
