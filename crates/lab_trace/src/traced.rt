ghost use Rattle.std.specs.Prelude.{◌≡◌, [], true, IfErr, IfOk, OnOk};
ghost use Rattle.lab_model.specs.Effect.{IsComplete};
ghost use Rattle.lab_model.specs.Guard.{is_done};
ghost use Rattle.lab_model.specs.Report.{text_line};
ghost use Rattle.lab_model.specs.State.{State};
ghost use Rattle.lab_core.specs.Audit.{IsFaultOf};
ghost use Rattle.lab_core.specs.Runs.{IsPaced};
ghost use Rattle.lab_watch.specs.Known.{all_kept, nothing_known};
ghost use Rattle.lab_trace.specs.Traced.{IsTraceOfSeed};
ghost use Rattle.lab_trace.specs.Traces.{IsTraceOf, TracesOn, head_text};

use crate::tracer::Tracer;
use lab_core::{AuditFault, Lab};
use lab_model::Event;
use lab_rulebook::Accepted;
use lab_sector::NoMemory;
use lab_target::Target;
use std::alloc::Global;

/// The trace of the run by the words of a generator with this seed, promptly or not, written while it goes.
pub fn trace_seed<T: Target>(
    alloc: Global,
    accepted: Accepted<T>,
    seed: u64,
    prompt: bool,
) -> Result<Vec<u8>, NoMemory>
    ensures { IfOk result (λ text. IsTraceOfSeed T.meaning accepted prompt seed text.items) }
{
    let Ok(mut lab) = Lab::new(alloc, accepted) else {
        return Err(NoMemory);
    };
    let text = trace_run(alloc, &mut lab, seed, prompt);
    lab.discard();
    text
}

/// Runs a laboratory before its first event by the words of a generator with this seed, promptly or not, until all is
/// done: the trace of the run.
fn trace_run<T: Target>(
    alloc: Global,
    lab: &mut Lab<T>,
    seed: u64,
    prompt: bool,
) -> Result<Vec<u8>, NoMemory>
    requires { lab.old.history ≡ [] }
    ensures paced { IsPaced T.meaning prompt seed lab.old lab.new }
    ensures done { OnOk result (is_done lab.new.scenario lab.new.state ≡ true) }
    ensures told { IfOk result (λ text. TracesOn T.meaning lab.old.scenario lab.old.state
        (nothing_known all_kept) 1 lab.new.history (text_line head_text) text.items) }
{
    let mut tracer = Tracer::new(alloc)?;
    lab.simulate_watched(alloc, seed, prompt, &mut tracer)?;
    Ok(tracer.into_text())
}

/// The trace of these events, written while they are fired, if they are a complete run of the scenario.
pub fn trace_events<T: Target>(
    alloc: Global,
    accepted: Accepted<T>,
    events: &[Event],
) -> Result<Vec<u8>, AuditFault>
    ensures told { IfOk result (λ text.
        IsTraceOf T.meaning accepted.scenario events.now text.items) }
    ensures complete { OnOk result ((end : State T)
        × IsComplete T.meaning accepted.scenario events.now end) }
    ensures fault { IfErr result (λ fault.
        IsFaultOf T.meaning accepted.scenario events.now fault) }
{
    let mut tracer = Tracer::new(alloc)?;
    let lab = Lab::audit_watched(alloc, accepted, events, &mut tracer)?;
    lab.discard();
    Ok(tracer.into_text())
}
