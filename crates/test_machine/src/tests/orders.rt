ghost use Rattle.std.specs.Prelude.{◌≡◌};

use lab_effect::replay;
use lab_logs::Files;
use lab_sector::NoMemory;
use lab_simple::Linear;
use lab_state::{LogState, Logs, State, Traffic};
use std::alloc::Global;
use std::test::Fail;

/// The state of a run that has no disk and no device, and these logs.
fn state(alloc: Global, logs: Logs) -> State<Linear>
    ensures { result.clock ≡ 0 }
{
    State {
        traffic: Traffic::new(alloc),
        disks: Vec::new(alloc),
        logs,
        started: false,
        done: 0,
        moment: 0,
        replies: Vec::new(alloc),
    }
}

/// A log before its first line.
fn one_log(alloc: Global) -> LogState {
    LogState {
        taken: 0,
        moment: 0,
        files: Files::new(alloc),
        answers: Vec::new(alloc),
    }
}

/// The moment of the only log of a state that has started.
fn moment_of(state: &State<Linear>) -> Option<u64> {
    match state.logs.as_slice() {
        [log] if state.started => Some(log.moment),
        _ => None,
    }
}

/// The moment of the only log of a state whose replay begins at 5 microseconds.
fn replayed_at_5(state: &mut State<Linear>) -> Option<u64>
    requires { state.old.clock ≡ 0 }
{
    state.traffic.clock_to(5);
    replay(state);
    moment_of(state)
}

/// The moment of a log whose replay begins at 5 microseconds.
fn moment_at_5(alloc: Global) -> Result<Option<u64>, NoMemory> {
    let mut logs = Logs::new(alloc);
    logs.push(one_log(alloc))?;
    Ok(moment_of_logs(alloc, logs))
}

/// The moment of the only one of some logs whose replay begins at 5 microseconds. The state is let
/// go by a call, since an owner whose scope ends with one is dear to prove.
fn moment_of_logs(alloc: Global, logs: Logs) -> Option<u64> {
    let mut state = state(alloc, logs);
    let moment = replayed_at_5(&mut state);
    drop(state);
    moment
}

#[test]
fn a_log_starts_at_the_moment_of_the_replay(rt: HostRuntime) -> Result<(), Fail> {
    assert!(rt; moment_at_5(rt.alloc())? == Some(5));
    Ok(())
}
