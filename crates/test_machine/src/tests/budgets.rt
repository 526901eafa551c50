use lab_budget::{OpCost, Plan, budget, operation_cost};
use lab_delay::Delay;
use lab_model::{Micro, Order};
use lab_sector::{DevNo, Kind, Span};
use lab_table::{Scenario, Table, read_table};
use lab_target::Names;
use std::alloc::Global;

/// Names under which each word is the first memory disk.
#[derive(Drop)]
struct First;

impl Names for First {
    ghost use Rattle.std.specs.Prelude.{Some};
    ghost use Rattle.lab_sector.specs.declared.device.DevNo.TheVariants.{Ram};

    ghost found = { λ names word. Some (Ram 0) };

    fn find(&self, _word: &[u8]) -> Option<DevNo> {
        Some(DevNo::Ram(0))
    }
}

/// The table of a device that delays by a second, as its only one.
fn tables(alloc: Global) -> Option<Vec<Table<Delay>>> {
    let table = read_table(alloc, b"0 8 delay /dev/ram0 0 1000\n", &First).ok()?;
    vec![in alloc; table].ok()
}

/// Seven steps, each a wait for the logs.
fn steps(alloc: Global) -> Option<Vec<Micro>> {
    let mut micros = Vec::new(alloc);
    for line in 1..8 {
        let order = Order::Wait;
        micros.push(Micro { line, order }).ok()?;
    }
    Some(micros)
}

/// A scenario of that device, of those steps and no log.
fn scenario(alloc: Global) -> Option<Scenario<Delay>> {
    let tables = tables(alloc)?;
    let versions = vec![in alloc; tables].ok()?;
    let micros = steps(alloc)?;
    Some(Scenario {
        sizes: Vec::new(alloc),
        versions,
        lines: Vec::new(alloc),
        micros,
    })
}

/// Whether a write of a plan's device takes four events, and the plan has a budget of seven.
fn counts_hold(alloc: Global, plan: &Plan<'_, Delay>) -> bool {
    let span = Span { first: 0, len: 1 };
    let wanted = OpCost {
        cost: 4,
        visited: 1,
    };
    operation_cost(alloc, plan, DevNo::Dm(0), Kind::Write, span).ok() == Some(wanted)
        && budget(alloc, plan).ok() == Some(7)
}

/// Whether the scenario could be made, and its plan counts the hold. It is let go by a call, since an
/// owner whose scope ends with one is dear to prove.
fn plan_counts_hold(alloc: Global) -> bool {
    let scenario = scenario(alloc);
    let counts = some_counts_hold(alloc, &scenario);
    drop(scenario);
    counts
}

/// Whether there is a scenario, and its plan counts the hold.
fn some_counts_hold(alloc: Global, scenario: &Option<Scenario<Delay>>) -> bool {
    match scenario {
        Some(scenario) => counts_hold(alloc, &scenario.plan()),
        None => false,
    }
}

// A write is mapped, served and finished; one that is held is released, too.
#[test]
fn a_hold_takes_one_event_more(rt: HostRuntime) {
    assert!(rt; plan_counts_hold(rt.alloc()));
}
