ghost use Rattle.std.specs.Prelude.{◌≡◌, ◌+◌, ◌<◌, ◌^◌, OnErr, OnOk};
ghost use Rattle.lab_model.specs.After.{Next};
ghost use Rattle.lab_model.specs.ControlEffect.{order_effect, stepped};
ghost use Rattle.lab_model.specs.Steps.{AreOpening, OrderFits};
ghost use Rattle.lab_model.specs.Moves.{Moves};
ghost use Rattle.lab_effect.specs.Replies.{slept};

use crate::commands::{begin, clear, create, drained, load, remove, replay, swap};
use crate::telling::{message, show_table, status};
use lab_model::Order;
use lab_sector::NoMemory;
use lab_state::State;
use lab_table::Scenario;
use lab_target::Target;
use std::alloc::Global;

/// A step of the script is done, but it isn't counted yet.
pub fn carry_out<T: Target>(
    state: &mut State<T>,
    alloc: Global,
    scenario: &Scenario<T>,
    line: u64,
    order: &Order,
) -> Result<(), NoMemory>
    requires opening { AreOpening T.meaning scenario.now }
    requires moves { Moves (order_effect T.meaning scenario.now state.old line order.now) }
    requires fits { OrderFits state.old order.now }
    ensures next { OnOk result (order_effect T.meaning scenario.now state.old line order.now
        ≡ Next (stepped state.new)) }
    ensures err { OnErr result (state.new ≡ state.old) }
{
    match order {
        Order::Create(device, version) => create(state, alloc, scenario, *device, *version)?,
        Order::Load(device, version) => load(state, alloc, scenario, *device, *version)?,
        Order::Clear(device) => clear(state, *device),
        Order::Begin(device) => begin(state, *device),
        Order::Drained(device) => drained(state, *device),
        Order::Swap(device) => swap(state, *device),
        Order::Remove(device) => remove(state, *device),
        Order::Message(device, sector, text) => {
            message(state, alloc, line, *device, *sector, text.as_slice())?;
        }
        Order::Status(device) => status(state, alloc, line, *device)?,
        Order::Table(device) => show_table(state, alloc, line, *device)?,
        Order::Sleep(time) => sleep(state, *time),
        Order::Replay => replay(state),
        Order::Wait => {}
    }
    Ok(())
}

/// The script goes on after so many microseconds.
fn sleep<T: Target>(state: &mut State<T>, time: u64)
    requires { state.old.clock + time < 2 ^ 64 }
    ensures { state.new ≡ slept state.old time }
{
    state.moment = state.traffic.clock() + time;
}
