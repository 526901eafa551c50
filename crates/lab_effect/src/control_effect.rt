ghost use Rattle.std.specs.Prelude.{◌≡◌, ◌+◌, ◌<◌, ◌^◌, IsSome, OnErr, OnOk, option_copied, slice_get};
ghost use Rattle.lab_model.specs.declared.event.Event.TheVariants.{Control};
ghost use Rattle.lab_model.specs.After.{Next};
ghost use Rattle.lab_model.specs.ControlEffect.{control, stepped};
ghost use Rattle.lab_model.specs.Ready.{IsReady};

use crate::order_effect::carry_out;
use lab_model::Micro;
use lab_sector::NoMemory;
use lab_state::State;
use lab_table::Scenario;
use lab_target::Target;
use std::alloc::Global;

/// The script's next micro-command is done.
pub fn control<T: Target>(
    state: &mut State<T>,
    alloc: Global,
    scenario: &Scenario<T>,
) -> Result<(), NoMemory>
    requires { IsReady T.meaning scenario.now state.old Control }
    ensures next { OnOk result (control T.meaning scenario.now state.old ≡ Next state.new) }
    ensures err { OnErr result (state.new ≡ state.old) }
{
    let Some(micro) = next_micro(state, scenario) else {
        return Ok(());
    };
    carry_out(state, alloc, scenario, micro.line, &micro.order)?;
    count_step(state);
    Ok(())
}

/// The script's next micro-command, if one is left.
fn next_micro<'a, T: Target>(state: &State<T>, scenario: &'a Scenario<T>) -> Option<&'a Micro>
    ensures micro { option_copied result ≡ slice_get scenario.now.micros state.now.done }
    ensures fits { IsSome result → state.now.done + 1 < 2 ^ 64 }
{
    scenario.micros.get(state.done)
}

/// One micro-command more is done.
fn count_step<T: Target>(state: &mut State<T>)
    requires { state.old.done + 1 < 2 ^ 64 }
    ensures { state.new ≡ stepped state.old }
{
    state.done += 1;
}
