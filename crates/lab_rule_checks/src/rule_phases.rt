ghost use Rattle.std.specs.Prelude.{◌≡◌, [], ◌∷◌, Decides};
ghost use Rattle.std.specs.List.{list_any};
ghost use Rattle.lab_model.specs.declared.phase.Phase.TheVariants.{Before, Replayed, Waited};
ghost use Rattle.lab_script.specs.Task.{task_of};
ghost use Rattle.lab_rulebook.specs.ScriptRules.{Breaks, EndBreaks};
ghost use Rattle.lab_model.specs.declared.rule.Rule.TheVariants.{V7, V10};
ghost use Rattle.lab_rulebook.specs.Parts.{Parts};
ghost use Rattle.lab_standing.specs.Stands.{standing_of};
ghost use Rattle.lab_rule_checks.specs.Least.{TellsFirst};
ghost use Rattle.lab_rule_checks.specs.Live.{slot_rests};

use lab_refusal::Rule;
use lab_script::{Command, DeviceVersions};
use lab_standing::{Phase, Standing};
use lab_target::Target;

/// V7: a wait while a device isn't running.
pub(crate) fn breaks_v7<T: Target>(standing: &Standing<'_, T>, command: Command<'_>) -> bool
    ensures { (parts : Parts T)
        → Decides result (Breaks T.meaning parts (standing_of T.meaning standing.now) (task_of command.entry) V7) }
{
    match command {
        Command::Wait => some_rests(standing),
        _ => false,
    }
}

/// Whether some device isn't running.
pub(crate) fn some_rests<T: Target>(standing: &Standing<'_, T>) -> bool
    ensures { result ≡ list_any slot_rests standing.now.walk.slots.items }
{
    standing.walk.slots.iter().any(|slot| rests(*slot))
}

/// At the script's end: V7, a device isn't running, and there was no wait; else V10, there was no replay.
pub fn broken_end<T: Target>(standing: &Standing<'_, T>) -> Option<Rule>
    ensures { (parts : Parts T) → TellsFirst
        (EndBreaks T.meaning parts (standing_of T.meaning standing.now)) (V7 ∷ V10 ∷ []) result }
{
    if rests_at_end(standing) {
        Some(Rule::V7)
    } else if is_before(standing) {
        Some(Rule::V10)
    } else {
        None
    }
}

/// Whether a device isn't running, and there was no wait.
fn rests_at_end<T: Target>(standing: &Standing<'_, T>) -> bool
    ensures { (parts : Parts T)
        → Decides result (EndBreaks T.meaning parts (standing_of T.meaning standing.now) V7) }
{
    some_rests(standing) && !has_waited(standing)
}

/// V10: a second replay or wait, or a wait before the replay.
pub(crate) fn breaks_v10<T: Target>(standing: &Standing<'_, T>, command: Command<'_>) -> bool
    ensures { (parts : Parts T)
        → Decides result (Breaks T.meaning parts (standing_of T.meaning standing.now) (task_of command.entry) V10) }
{
    match command {
        Command::Replay => !is_before(standing),
        Command::Wait => !has_replayed(standing),
        _ => false,
    }
}

/// Whether the logs haven't started.
pub(crate) fn is_before<T: Target>(standing: &Standing<'_, T>) -> bool
    ensures { Decides result (standing.now.phase ≡ Before) }
{
    matches!(standing.phase, Phase::Before)
}

/// Whether there was a wait.
fn has_waited<T: Target>(standing: &Standing<'_, T>) -> bool
    ensures { Decides result (standing.now.phase ≡ Waited) }
{
    matches!(standing.phase, Phase::Waited)
}

/// Whether the logs have started, and there was no wait.
pub(crate) fn has_replayed<T: Target>(standing: &Standing<'_, T>) -> bool
    ensures { Decides result (standing.now.phase ≡ Replayed) }
{
    matches!(standing.phase, Phase::Replayed)
}

/// Whether a device stands and isn't running.
fn rests(slot: Option<DeviceVersions>) -> bool
    ensures { result ≡ slot_rests slot }
{
    match slot {
        Some(slot) => !slot.runs(),
        None => false,
    }
}
