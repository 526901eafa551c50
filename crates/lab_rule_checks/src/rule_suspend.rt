ghost use Rattle.std.specs.Prelude.{◌≡◌, Decides, IfOk, length};
ghost use Rattle.lab_script.specs.Task.{task_of};
ghost use Rattle.lab_rulebook.specs.Parts.{Parts};
ghost use Rattle.lab_model.specs.declared.rule.Rule.TheVariants.{V6};
ghost use Rattle.lab_rulebook.specs.ScriptRules.{Breaks, SuspendedBelow};
ghost use Rattle.lab_standing.specs.Linked.{link_rows};
ghost use Rattle.lab_standing.specs.Seen.{passes, slot_named};
ghost use Rattle.lab_standing.specs.Stands.{standing_of};
ghost use Rattle.lab_rule_checks.specs.Live.{SomeRestsAmong, live_rows, rests_at, slot_suspended};
ghost use Rattle.lab_rule_checks.specs.Suspends.{named_with, runs, suspended_by, swaps};

use crate::search::{is_set, reached};
use lab_script::{Command, DeviceVersions};
use lab_sector::NoMemory;
use lab_standing::{Links, Standing};
use lab_target::Target;
use std::alloc::Global;

/// V6: a running device is suspended, by a suspend or for a resume's swap, while another device that is
/// reachable from it through live tables is suspended.
pub(crate) fn breaks_v6<T: Target>(
    standing: &Standing<'_, T>,
    alloc: Global,
    command: Command<'_>,
) -> Result<bool, NoMemory>
    ensures { (parts : Parts T) → IfOk result (λ told. Decides told
        (Breaks T.meaning parts (standing_of T.meaning standing.now) (task_of command.entry) V6)) }
{
    match suspends(standing, command) {
        Some(device) => rests_below(standing, alloc, device),
        None => Ok(false),
    }
}

/// The running device that a command suspends, if it suspends one.
fn suspends<T: Target>(standing: &Standing<'_, T>, command: Command<'_>) -> Option<u32>
    ensures { result ≡ suspended_by (standing_of T.meaning standing.now) (task_of command.entry) }
{
    match command {
        Command::Suspend(name) => suspended(standing, name),
        Command::Resume(name) => swapped(standing, name),
        _ => None,
    }
}

/// The device of a name, if it runs.
fn suspended<T: Target>(standing: &Standing<'_, T>, name: &[u8]) -> Option<u32>
    ensures { result ≡ named_with runs (standing_of T.meaning standing.now) name.now }
{
    if runs(standing, name) {
        standing.device_named(name)
    } else {
        None
    }
}

/// The device of a name, if it runs and has an inactive table.
fn swapped<T: Target>(standing: &Standing<'_, T>, name: &[u8]) -> Option<u32>
    ensures { result ≡ named_with swaps (standing_of T.meaning standing.now) name.now }
{
    if swaps(standing, name) {
        standing.device_named(name)
    } else {
        None
    }
}

/// Whether the device of a name runs.
fn runs<T: Target>(standing: &Standing<'_, T>, name: &[u8]) -> bool
    ensures { result ≡ passes (slot_named (standing_of T.meaning standing.now) name.now) runs }
{
    match standing.device_of(name) {
        Some(device) => device.runs(),
        None => false,
    }
}

/// Whether the device of a name runs and has an inactive table.
fn swaps<T: Target>(standing: &Standing<'_, T>, name: &[u8]) -> bool
    ensures { result ≡ passes (slot_named (standing_of T.meaning standing.now) name.now) swaps }
{
    match standing.device_of(name) {
        Some(device) => device.runs() && device.inactive.is_some(),
        None => false,
    }
}

/// Whether another device that is reachable from a device through live tables is suspended.
fn rests_below<T: Target>(
    standing: &Standing<'_, T>,
    alloc: Global,
    device: u32,
) -> Result<bool, NoMemory>
    ensures { (parts : Parts T) → IfOk result (λ told. Decides told
        (SuspendedBelow T.meaning parts (standing_of T.meaning standing.now) device)) }
{
    let links = live_links(standing, alloc)?;
    let marks = reached(alloc, &links, links.row(device as usize))?;
    Ok(rests_among(standing, &marks, device as usize))
}

/// Which devices refer to which by their live tables.
fn live_links<T: Target>(standing: &Standing<'_, T>, alloc: Global) -> Result<Links, NoMemory>
    ensures { IfOk result (λ links. link_rows links
        ≡ live_rows (standing_of T.meaning standing.now).devices (length standing.now.walk.slots.items)) }
{
    let mut links = Links::new(alloc);
    for number in 0..standing.walk.slots.len() {
        links.add_device(alloc, standing.live(number))?;
    }
    Ok(links)
}

/// Whether another device than this one is marked and is suspended.
#[tactic(auto, using(crate::proofs::Rulesets::rests_among))]
fn rests_among<T: Target>(standing: &Standing<'_, T>, marks: &[bool], device: usize) -> bool
    ensures { Decides result (SomeRestsAmong standing.now.walk.slots.items marks.now device) }
{
    for other in 0..standing.walk.slots.len() {
        if rests_at(standing, marks, device, other) {
            return true;
        }
    }
    false
}

/// Whether a device is another than this one, is marked and is suspended.
fn rests_at<T: Target>(
    standing: &Standing<'_, T>,
    marks: &[bool],
    device: usize,
    other: usize,
) -> bool
    ensures { result ≡ rests_at standing.now.walk.slots.items marks.now device other }
{
    other != device && is_suspended(standing.walk.slot(other)) && is_set(marks, other)
}

/// Whether a device stands and is suspended.
fn is_suspended(slot: Option<DeviceVersions>) -> bool
    ensures { result ≡ slot_suspended slot }
{
    match slot {
        Some(slot) => slot.is_suspended(),
        None => false,
    }
}
