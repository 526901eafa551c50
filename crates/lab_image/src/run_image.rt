ghost use Rattle.std.specs.Prelude.{◌≡◌, [], true, IfErr, IfOk, OnOk};
ghost use Rattle.lab_model.specs.After.{Next};
ghost use Rattle.lab_model.specs.Guard.{is_done};
ghost use Rattle.lab_core.specs.Audit.{IsFaultOf};
ghost use Rattle.lab_core.specs.Runs.{IsPaced};
ghost use Rattle.lab_image.specs.Images.{blank};
ghost use Rattle.lab_image.specs.Rows.{image_rows};
ghost use Rattle.lab_image.specs.Stands.{IsDisksOfEvents, IsDisksOfSeed, image_from};
ghost use Rattle.lab_image.specs.Text.{rows_text};

use crate::image::Image;
use crate::imager::Imager;
use crate::text::text_of;
use lab_core::{AuditFault, Lab, begin};
use lab_model::Event;
use lab_rulebook::Accepted;
use lab_sector::NoMemory;
use lab_state::State;
use lab_target::Target;
use std::alloc::Global;

/// What stands on the disks after the run by the words of a generator with this seed, promptly or not.
pub fn disks_of_seed<T: Target>(
    alloc: Global,
    accepted: Accepted<T>,
    seed: u64,
    prompt: bool,
) -> Result<Vec<u8>, NoMemory>
    ensures told { IfOk result (λ text.
        IsDisksOfSeed T.meaning accepted prompt seed text.items) }
{
    let mut lab = begin(alloc, accepted)?;
    let text = disks_of_run(alloc, &mut lab, seed, prompt);
    lab.discard();
    text
}

/// Runs a laboratory before its first event by the words of a generator with this seed, promptly or not, until all is
/// done: what stands on the disks then.
pub fn disks_of_run<T: Target>(
    alloc: Global,
    lab: &mut Lab<T>,
    seed: u64,
    prompt: bool,
) -> Result<Vec<u8>, NoMemory>
    requires { lab.old.history ≡ [] }
    ensures paced { IsPaced T.meaning prompt seed lab.old lab.new }
    ensures done { OnOk result (is_done lab.new.scenario lab.new.state ≡ true) }
    ensures told { IfOk result (λ text. text.items
        ≡ rows_text (image_rows (image_from T.meaning lab.old.scenario (Next lab.old.state) blank
        lab.new.history).disks lab.new.state.disks)) }
{
    let mut imager = Imager::new(alloc);
    lab.simulate_watched(alloc, seed, prompt, &mut imager)?;
    text_in(alloc, lab, &imager)
}

/// What stands on the disks after these events, if they are a complete run of the scenario.
pub fn disks_of_events<T: Target>(
    alloc: Global,
    accepted: Accepted<T>,
    events: &[Event],
) -> Result<Vec<u8>, AuditFault>
    ensures told { IfOk result (λ text.
        IsDisksOfEvents T.meaning accepted.scenario events.now text.items) }
    ensures fault { IfErr result (λ fault.
        IsFaultOf T.meaning accepted.scenario events.now fault) }
{
    let mut imager = Imager::new(alloc);
    let lab = Lab::audit_watched(alloc, accepted, events, &mut imager)?;
    let text = text_in(alloc, &lab, &imager);
    lab.discard();
    let text = text?;
    Ok(text)
}

/// What stands on the disks of a laboratory now.
fn text_in<T: Target>(alloc: Global, lab: &Lab<T>, imager: &Imager) -> Result<Vec<u8>, NoMemory>
    ensures { IfOk result (λ text. text.items
        ≡ rows_text (image_rows imager.now.image.disks lab.now.state.disks)) }
{
    text_on(alloc, lab.state(), &imager.image)
}

/// What stands on the disks in a state.
fn text_on<T: Target>(alloc: Global, state: &State<T>, image: &Image) -> Result<Vec<u8>, NoMemory>
    ensures { IfOk result (λ text. text.items
        ≡ rows_text (image_rows image.now.disks state.now.disks)) }
{
    let rows = image.disks.rows(alloc, &state.disks)?;
    text_of(alloc, &rows)
}
