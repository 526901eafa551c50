ghost use Rattle.std.specs.Prelude.{◌≡◌, ◌++◌, [], ◌∷◌, IfOk, length, option_copied, slice_get};
ghost use Rattle.lab_model.specs.Lists.{change};
ghost use Rattle.lab_script.specs.Task.{task_of};
ghost use Rattle.lab_script.specs.Walk.{loads_after};
ghost use Rattle.lab_standing.specs.Image.{own_of};
ghost use Rattle.lab_standing.specs.Linked.{link_rows, row_for, with_links};

use crate::references::{link_some, row_for};
use lab_script::Command;
use lab_sector::NoMemory;
use lab_table::Table;
use lab_target::Target;
use std::alloc::Global;

/// Which mapped devices each device refers to.
#[derive(Drop)]
pub struct Links {
    /// By the device that refers, the numbers that it refers to, each once.
    pub rows: Vec<Vec<u32>>,
}

impl Links {
    /// No device.
    pub fn new(alloc: Global) -> Links
        ensures { link_rows result ≡ [] }
    {
        Links {
            rows: Vec::new(alloc),
        }
    }

    /// One more device, which refers to what its table refers to, if it has one.
    pub fn add_device<T: Target>(
        &mut self,
        alloc: Global,
        table: Option<&Table<T>>,
    ) -> Result<(), NoMemory>
        ensures { IfOk result (λ done. link_rows self.new
            ≡ link_rows self.old ++ row_for T.meaning (option_copied table.entry) ∷ []) }
    {
        let row = row_for(alloc, table)?;
        self.rows.push(row)?;
        Ok(())
    }

    /// A create's or a load's device refers to what its table refers to, besides what it did before.
    pub fn obey<T: Target>(
        &mut self,
        alloc: Global,
        command: Command<'_>,
        device: Option<u32>,
        table: Option<&Table<T>>,
    ) -> Result<(), NoMemory>
        ensures { IfOk result (λ done. link_rows self.new ≡ loads_after (with_links T.meaning) []
            (link_rows self.old) device (task_of command.entry) (option_copied table.entry)) }
    {
        match (command, device) {
            (Command::Create(_, _), _) => self.add_device(alloc, table),
            (Command::Load(_, _), Some(device)) => self.link(device as usize, table),
            _ => Ok(()),
        }
    }

    /// A device refers to what one more table refers to, if there is one.
    #[tactic(auto, using(crate::proofs::Rulesets::add_version))]
    fn link<T: Target>(&mut self, from: usize, table: Option<&Table<T>>) -> Result<(), NoMemory>
        ensures { IfOk result (λ done. link_rows self.new ≡ change (link_rows self.old) from
            (λ row. with_links T.meaning row (option_copied table.entry))) }
    {
        match self.rows.get_mut(from) {
            Some(row) => link_some(row, table),
            None => Ok(()),
        }
    }

    /// How many devices there are.
    pub fn count(&self) -> usize
        ensures { result ≡ length (link_rows self.now) }
    {
        self.rows.len()
    }

    /// The numbers that a device refers to.
    pub fn row(&self, device: usize) -> &[u32]
        ensures { result.now ≡ own_of (link_rows self.now) device }
    {
        match self.found(device) {
            Some(row) => row,
            None => &[],
        }
    }

    /// The row of a device, if there is one.
    fn found(&self, device: usize) -> Option<&Vec<u32>>
        ensures { option_copied result ≡ slice_get self.now.rows.items device }
    {
        self.rows.get(device)
    }
}
