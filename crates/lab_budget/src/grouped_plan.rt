ghost use Rattle.std.specs.Prelude.{◌≡◌, IfOk, length, map, option_copied, slice_get};

use crate::grouped::Grouped;
use lab_sector::NoMemory;
use lab_table::{DiskPlan, LogPlan, Plan, Table};
use lab_target::Target;
use std::alloc::Global;
use std::marker::Model;

/// A plan, with the versions of each device by their sizes.
#[derive(Drop)]
pub(crate) struct GroupedPlan<'a, T: Target> {
    sizes: &'a [DiskPlan],
    /// By device number.
    devices: Vec<Grouped<'a, T>>,
    lines: &'a [LogPlan],
    /// How many steps the script has.
    micros: u64,
}

impl<'a, T: Target> Model for GroupedPlan<'a, T> {
    ghost use Rattle.lab_table.specs.PlanRow.{PlanRow};

    ghost Value = { PlanRow T };

    ghost view = { λ plan. record {
      disks = plan.sizes.now;
      versions = plan.devices.items;
      logs = plan.lines.now;
      micros = plan.micros;
    } };
}

impl<'a, T: Target> GroupedPlan<'a, T> {
    /// This plan.
    pub(crate) fn new(alloc: Global, plan: &'a Plan<'a, T>) -> Result<GroupedPlan<'a, T>, NoMemory>
        ensures { IfOk result (λ grouped. grouped ≡ plan.now) }
    {
        let devices = all_grouped(alloc, plan.versions)?;
        Ok(GroupedPlan {
            sizes: plan.sizes,
            devices,
            lines: plan.lines,
            micros: plan.micros,
        })
    }

    /// All tables that are ever loaded into the device of this number.
    pub(crate) fn get(&self, number: u32) -> Option<&Grouped<'a, T>>
        ensures { option_copied result ≡ slice_get self.now.versions number }
    {
        self.devices.get(number as usize)
    }

    /// The logs.
    pub(crate) fn logs(&self) -> &[LogPlan]
        ensures { result.now ≡ self.now.logs }
    {
        self.lines
    }

    /// How many steps the script has.
    pub(crate) fn micros(&self) -> u64
        ensures { result ≡ self.now.micros }
    {
        self.micros
    }

    /// How many devices there are.
    pub(crate) fn count(&self) -> usize
        ensures { result ≡ length self.now.versions }
    {
        self.devices.len()
    }
}

/// The versions of each device, by their sizes.
fn all_grouped<'a, T: Target>(
    alloc: Global,
    versions: &'a [Vec<Table<T>>],
) -> Result<Vec<Grouped<'a, T>>, NoMemory>
    ensures { IfOk result (λ devices. devices.items ≡ map (λ row. row.items) versions.now) }
{
    let mut devices = Vec::with_capacity(alloc, versions.len())?;
    for tables in versions {
        devices.push(Grouped::new(alloc, tables.as_slice())?)?;
    }
    Ok(devices)
}
