use crate::log_plan::LogPlan;
use crate::table::Table;
use lab_model::{DiskPlan, Micro};
use lab_target::Target;
use std::marker::Model;

/// The greatest budget, and the greatest number of visited pieces.
pub const LIMIT: u64 = 16_777_216;

/// A scenario: the disks, each device's versions (all tables that are ever loaded into it), the logs, and the
/// script's steps.
#[derive(Debug, Drop)]
pub struct Scenario<T: Target> {
    pub sizes: Vec<DiskPlan>,
    /// By device number: all tables that are ever loaded into the device.
    pub versions: Vec<Vec<Table<T>>>,
    pub lines: Vec<LogPlan>,
    /// The script's steps, in order.
    pub micros: Vec<Micro>,
}

impl<T: Target> Model for Scenario<T> {
    ghost use Rattle.std.specs.Prelude.{map};
    ghost use Rattle.lab_model.specs.Scenario.{Scenario as Runs};

    ghost Value = { Runs T };

    ghost view = { λ scenario. record {
      disks = scenario.sizes.items;
      versions = map (λ row. row.items) scenario.versions.items;
      micros = scenario.micros.items;
      logs = scenario.lines.items;
    } };
}

impl<T: Target> Scenario<T> {
    ghost use Rattle.std.specs.Prelude.{◌≡◌};
    ghost use Rattle.lab_table.specs.PlanRow.{plan_of};

    /// What the budget depends on.
    pub fn plan(&self) -> Plan<'_, T>
        ensures { result ≡ plan_of self.now }
    {
        Plan {
            sizes: &self.sizes,
            versions: &self.versions,
            lines: &self.lines,
            micros: self.micros.len() as u64,
        }
    }
}

/// What the budget depends on, read off a scenario: all of it, but the script's steps are only counted.
#[derive(Debug, Drop)]
pub struct Plan<'a, T: Target> {
    pub sizes: &'a [DiskPlan],
    /// By device number: all tables that are ever loaded into the device.
    pub versions: &'a [Vec<Table<T>>],
    pub lines: &'a [LogPlan],
    /// How many steps the script has.
    pub micros: u64,
}

impl<'a, T: Target> Model for Plan<'a, T> {
    ghost use Rattle.std.specs.Prelude.{map};
    ghost use Rattle.lab_table.specs.PlanRow.{PlanRow};

    ghost Value = { PlanRow T };

    ghost view = { λ plan. record {
      disks = plan.sizes.now;
      versions = map (λ row. row.items) plan.versions.now;
      logs = plan.lines.now;
      micros = plan.micros;
    } };
}
