ghost use Rattle.std.specs.Prelude.{List, IfOk};
ghost use Rattle.lab_model.specs.declared.micro.Micro.{Micro};
ghost use Rattle.lab_budget.specs.Counted.{OperationIsCounted, with_steps};

use crate::flush::{flush_costs, flush_entry};
use crate::grouped_plan::GroupedPlan;
use crate::walk::device_walk;
use lab_sector::{DevNo, Kind, NoMemory, Span};
use lab_table::Plan;
use lab_target::Target;
use std::alloc::Global;

/// What an operation takes at most.
#[derive(Clone, Copy, Debug, PartialEq, Eq)]
pub struct OpCost {
    /// Its events, as `LIMIT + 1` where they are more than `LIMIT`; told only where the pieces aren't more.
    pub cost: u64,
    /// The pieces that are looked at to find them, as `LIMIT + 1` where they are more than `LIMIT`.
    pub visited: u64,
}

/// What an operation on these sectors of a device takes, over all tables that are ever loaded.
pub fn operation_cost<T: Target>(
    alloc: Global,
    plan: &Plan<'_, T>,
    dev: DevNo,
    kind: Kind,
    span: Span,
) -> Result<OpCost, NoMemory>
    ensures { IfOk result (λ op. (steps : List Micro)
        → OperationIsCounted T.meaning (with_steps plan.now steps) dev kind span op) }
{
    match kind {
        Kind::Flush => {
            let flushes = flush_costs(alloc, plan)?;
            Ok(flush_entry(&flushes, dev))
        }
        Kind::Read | Kind::Write | Kind::Trim => {
            let grouped = GroupedPlan::new(alloc, plan)?;
            Ok(device_walk(&grouped, grouped.count(), dev, kind, span, 0))
        }
    }
}
