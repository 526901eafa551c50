ghost use Rattle.std.specs.Prelude.{◌≡◌, ◌+◌, ◌<◌, ◌≤◌, List, [], length, map, sum, IfOk};
ghost use Rattle.lab_model.specs.Cost.{cost, line_cost, visits};
ghost use Rattle.lab_model.specs.declared.micro.Micro.{Micro};
ghost use Rattle.lab_budget.specs.Counted.{IsCounted, line_visits, lines_visits, told_budget, with_steps};
ghost use Rattle.lab_budget.specs.FlushRow.{IsFlushRow};

use crate::capped::capped_sum;
use crate::cost::OpCost;
use crate::flush::{flush_costs, flush_entry};
use crate::grouped_plan::GroupedPlan;
use crate::walk::device_walk;
use lab_model::Entry;
use lab_sector::{DevNo, Kind, NoMemory, Span};
use lab_table::{LIMIT, LogLine, LogPlan, Plan};
use lab_target::Target;
use std::alloc::Global;

/// The most events, the clock's left out, that a run of the plan takes: one for each log line and its operation's
/// cost, and one for each micro-command. `LIMIT + 1` where it or the number of visited pieces is more than `LIMIT`.
pub fn budget<T: Target>(alloc: Global, plan: &Plan<'_, T>) -> Result<u64, NoMemory>
    ensures { IfOk result (λ n. (steps : List Micro) → length steps ≡ plan.now.micros
        → n ≡ told_budget T.meaning (with_steps plan.now steps)) }
{
    let flushes = flush_costs(alloc, plan)?;
    let grouped = GroupedPlan::new(alloc, plan)?;
    Ok(grouped_budget(&grouped, &flushes))
}

/// The same, by what a flush takes on each mapped device.
fn grouped_budget<T: Target>(plan: &GroupedPlan<'_, T>, flushes: &[OpCost]) -> u64
    requires { IsFlushRow T.meaning (with_steps plan.now []) (length plan.now.versions) flushes.now }
    ensures { (steps : List Micro) → length steps ≡ plan.now.micros
        → result ≡ told_budget T.meaning (with_steps plan.now steps) }
{
    let mut sum = OpCost {
        cost: capped_sum(plan.micros(), 0),
        visited: 0,
    };
    for log in plan.logs() {
        if sum.visited > LIMIT {
            return LIMIT + 1;
        }
        let one = log_walk(plan, flushes, log, sum.visited);
        sum = OpCost {
            cost: capped_sum(sum.cost, one.cost),
            visited: one.visited,
        };
    }
    told(sum)
}

/// A cost, or `LIMIT + 1` where more than `LIMIT` pieces were looked at.
fn told(sum: OpCost) -> u64
    ensures within { sum.visited ≤ LIMIT → result ≡ sum.cost }
    ensures over { LIMIT < sum.visited → result ≡ LIMIT + 1 }
{
    if sum.visited > LIMIT {
        LIMIT + 1
    } else {
        sum.cost
    }
}

/// What a log's lines take. The pieces are counted on from `before`.
fn log_walk<T: Target>(
    plan: &GroupedPlan<'_, T>,
    flushes: &[OpCost],
    log: &LogPlan,
    before: u64,
) -> OpCost
    requires row { IsFlushRow T.meaning (with_steps plan.now []) (length plan.now.versions) flushes.now }
    requires counted { before ≤ LIMIT + 1 }
    ensures { IsCounted (sum (map (line_cost T.meaning (with_steps plan.now [])) log.now.lines))
        (before + lines_visits T.meaning (with_steps plan.now []) log.now.lines) result }
{
    let mut sum = OpCost {
        cost: 0,
        visited: before,
    };
    for line in &log.lines {
        if sum.visited > LIMIT {
            return sum;
        }
        let one = line_walk(plan, flushes, line, sum.visited);
        sum = OpCost {
            cost: capped_sum(sum.cost, one.cost),
            visited: one.visited,
        };
    }
    sum
}

/// What a log line takes: its own event, and its operation's cost.
fn line_walk<T: Target>(
    plan: &GroupedPlan<'_, T>,
    flushes: &[OpCost],
    line: &LogLine,
    before: u64,
) -> OpCost
    requires row { IsFlushRow T.meaning (with_steps plan.now []) (length plan.now.versions) flushes.now }
    requires counted { before ≤ LIMIT + 1 }
    ensures { IsCounted (line_cost T.meaning (with_steps plan.now []) line.now)
        (before + line_visits T.meaning (with_steps plan.now []) line.now) result }
{
    let (Some(dev), Entry::Operate(action, span)) = (line.device, line.entry) else {
        return OpCost {
            cost: 1,
            visited: before,
        };
    };
    let one = operation_walk(plan, flushes, dev, action.kind(), span, before);
    OpCost {
        cost: capped_sum(1, one.cost),
        visited: one.visited,
    }
}

/// What an operation takes, by what a flush takes on each mapped device.
fn operation_walk<T: Target>(
    plan: &GroupedPlan<'_, T>,
    flushes: &[OpCost],
    dev: DevNo,
    kind: Kind,
    span: Span,
    before: u64,
) -> OpCost
    requires row { IsFlushRow T.meaning (with_steps plan.now []) (length plan.now.versions) flushes.now }
    requires counted { before ≤ LIMIT + 1 }
    ensures { IsCounted (cost T.meaning (with_steps plan.now []) dev kind span)
        (before + visits T.meaning (with_steps plan.now []) dev kind span) result }
{
    match kind {
        Kind::Flush => {
            let one = flush_entry(flushes, dev);
            OpCost {
                cost: one.cost,
                visited: capped_sum(before, one.visited),
            }
        }
        Kind::Read | Kind::Write | Kind::Trim => {
            device_walk(plan, plan.count(), dev, kind, span, before)
        }
    }
}
