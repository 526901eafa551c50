ghost use Rattle.std.specs.Prelude.{◌≡◌, [], length, IfOk};
ghost use Rattle.lab_budget.specs.Counted.{with_steps};
ghost use Rattle.lab_budget.specs.FlushRow.{IsFlushRow, device_flush, entry_of, line_flush, next_row, table_flush};

use crate::capped::capped_sum;
use crate::cost::OpCost;
use lab_model::TableLine;
use lab_sector::{DevNo, Kind, NoMemory};
use lab_table::{Plan, Table};
use lab_target::Target;
use std::alloc::Global;

/// What a flush takes on each mapped device, by number. A flush has no sectors, so each device is done once for
/// each depth, from the bottom upwards, however many ways lead to it.
pub(crate) fn flush_costs<T: Target>(
    alloc: Global,
    plan: &Plan<'_, T>,
) -> Result<Vec<OpCost>, NoMemory>
    ensures { IfOk result (λ row.
        IsFlushRow T.meaning (with_steps plan.now []) (length plan.now.versions) row.items) }
{
    let mut row = Vec::new(alloc);
    for _depth in 0..plan.versions.len() {
        row = flushes_above(alloc, plan, &row)?;
    }
    Ok(row)
}

/// What a flush takes on a device, by what it takes on the mapped ones.
pub(crate) fn flush_entry(row: &[OpCost], dev: DevNo) -> OpCost
    ensures { result ≡ entry_of row.now dev }
{
    match dev {
        DevNo::Ram(_) => OpCost {
            cost: 1,
            visited: 0,
        },
        DevNo::Dm(number) => match row.get(number as usize) {
            Some(entry) => *entry,
            None => OpCost {
                cost: 2,
                visited: 0,
            },
        },
    }
}

/// What a flush takes on each mapped device, by what it takes on those below.
fn flushes_above<T: Target>(
    alloc: Global,
    plan: &Plan<'_, T>,
    row: &[OpCost],
) -> Result<Vec<OpCost>, NoMemory>
    ensures { IfOk result (λ next. next.items ≡ next_row T.meaning row.now plan.now.versions) }
{
    let mut next = Vec::new(alloc);
    for versions in plan.versions {
        next.push(device_flushes(versions, row))?;
    }
    Ok(next)
}

/// What a flush takes on a device of these versions: 2 and the greatest cost of a version.
fn device_flushes<T: Target>(versions: &[Table<T>], row: &[OpCost]) -> OpCost
    ensures { result ≡ device_flush T.meaning row.now versions.now }
{
    let mut most = OpCost {
        cost: 0,
        visited: 0,
    };
    for version in versions {
        let one = table_flushes(version, row);
        most = OpCost {
            cost: most.cost.max(one.cost),
            visited: capped_sum(most.visited, one.visited),
        };
    }
    OpCost {
        cost: capped_sum(2, most.cost),
        visited: most.visited,
    }
}

/// What a flush takes on one table: the sum over its lines.
fn table_flushes<T: Target>(table: &Table<T>, row: &[OpCost]) -> OpCost
    ensures { result ≡ table_flush T.meaning row.now table.now }
{
    let mut sum = OpCost {
        cost: 0,
        visited: 0,
    };
    for line in table.lines() {
        let one = line_flushes(line, row);
        sum = OpCost {
            cost: capped_sum(sum.cost, one.cost),
            visited: capped_sum(sum.visited, one.visited),
        };
    }
    sum
}

/// What a flush takes at one line: its piece, and at its reference a hold and its cost there.
fn line_flushes<T: Target>(line: &TableLine<T>, row: &[OpCost]) -> OpCost
    ensures { result ≡ line_flush T.meaning row.now line.now }
{
    let Some(reference) = line.target.reference(Kind::Flush) else {
        return OpCost {
            cost: 0,
            visited: 1,
        };
    };
    let hold = u64::from(line.target.may_hold(Kind::Flush));
    let there = flush_entry(row, reference.dev);
    OpCost {
        cost: capped_sum(hold, there.cost),
        visited: capped_sum(1, there.visited),
    }
}
