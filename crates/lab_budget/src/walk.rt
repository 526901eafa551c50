ghost use Rattle.std.specs.Prelude.{◌≡◌, ◌≢◌, ◌+◌, ◌≤◌, true, [], slice_get};
ghost use Rattle.lab_sector.specs.declared.request.Kind.TheVariants.{Flush};
ghost use Rattle.lab_model.specs.Cost.{cost_within, piece_by, table_cost, table_visits, visits_by, visits_within};
ghost use Rattle.lab_model.specs.MapEffect.{fits_table};
ghost use Rattle.lab_budget.specs.Counted.{IsCounted, with_steps};
ghost use Rattle.lab_budget.specs.Reach.{IsReach};

use crate::capped::capped_sum;
use crate::cost::OpCost;
use crate::grouped_plan::GroupedPlan;
use lab_sector::{DevNo, Kind, Span};
use lab_split::{Piece, take_piece, uncut_span};
use lab_table::{LIMIT, Table, TableLine};
use lab_target::Target;

/// What an operation takes on a device with at most `depth` mapped devices from it downwards: 1 on a disk, else 2
/// and the greatest cost over the versions that have the sectors. The pieces are counted on from `before`.
#[cycle(walks)]
pub(crate) fn device_walk<T: Target>(
    plan: &GroupedPlan<'_, T>,
    depth: usize,
    dev: DevNo,
    kind: Kind,
    span: Span,
    before: u64,
) -> OpCost
    requires no_flush { kind ≢ Flush }
    requires counted { before ≤ LIMIT + 1 }
    ensures { IsCounted (cost_within T.meaning (with_steps plan.now []) depth dev kind span)
        (before + visits_within T.meaning (with_steps plan.now []) depth dev kind span) result }
{
    let DevNo::Dm(number) = dev else {
        return counted(1, before);
    };
    if depth == 0 {
        return counted(2, before);
    }
    let Some(versions) = plan.get(number) else {
        return counted(2, before);
    };
    let mut most = counted(0, before);
    let mut place = versions.next_fit(0, kind, span);
    while let Some(version) = versions.get(place) {
        if most.visited > LIMIT {
            return most;
        }
        let one = table_walk(plan, depth - 1, version, kind, span, most.visited);
        most = counted(most.cost.max(one.cost), one.visited);
        // So the next place fits.
        prove!(place < versions.count());
        place = versions.next_fit(place + 1, kind, span);
    }
    counted(capped_sum(2, most.cost), most.visited)
}

/// What an operation takes on one table, whose devices have at most `depth` mapped devices from them downwards. Its
/// pieces are taken off one by one, until more than `LIMIT` are counted.
#[cycle(walks)]
fn table_walk<T: Target>(
    plan: &GroupedPlan<'_, T>,
    depth: usize,
    table: &Table<T>,
    kind: Kind,
    span: Span,
    before: u64,
) -> OpCost
    requires no_flush { kind ≢ Flush }
    requires inside { fits_table table.now kind span ≡ true }
    requires counted { before ≤ LIMIT + 1 }
    ensures { IsCounted
        (table_cost T.meaning (cost_within T.meaning (with_steps plan.now []) depth) kind span table.now)
        (before + table_visits T.meaning (visits_within T.meaning (with_steps plan.now []) depth) kind span table.now)
        result }
{
    let lines = table.lines();
    let mut sum = counted(0, before);
    let mut uncut = uncut_span(table, span);
    while uncut.span.len > 0 {
        if sum.visited > LIMIT {
            return sum;
        }
        let piece = take_piece(table, &mut uncut);
        let one = piece_walk(plan, depth, lines, kind, piece, sum.visited);
        sum = counted(capped_sum(sum.cost, one.cost), one.visited);
    }
    sum
}

/// What a piece of an operation takes: itself, and at its line's reference a hold and its cost there.
#[cycle(walks)]
fn piece_walk<T: Target>(
    plan: &GroupedPlan<'_, T>,
    depth: usize,
    lines: &[TableLine<T>],
    kind: Kind,
    piece: Piece,
    before: u64,
) -> OpCost
    requires no_flush { kind ≢ Flush }
    requires reach { IsReach T.meaning lines.now piece }
    requires counted { before ≤ LIMIT + 1 }
    ensures { IsCounted
        (piece_by T.meaning (cost_within T.meaning (with_steps plan.now []) depth) kind piece
        (slice_get lines.now piece.line))
        (before + visits_by T.meaning (visits_within T.meaning (with_steps plan.now []) depth) kind piece
        (slice_get lines.now piece.line))
        result }
{
    let visited = capped_sum(before, 1);
    let line = &lines[piece.line];
    let Some(reference) = line.target.reference(kind) else {
        return counted(0, visited);
    };
    let place = Span {
        first: piece.span.first - line.start,
        len: piece.span.len,
    };
    let below = place.shift(reference.first);
    let hold = u64::from(line.target.may_hold(kind));
    let there = device_walk(plan, depth, reference.dev, kind, below, visited);
    counted(capped_sum(hold, there.cost), there.visited)
}

/// A cost, and the pieces that were looked at.
fn counted(cost: u64, visited: u64) -> OpCost
    ensures cost { result.cost ≡ cost }
    ensures visited { result.visited ≡ visited }
{
    OpCost { cost, visited }
}
