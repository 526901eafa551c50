ghost use Rattle.std.specs.Prelude.{◌≡◌, ◌+◌, ◌<◌, ◌≤◌, ◌++◌, All, Contains, IfNone, IfOk};
ghost use Rattle.std.specs.Prelude.{IfSome, OnOk, length, drop};
ghost use Rattle.lab_queue.specs.Ranking.{Before, IsPlace, IsRanked, IsFirstFrom};
ghost use Rattle.lab_queue.specs.Ranking.{ids_in_front};
ghost use Rattle.lab_queue.specs.Rows.{flat, start, IsAhead, IsSpot, IsRowFor};

use crate::ranking::Ranked;
use crate::row::Row;
use crate::rows::{Rows, Spot};
use std::alloc::{AllocError, Global};
use std::collections::VecDeque;

/// How many rows end before `bound`. They are not searched where all do, as where numbers come in their order.
fn row_for(rows: &VecDeque<Row>, bound: Ranked) -> usize
    requires ranked { IsRanked (flat rows.now.items) }
    requires filled { All (λ r. 0 < length r) rows.now.items }
    ensures { IsRowFor rows.now.items bound result }
{
    match rows.back() {
        Some(last) if last.ends_before(bound) => rows.len(),
        _ => rows.partition_point(|row| row.ends_before(bound)),
    }
}

/// Where `bound` stands or belongs.
pub(crate) fn spot(rows: &Rows, bound: Ranked) -> Spot
    requires { IsRanked (flat rows.now.rows) }
    ensures spot { IsSpot rows.now.rows result }
    ensures place { IsPlace (flat rows.now.rows) bound
        (start rows.now.rows result.row + result.place) }
{
    let rows = rows.rows();
    let row = row_for(rows, bound);
    let place = match rows.get(row) {
        Some(its) => its.place(bound),
        None => 0,
    };
    Spot { row, place }
}

/// Where `bound` stands or belongs, without a search where it is the first of all, as what comes due is.
#[tactic(auto, using(crate::proofs::Rulesets::spot_from_front))]
pub(crate) fn spot_from_front(rows: &Rows, bound: Ranked) -> Spot
    requires { IsRanked (flat rows.now.rows) }
    ensures spot { IsSpot rows.now.rows result }
    ensures place { IsPlace (flat rows.now.rows) bound
        (start rows.now.rows result.row + result.place) }
{
    if rows.first() == Some(bound) {
        return Spot { row: 0, place: 0 };
    }
    spot(rows, bound)
}

/// The first that doesn't stand before `bound`.
pub(crate) fn first_from(rows: &Rows, bound: Ranked) -> Option<Ranked>
    requires { IsRanked (flat rows.now.rows) }
    ensures some { IfSome result (IsFirstFrom (flat rows.now.rows) bound) }
    ensures none { IfNone result ((y : Ranked) → Contains (flat rows.now.rows) y → Before y bound) }
{
    let spot = spot(rows, bound);
    let row = rows.rows().get(spot.row)?;
    let first = row.entries().get(spot.place)?;
    Some(*first)
}

/// The numbers with the rank, from a spot on behind which none has a lower one.
pub(crate) fn ids_from(
    alloc: Global,
    rows: &VecDeque<Row>,
    spot: Spot,
    rank: u64,
) -> Result<Vec<u64>, AllocError>
    requires spot { IsSpot rows.now.items spot }
    requires filled { All (λ r. 0 < length r) rows.now.items }
    requires ranked { IsRanked (flat rows.now.items) }
    requires above { All (λ x. rank ≤ x.rank)
        (drop (start rows.now.items spot.row + spot.place) (flat rows.now.items)) }
    ensures { IfOk result (λ ids. ids.items
        ≡ ids_in_front (drop (start rows.now.items spot.row + spot.place) (flat rows.now.items))
        rank) }
{
    let Some(first) = rows.get(spot.row) else {
        return Ok(Vec::new(alloc));
    };
    let mut ids = front_ids(alloc, &first.entries()[spot.place..], rank)?;
    add_ids(alloc, &mut ids, rows, spot.row + 1, rank)?;
    Ok(ids)
}

/// Adds the numbers in front that have the rank, from a row on behind which none has a lower one.
fn add_ids(
    alloc: Global,
    ids: &mut Vec<u64>,
    rows: &VecDeque<Row>,
    from: usize,
    rank: u64,
) -> Result<(), AllocError>
    requires within { from ≤ length rows.now.items }
    requires filled { All (λ r. 0 < length r) rows.now.items }
    requires ahead { IsAhead rows.now.items from rank }
    ensures { OnOk result (ids.new.items
        ≡ ids.old.items ++ ids_in_front (flat (drop from rows.now.items)) rank) }
{
    for at in from..rows.len() {
        let row = &rows[at];
        if !row.begins_with(rank) {
            break;
        }
        let more = front_ids(alloc, row.entries(), rank)?;
        ids.extend_from_slice(&more)?;
    }
    Ok(())
}

/// The numbers in front that have the rank.
fn front_ids(alloc: Global, row: &[Ranked], rank: u64) -> Result<Vec<u64>, AllocError>
    ensures { IfOk result (λ ids. ids.items ≡ ids_in_front row.now rank) }
{
    row.iter()
        .take_while(|x| x.rank == rank)
        .map(|x| x.id)
        .collect(alloc)
}
