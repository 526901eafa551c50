// The logs in the order of their moments, so that those whose moment lies ahead are found by a search.

ghost use Rattle.std.specs.Prelude.{◌≡◌, ◌≤◌, ◌<◌, ◌↔◌, ◌∷◌, [], All, Contains, IfNone, IfSome, OnErr, OnOk};
ghost use Rattle.std.specs.Prelude.{length, map, nat_lt, slice_index_or};
ghost use Rattle.std.specs.List.{list_any};
ghost use Rattle.std.specs.List.Sorted.{IsPartitionPoint, IsPermutation};
ghost use Rattle.lab_logs.specs.Agenda.{HasInPlaceOf, IsInOrder, IsInOrderBut, due_at};

use lab_sector::NoMemory;
use std::alloc::Global;
use std::marker::Model;

/// When a log is due: it takes no line before its moment, in microseconds.
#[derive(Clone, Copy, Debug, PartialEq, Eq)]
pub struct Due {
    pub moment: u64,
    /// The log's number.
    pub log: u32,
}

/// When the logs are due, the earliest first.
#[derive(Drop)]
pub(crate) struct Agenda {
    rows: Vec<Due>,
}

impl Model for Agenda {
    ghost use Rattle.std.specs.Prelude.{List};
    ghost use Rattle.lab_logs.specs.Agenda.{IsInOrder};
    ghost use Rattle.lab_logs.specs.declared.agenda.Due.{Due};

    ghost Value = { List Due };

    ghost view = { λ agenda. agenda.rows.items };

    ghost invariant = { λ agenda. IsInOrder agenda.rows.items };
}

impl Agenda {
    /// Of no log.
    pub(crate) fn new(alloc: Global) -> Agenda
        ensures { result ≡ [] }
    {
        Agenda {
            rows: Vec::new(alloc),
        }
    }

    /// One log more is due, behind all that are due by then.
    #[tactic(auto, using(crate::proofs::Rulesets::add))]
    pub(crate) fn add(&mut self, due: Due) -> Result<(), NoMemory>
        ensures ok { OnOk result (IsPermutation (due ∷ self.old) self.new) }
        ensures err { OnErr result (self.new ≡ self.old) }
    {
        let place = self.count_until(due.moment);
        self.rows.insert(place, due)?;
        Ok(())
    }

    /// All logs are due at this moment.
    #[tactic(auto, using(crate::proofs::Moves::together))]
    pub(crate) fn start(&mut self, now: u64)
        ensures { self.new ≡ map (due_at now) self.old }
    {
        set_moments(&mut self.rows, now);
    }

    /// The first that is due later than now.
    pub(crate) fn first_after(&self, now: u64) -> Option<Due>
        ensures some { IfSome result (λ due. Contains self.now due × (now < due.moment)) }
        ensures first { IfSome result (λ due.
            All (λ other. now < other.moment → due.moment ≤ other.moment) self.now) }
        ensures none { IfNone result (All (λ other. other.moment ≤ now) self.now) }
    {
        if !self.is_one_ahead(now) {
            return None;
        }
        let due = self.rows.get(self.count_until(now))?;
        Some(*due)
    }

    /// Whether one is due later than now: then the last one is. So nothing is searched for where none is.
    #[inline(always)]
    pub(crate) fn is_one_ahead(&self, now: u64) -> bool
        ensures { result ≡ list_any (λ due. nat_lt now due.moment) self.now }
    {
        let count = self.rows.len();
        count > 0 && now < self.rows[count - 1].moment
    }

    /// Those that are due later than a moment and by another.
    pub(crate) fn between(&self, since: u64, now: u64) -> &[Due]
        ensures { (due : Due) → Contains result.now due
            ↔ (Contains self.now due × (since < due.moment) × (due.moment ≤ now)) }
    {
        let end = self.count_until(now);
        let start = self.count_until(since).min(end);
        &self.rows[start..end]
    }

    /// A log that is due gets a later moment.
    pub(crate) fn postpone(&mut self, due: Due, moment: u64)
        requires there { Contains self.old due }
        requires later { due.moment ≤ moment }
        ensures { HasInPlaceOf self.old due (due_at moment due) self.new }
    {
        let place = self.place_of(due);
        self.rows[place].moment = moment;
        move_back(&mut self.rows, place);
    }

    /// How many are due by this moment.
    fn count_until(&self, moment: u64) -> usize
        ensures within { result ≤ length self.now }
        ensures cut { IsPartitionPoint (λ due. due.moment ≤ moment) (λ due. moment < due.moment)
            self.now result }
    {
        self.rows.partition_point(|due| due.moment <= moment)
    }

    /// The place of one that is there. It is looked for among those of its moment alone.
    fn place_of(&self, due: Due) -> usize
        requires { Contains self.now due }
        ensures within { result < length self.now }
        ensures is { slice_index_or self.now result due ≡ due }
    {
        let first = match due.moment.checked_sub(1) {
            Some(before) => self.count_until(before),
            None => 0,
        };
        for place in first..self.rows.len() {
            if self.rows[place] == due {
                return place;
            }
        }
        unreachable!();
    }
}

/// Each gets this moment.
fn set_moments(rows: &mut Vec<Due>, moment: u64)
    ensures { rows.new.items ≡ map (due_at moment) rows.old.items }
{
    for due in rows.iter_mut() {
        due.moment = moment;
    }
}

/// One that has become later goes behind those that are due before it.
fn move_back(rows: &mut [Due], from: usize)
    requires within { from < length rows.old }
    requires others { IsInOrderBut rows.old from }
    ensures order { IsInOrder rows.new }
    ensures same { IsPermutation rows.old rows.new }
{
    for place in from + 1..rows.len() {
        if rows[place - 1].moment <= rows[place].moment {
            return;
        }
        rows.swap(place - 1, place);
    }
}
