ghost use Rattle.std.specs.Prelude.{◌≡◌, ◌+◌, ◌-◌, ◌<◌, ◌≤◌, ℕ, [], IsOk, OnOk, nat_lt};
ghost use Rattle.std.specs.Prelude.{vec_capacity, vec_len};
ghost use Rattle.std.specs.List.{list_any};
ghost use Rattle.std.specs.List.Sorted.{IsNonDecreasing, IsPartitionPoint};
ghost use Rattle.lab_bios.specs.Tally.{is_within, one_at, one_for, times};

use lab_index::WordSet;
use lab_model::Parent;
use lab_sector::NoMemory;
use std::alloc::Global;
use std::marker::Model;

/// The numbers below this are looked up by a bit.
const LOW_END: u64 = 64;

/// Logs are numbered from this on.
const FIRST_LOG: u64 = 1;

/// The numbers of logs in order, each once for each living bio that was made for the log.
#[derive(Debug, Drop)]
pub(crate) struct LogTally {
    /// They don't fall.
    logs: Vec<u64>,
    /// Those of them below 64.
    low: WordSet,
}

impl Model for LogTally {
    ghost use Rattle.std.specs.Prelude.{◌-◌, vec_capacity, vec_len};
    ghost use Rattle.lab_bios.specs.Tally.{IsTallied, TallyRow};

    ghost Value = { TallyRow };

    ghost view = { λ tally. record {
      logs = tally.logs.items;
      room = vec_capacity tally.logs - vec_len tally.logs;
    } };

    ghost invariant = { λ tally. IsTallied tally.logs.items tally.low };
}

impl LogTally {
    /// No numbers.
    pub(crate) fn new(alloc: Global) -> LogTally
        ensures { result.logs ≡ [] }
    {
        LogTally {
            logs: Vec::new(alloc),
            low: WordSet::new(),
        }
    }

    /// So many more numbers need no more memory.
    pub(crate) fn reserve(&mut self, count: usize) -> Result<(), NoMemory>
        ensures logs { self.new.logs ≡ self.old.logs }
        ensures room { OnOk result (count ≤ self.new.room) }
        ensures grows { self.old.room ≤ self.new.room }
        ensures succeeds { count ≤ self.old.room → IsOk result }
    {
        Ok(self.logs.reserve(count)?)
    }

    /// Whether the number stands there.
    pub(crate) fn has(&self, log: u64) -> bool
        ensures { result ≡ nat_lt 0 (times log self.now.logs) }
    {
        if log < LOW_END {
            self.low.contains(log)
        } else {
            self.logs.binary_search(&log).is_ok()
        }
    }

    /// Whether one of the numbers from 1 to this one stands there. The least from 1 on is asked, and no other.
    pub(crate) fn has_within(&self, count: u64) -> bool
        ensures { result ≡ list_any (is_within count) self.now.logs }
    {
        match self.logs.get(self.first_place()) {
            Some(least) => *least <= count,
            None => false,
        }
    }

    /// The place of the first number from 1 on. It is searched for only where 0 stands before it, which no log has.
    fn first_place(&self) -> usize
        ensures { IsPartitionPoint (λ number. number < 1) (λ number. 1 ≤ number)
            self.now.logs result }
    {
        if self.low.contains(0) {
            self.logs.partition_point(|number| *number < FIRST_LOG)
        } else {
            0
        }
    }

    /// A bio of this parent lives from now on, for which there is room.
    #[inline(always)]
    pub(crate) fn count_in(&mut self, parent: Parent)
        requires { 0 < self.old.room }
        ensures times { (log : ℕ) → times log self.new.logs
            ≡ times log self.old.logs + one_for log parent }
        ensures room { self.old.room ≤ self.new.room + 1 }
    {
        if let Parent::FromLog(log, _, _) = parent {
            self.insert(u64::from(log));
        }
    }

    /// A bio of this parent lives no more.
    #[inline(always)]
    pub(crate) fn count_out(&mut self, parent: Parent)
        requires { (log : ℕ) → one_for log parent ≤ times log self.old.logs }
        ensures { (log : ℕ) → times log self.new.logs + one_for log parent
            ≡ times log self.old.logs }
    {
        if let Parent::FromLog(log, _, _) = parent {
            self.remove(u64::from(log));
        }
    }

    /// The number stands there once more, for which there is room.
    fn insert(&mut self, log: u64)
        requires { 0 < self.old.room }
        ensures times { (other : ℕ) → times other self.new.logs
            ≡ times other self.old.logs + one_at other log }
        ensures room { self.old.room ≤ self.new.room + 1 }
    {
        put_in(&mut self.logs, log);
        if log < LOW_END {
            self.low.insert(log);
        }
    }

    /// The number stands there once less.
    fn remove(&mut self, log: u64)
        requires { 0 < times log self.old.logs }
        ensures { (other : ℕ) → times other self.new.logs + one_at other log
            ≡ times other self.old.logs }
    {
        take_out(&mut self.logs, log);
        if log < LOW_END && self.logs.binary_search(&log).is_err() {
            self.low.remove(log);
        }
    }
}

/// The number stands once more among these, which don't fall, and for which there is room.
fn put_in(logs: &mut Vec<u64>, log: u64)
    requires rises { IsNonDecreasing logs.old.items }
    requires room { 0 < vec_capacity logs.old - vec_len logs.old }
    ensures rises { IsNonDecreasing logs.new.items }
    ensures times { (other : ℕ) → times other logs.new.items
        ≡ times other logs.old.items + one_at other log }
    ensures room { vec_capacity logs.old - vec_len logs.old
        ≤ vec_capacity logs.new - vec_len logs.new + 1 }
{
    let place = logs.partition_point(
        |number: &u64| -> bool
            ensures { result ≡ nat_lt number.now log }
        { *number < log },
    );
    let Ok(()) = logs.insert(place, log) else {
        unreachable!();
    };
}

/// The number stands once less among these, which don't fall.
fn take_out(logs: &mut Vec<u64>, log: u64)
    requires rises { IsNonDecreasing logs.old.items }
    requires stands { 0 < times log logs.old.items }
    ensures rises { IsNonDecreasing logs.new.items }
    ensures times { (other : ℕ) → times other logs.new.items + one_at other log
        ≡ times other logs.old.items }
{
    let Ok(place) = logs.binary_search(&log) else {
        unreachable!();
    };
    logs.remove(place);
}
