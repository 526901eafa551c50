ghost use Rattle.std.specs.Prelude.{◌≡◌, ℕ, ◌+◌, ◌<◌, ◌≤◌, IfNone, IfSome, IsOk, None, OnErr, OnOk, Some};
ghost use Rattle.std.specs.FinMap as map;

use crate::ranking::{Ranked, Ranking};
use lab_sector::NoMemory;
use std::alloc::Global;
use std::marker::Model;

/// A number that is held, with its moment.
#[derive(Clone, Copy, Debug, PartialEq, Eq)]
pub struct Due {
    /// The moment at which it is due, in microseconds.
    pub moment: u64,
    /// The number.
    pub number: u64,
}

/// Numbers that wait, each for its due moment alone, which their caller knows where it takes one out.
///
/// Room for more is reserved ahead, so that a number can be held without memory.
#[derive(Drop)]
pub struct MomentQueue {
    /// For how many more the ranking has room.
    spare: usize,
    /// The numbers ranked by their moments.
    by_moment: Ranking,
}

impl Model for MomentQueue {
    ghost use Rattle.lab_queue.specs.Moments.{Moments, moments_code};

    ghost Value = { Moments };

    ghost coded = { moments_code };

    ghost use Rattle.lab_queue.specs.Moments.{IsMoments, moments_in};

    ghost view = { λ q. record { due = moments_in q.by_moment.row; spare = q.spare } };

    ghost invariant = { λ q. IsMoments q.spare q.by_moment };
}

impl MomentQueue {
    ghost use Rattle.lab_queue.specs.Moments.{IsFirstBy, IsFirstMoment};

    /// An empty queue, with no room.
    #[tactic(auto, using(crate::proofs::Rulesets::no_moments))]
    pub fn new(alloc: Global) -> MomentQueue
        ensures due { result.due ≡ map.empty }
        ensures spare { result.spare ≡ 0 }
    {
        MomentQueue {
            spare: 0,
            by_moment: Ranking::new(alloc),
        }
    }

    /// Makes room for at least `n` more numbers.
    pub fn reserve(&mut self, n: usize) -> Result<(), NoMemory>
        ensures due { self.new.due ≡ self.old.due }
        ensures ok { OnOk result (n ≤ self.new.spare) }
        ensures spare { self.old.spare ≤ self.new.spare }
        ensures err { OnErr result (self.new ≡ self.old) }
        ensures succeeds { n ≤ self.old.spare → IsOk result }
    {
        if n <= self.spare {
            return Ok(());
        }
        self.by_moment.reserve(n)?;
        self.spare = n;
        Ok(())
    }

    /// Holds a number that isn't held, until it is due, in reserved room.
    pub fn hold(&mut self, number: u64, moment: u64)
        requires room { 0 < self.old.spare }
        requires free { map.get self.old.due number ≡ None }
        ensures due { self.new.due ≡ map.insert self.old.due number moment }
        ensures spare { self.old.spare ≡ self.new.spare + 1 }
    {
        self.by_moment.insert(Ranked {
            rank: moment,
            id: number,
        });
        self.spare -= 1;
    }

    /// Takes a number out that is held until this moment.
    pub fn take(&mut self, number: u64, moment: u64)
        requires { map.get self.old.due number ≡ Some moment }
        ensures due { self.new.due ≡ map.remove self.old.due number }
        ensures spare { self.new.spare ≡ self.old.spare }
    {
        self.by_moment.remove(Ranked {
            rank: moment,
            id: number,
        });
    }

    /// The least due moment of all that is held.
    #[inline]
    pub fn first_due(&self) -> Option<u64>
        ensures some { IfSome result (IsFirstMoment self.now.due) }
        ensures none { IfNone result ((number : ℕ) → map.get self.now.due number ≡ None) }
    {
        let lowest = self.by_moment.first()?;
        Some(lowest.rank)
    }

    /// The number with the least moment, and then the least number, of those due by `now`.
    pub fn least_due(&self, now: u64) -> Option<Due>
        ensures some { IfSome result (IsFirstBy self.now.due now) }
        ensures none { IfNone result ((number moment : ℕ)
            → map.get self.now.due number ≡ Some moment → now < moment) }
    {
        let first = self.by_moment.first()?;
        if first.rank > now {
            return None;
        }
        Some(Due {
            moment: first.rank,
            number: first.id,
        })
    }
}
