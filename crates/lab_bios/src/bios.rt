ghost use Rattle.std.specs.Prelude.{◌≡◌, ◌+◌, ◌^◌, ◌<◌, ◌≤◌, ◌++◌, ◌∷◌, [], None, Some, option_map};
ghost use Rattle.std.specs.Prelude.{IfNone, IfSome, IsOk, OnOk, length, option_copied};
ghost use Rattle.std.specs.List.{list_any};
ghost use Rattle.lab_model.specs.Guard.{bio_may, is_bio, is_log};
ghost use Rattle.lab_model.specs.Lists.{change_numbered, numbered};
ghost use Rattle.lab_index.specs.Lists.{AreGoneFrom, IsNextFrom};
ghost use Rattle.lab_bios.specs.Children.{child_count, is_alone, parent_number};
ghost use Rattle.lab_bios.specs.Living.{living_of};
ghost use Rattle.lab_bios.specs.Tally.{is_log_within};
ghost use Rattle.lab_bios.specs.Views.{stage_of, with_stage};
ghost use Rattle.std.specs.Option.{option_flatten};

use crate::bio::{Bio, Living, Stage};
use crate::children::{count_less, count_more, is_of_bio, parent_number};
use crate::ended::Ended;
use crate::log_tally::LogTally;
use lab_index::Numbered;
use lab_sector::NoMemory;
use std::alloc::Global;
use std::marker::Model;
use std::mem::replace;

/// The bios of a run by their numbers, counted from 1. A number is never used again: where its bio is answered,
/// none lives any more. Only the living ones are kept.
#[derive(Drop)]
pub struct Bios {
    pub(crate) living: Numbered<Living>,
    /// How many bios live.
    count: u64,
    /// No living bio was made for a piece of a bio of a number above this.
    highest: u64,
    /// The logs that living bios were made for.
    logs: LogTally,
}

impl Model for Bios {
    ghost use Rattle.std.specs.Prelude.{min};
    ghost use Rattle.lab_bios.specs.Bios.{BioRow, IsKept};
    ghost use Rattle.lab_bios.specs.Living.{bios_of, counts_of};

    ghost Value = { BioRow };

    ghost view = { λ bios. record {
      items = bios_of bios.living.items;
      room = min bios.living.room bios.logs.room;
    } };

    ghost invariant = { λ bios. IsKept (bios_of bios.living.items)
        (counts_of bios.living.items) bios.count bios.highest bios.logs.logs };
}

impl Bios {
    /// No bios.
    pub fn new(alloc: Global) -> Bios
        ensures { result.items ≡ [] }
    {
        Bios {
            living: Numbered::new(alloc),
            count: 0,
            highest: 0,
            logs: LogTally::new(alloc),
        }
    }

    /// How many bios were made.
    #[inline]
    pub fn count(&self) -> u64
        ensures { result ≡ length self.now.items }
    {
        self.living.made()
    }

    /// The living bio of this number.
    #[inline(always)]
    pub fn get(&self, number: u64) -> Option<&Bio>
        ensures { option_copied result ≡ option_flatten (numbered self.now.items number) }
    {
        Some(&self.living.get(number)?.bio)
    }

    /// How many bios live.
    pub fn count_living(&self) -> u64
        ensures { result ≡ length (living_of self.now.items) }
    {
        self.count
    }

    /// The least number from `from` on whose bio lives.
    pub fn next_living(&self, from: u64) -> Option<u64>
        ensures next { IfSome result (IsNextFrom self.now.items from) }
        ensures none { IfNone result (AreGoneFrom self.now.items from) }
        ensures made { IfSome result (λ number. number ≤ length self.now.items) }
        ensures fits { IfSome result (λ number. number + 1 < 2 ^ 64) }
    {
        self.living.next(from)
    }

    /// Whether a living bio was made for a piece of the bio of this number.
    #[inline(always)]
    #[tactic(auto, using(crate::proofs::Rulesets::has_child))]
    pub fn has_child(&self, number: u64) -> bool
        ensures { result ≡ list_any (λ bio. is_bio number bio.parent) (living_of self.now.items) }
    {
        match self.living.get(number) {
            Some(living) => living.children > 0,
            None => self.count_children(number) > 0,
        }
    }

    /// Whether a living bio was made for the log of this number.
    pub fn has_log(&self, log: u64) -> bool
        ensures { result ≡ list_any (λ bio. is_log log bio.parent) (living_of self.now.items) }
    {
        self.logs.has(log)
    }

    /// Whether a living bio was made for one of the logs from 1 to this number.
    pub fn has_log_within(&self, count: u64) -> bool
        ensures { result
            ≡ list_any (λ bio. is_log_within count bio.parent) (living_of self.now.items) }
    {
        self.logs.has_within(count)
    }

    /// How many living bios were made for a piece of the bio of this number. For a number above each parent's they
    /// are not gone through.
    #[inline(always)]
    fn count_children(&self, number: u64) -> u64
        ensures { result ≡ child_count number self.now.items }
    {
        if self.highest < number {
            return 0;
        }
        self.count_each(number)
    }

    /// How many living bios were made for a piece of the bio of this number, as each of them is asked.
    #[cold]
    #[inline(never)]
    fn count_each(&self, number: u64) -> u64
        ensures { result ≡ child_count number self.now.items }
    {
        let mut count = 0u64;
        let mut from = 1;
        while let Some(child) = self.next_living(from) {
            if self.is_child(child, number) {
                count += 1;
            }
            from = child + 1;
        }
        count
    }

    /// Whether the living bio of a number was made for a piece of the bio of another.
    fn is_child(&self, child: u64, number: u64) -> bool
        ensures { result ≡ bio_may (option_flatten (numbered self.now.items child))
            (λ bio. is_bio number bio.parent) }
    {
        match self.get(child) {
            Some(bio) => is_of_bio(number, bio),
            None => false,
        }
    }

    /// The living bio of this number, if there is one, comes to another stage. The stage before is returned.
    pub fn set_stage(&mut self, number: u64, stage: Stage) -> Option<Stage>
        ensures before { option_map stage_of result
            ≡ option_map (λ bio. bio.stage) (option_flatten (numbered self.old.items number)) }
        ensures items { self.new.items
            ≡ change_numbered self.old.items number (option_map (with_stage (stage_of stage))) }
        ensures room { self.new.room ≡ self.old.room }
    {
        if self.living.get(number).is_none() {
            return None;
        }
        Some(come_to(&mut self.living.get_mut(number).bio, stage))
    }

    /// The living bio of this number, if there is one, lives no more. It is told what it was, and whether its parent is
    /// a living bio that has no child any more.
    #[inline(always)]
    pub fn end(&mut self, number: u64) -> Option<Ended>
        ensures device { option_map (λ ended. ended.device) result
            ≡ option_map (λ bio. bio.device) (option_flatten (numbered self.old.items number)) }
        ensures parent { option_map (λ ended. ended.parent) result
            ≡ option_map (λ bio. bio.parent) (option_flatten (numbered self.old.items number)) }
        ensures stage { option_map (λ ended. stage_of ended.stage) result
            ≡ option_map (λ bio. bio.stage) (option_flatten (numbered self.old.items number)) }
        ensures last { IfSome result (λ ended. ended.was_last
            ≡ is_alone (parent_number ended.parent) self.new.items self.new.items) }
        ensures gone { self.new.items ≡ change_numbered self.old.items number (λ _. None) }
    {
        let living = self.living.remove(number)?;
        let Bio {
            device,
            parent,
            stage,
            ..
        } = living.bio;
        self.count -= 1;
        let was_last = count_less(&mut self.living, parent_number(parent));
        self.logs.count_out(parent);
        Some(Ended {
            device,
            parent,
            stage,
            was_last,
        })
    }

    /// So many more bios need no more memory. Numbers from the greatest of 32 bits on are refused as memory is.
    pub fn reserve(&mut self, count: usize) -> Result<(), NoMemory>
        ensures room { OnOk result (count ≤ self.new.room) }
        ensures items { self.new.items ≡ self.old.items }
        ensures succeeds { count ≤ self.old.room → IsOk result }
    {
        self.living.reserve(count)?;
        self.logs.reserve(count)
    }

    /// The next number gets a bio, for which there is room. Whether its parent is a living bio that has no other child
    /// is told.
    #[inline(always)]
    pub fn push_in_room(&mut self, bio: Bio) -> bool
        requires { 0 < self.old.room }
        ensures items { self.new.items ≡ self.old.items ++ Some bio ∷ [] }
        ensures room { self.old.room ≤ self.new.room + 1 }
        ensures first { result
            ≡ is_alone (parent_number bio.parent) self.new.items self.old.items }
    {
        let parent = bio.parent;
        // In a run a parent is made before its children, so that none are gone through.
        let children = self.count_children(self.living.made() + 1);
        self.highest = self.highest.max(parent_number(parent));
        self.logs.count_in(parent);
        self.count += 1;
        self.living.push_in_room(Living { children, bio });
        count_more(&mut self.living, parent_number(parent))
    }
}

/// A bio comes to another stage. The stage before is returned.
fn come_to(bio: &mut Bio, stage: Stage) -> Stage
    ensures before { stage_of result ≡ bio.old.stage }
    ensures after { bio.new ≡ with_stage (stage_of stage) bio.old }
{
    replace(&mut bio.stage, stage)
}
