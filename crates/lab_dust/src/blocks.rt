ghost use Rattle.std.specs.Prelude.{◌≡◌, [], length, IfOk, OnOk, OnErr};
ghost use Rattle.std.specs.Prelude.{◌==◌, filter, not};
ghost use Rattle.std.specs.BTreeSet.{insert_key};
ghost use Rattle.std.specs.Ordering.{nat_cmp};
ghost use Rattle.lab_dust.specs.Dust.{is_listed, list_text};

use lab_sector::NoMemory;
use lab_text::{push_number, push_numbered};
use std::alloc::Global;
use std::collections::BTreeSet;
use std::marker::Model;

/// The listed blocks, rising.
#[derive(Drop)]
pub(crate) struct Blocks {
    /// The numbers of the blocks.
    set: BTreeSet<u64>,
}

impl Model for Blocks {
    ghost use Rattle.std.specs.Prelude.{ℕ, List};
    ghost use Rattle.std.specs.Ordering.{nat_cmp};
    ghost use Rattle.std.specs.BTreeSet.{IsOrdered};

    ghost Value = { List ℕ };

    ghost view = { λ blocks. blocks.set.keys };

    ghost invariant = { λ blocks. IsOrdered nat_cmp blocks.set };
}

impl Blocks {
    /// No block.
    pub(crate) fn new(alloc: Global) -> Blocks
        ensures { result ≡ [] }
    {
        Blocks {
            set: BTreeSet::new(alloc),
        }
    }

    /// How many blocks are listed.
    pub(crate) fn len(&self) -> usize
        ensures { result ≡ length self.now }
    {
        self.set.len()
    }

    /// Whether the block is listed.
    pub(crate) fn contains(&self, block: u64) -> bool
        ensures { result ≡ is_listed block self.now }
    {
        self.set.contains(&block)
    }

    /// Lists the block. A refusal leaves the list as it was.
    pub(crate) fn insert(&mut self, block: u64) -> Result<(), NoMemory>
        ensures ok { OnOk result (self.new ≡ insert_key nat_cmp self.old block) }
        ensures err { OnErr result (self.new ≡ self.old) }
    {
        self.set.insert(block)?;
        Ok(())
    }

    /// Takes the block off the list.
    #[tactic(auto, using(crate::proofs::Rulesets::remove))]
    pub(crate) fn remove(&mut self, block: u64)
        ensures { self.new ≡ filter (λ listed. not (listed == block)) self.old }
    {
        self.set.remove(&block);
    }

    /// Takes all blocks off the list.
    pub(crate) fn clear(&mut self)
        ensures { self.new ≡ [] }
    {
        self.set.clear();
    }

    /// The blocks in rising order with a space between, or `none`.
    pub(crate) fn print(&self, alloc: Global) -> Result<Vec<u8>, NoMemory>
        ensures { IfOk result (λ text. text.items ≡ list_text self.now) }
    {
        let mut blocks = self.set.iter();
        let Some(first) = blocks.next() else {
            return Ok(Vec::from_slice(alloc, b"none")?);
        };
        let mut text = Vec::new(alloc);
        push_number(&mut text, *first)?;
        for block in blocks {
            push_numbered(&mut text, b" ", *block)?;
        }
        Ok(text)
    }
}
