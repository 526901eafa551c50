ghost use Rattle.std.specs.Prelude.{◌≡◌, OnOk, true};
ghost use Rattle.lab_findings.specs.Deeds.{NoneBehind, deed_of, no_deeds, with_deed};
ghost use Rattle.lab_findings.specs.Settled.{closed_deed};

use lab_next::Origin;
use lab_sector::NoMemory;
use std::alloc::Global;
use std::collections::HashMap;
use std::marker::Model;

/// An operation of a log, from when it is issued on.
#[derive(Clone, Copy, Debug, PartialEq, Eq)]
pub(crate) struct Deed {
    /// The number of its bio: it was issued when that one was made.
    pub(crate) bio: u64,
    /// Its device, as the number of a grid.
    pub(crate) device: u64,
    /// Its first sector there.
    pub(crate) first: u64,
    /// Whether it is a trim.
    pub(crate) trims: bool,
    /// When it was issued, in microseconds.
    pub(crate) issued: u64,
    /// How many bios had been made when it was answered, if it was.
    pub(crate) made: Option<u64>,
    /// Its first lost sector, counted from its first, if it was answered without failure and lost one.
    pub(crate) lost: Option<u64>,
}

/// The operations that were issued, by log and line.
#[derive(Drop)]
pub(crate) struct Deeds {
    entries: HashMap<(u32, u64), Deed>,
    /// None has a bio of a greater number.
    latest: u64,
}

impl Model for Deeds {
    ghost use Rattle.lab_findings.specs.Deeds.{Deeds as Known, NoneBehind, deeds_code, deeds_in};

    ghost Value = { Known };

    ghost coded = { deeds_code };

    ghost view = { λ deeds. deeds_in deeds.entries };

    ghost invariant = { λ deeds. NoneBehind (deeds_in deeds.entries) deeds.latest };
}

impl Deeds {
    /// None was issued.
    pub(crate) fn new(alloc: Global) -> Deeds
        ensures { result ≡ no_deeds }
    {
        Deeds {
            entries: HashMap::new(alloc),
            latest: 0,
        }
    }

    /// What is known of an operation, if it was issued.
    pub(crate) fn get(&self, origin: Origin) -> Option<Deed>
        ensures { result ≡ deed_of self.now origin }
    {
        self.entries.get(&(origin.log, origin.line)).copied()
    }

    /// Puts down what is known of an operation.
    pub(crate) fn set(&mut self, origin: Origin, deed: Deed) -> Result<(), NoMemory>
        ensures { OnOk result (self.new ≡ with_deed self.old origin deed) }
    {
        self.entries.insert((origin.log, origin.line), deed)?;
        self.latest = self.latest.max(deed.bio);
        Ok(())
    }

    /// Whether it is seen at once that no operation was issued after the bio of a number was made.
    pub(crate) fn is_latest(&self, number: u64) -> bool
        ensures { result ≡ true → NoneBehind self.now number }
    {
        self.latest <= number
    }

    /// An operation, if it was issued, is answered once so many bios are made, and its first lost sector is known.
    pub(crate) fn close(&mut self, origin: Origin, made: u64, lost: Option<u64>)
        ensures { self.new ≡ closed_deed self.old origin made lost (deed_of self.old origin) }
    {
        if let Some(deed) = self.entries.get_mut(&(origin.log, origin.line)) {
            deed.made = Some(made);
            deed.lost = lost;
        }
    }
}
