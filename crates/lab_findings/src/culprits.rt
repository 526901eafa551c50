ghost use Rattle.std.specs.Prelude.{◌≡◌, OnOk};
ghost use Rattle.lab_findings.specs.Culprits.{culprit_at, no_culprits, with_culprit};

use crate::culprit::Culprit;
use lab_sector::NoMemory;
use std::alloc::Global;
use std::collections::HashMap;
use std::marker::Model;

/// Which line did something to sectors of operations, by the number of the operation's bio and the sector, counted from
/// the operation's first.
#[derive(Drop)]
pub(crate) struct Culprits {
    entries: HashMap<(u64, u128), Culprit>,
}

impl Model for Culprits {
    ghost use Rattle.lab_findings.specs.Culprits.{Culprits as Known, culprits_code, culprits_in};

    ghost Value = { Known };

    ghost coded = { culprits_code };

    ghost view = { λ culprits. culprits_in culprits.entries };
}

impl Culprits {
    /// No line did anything.
    pub(crate) fn new(alloc: Global) -> Culprits
        ensures { result ≡ no_culprits }
    {
        Culprits {
            entries: HashMap::new(alloc),
        }
    }

    /// The line that did something to this sector.
    pub(crate) fn get(&self, number: u64, sector: u128) -> Option<Culprit>
        ensures { result ≡ culprit_at self.now number sector }
    {
        self.entries.get(&(number, sector)).copied()
    }

    /// A line did something to this sector; whichever did before is forgotten.
    pub(crate) fn set(
        &mut self,
        number: u64,
        sector: u128,
        culprit: Culprit,
    ) -> Result<(), NoMemory>
        ensures { OnOk result (self.new ≡ with_culprit self.old number sector culprit) }
    {
        self.entries.insert((number, sector), culprit)?;
        Ok(())
    }
}
