ghost use Rattle.std.specs.Prelude.{◌≡◌, IfOk};
ghost use Rattle.lab_state.specs.HeldRows.{AreHeldAt};

use crate::traffic::Traffic;
use lab_sector::NoMemory;
use lab_target::{Held, Target};
use std::alloc::Global;

impl<T: Target> Traffic<T> {
    /// How many reads, writes and trims, and flushes are held for each line of a device, of so many lines.
    ///
    /// The first call looks at each living bio; the others look at none, since the counts are kept from then on.
    pub fn held_by_line(
        &mut self,
        alloc: Global,
        device: u32,
        lines: usize,
    ) -> Result<Vec<Held>, NoMemory>
        ensures same { self.new ≡ self.old }
        ensures counts { IfOk result (λ held. AreHeldAt self.old.bios device lines held.items) }
    {
        self.held.keep(alloc, &self.bios, device, lines)?;
        self.held.counts(alloc, device, lines)
    }
}
