ghost use Rattle.std.specs.Prelude.{◌≡◌};
ghost use Rattle.lab_model.specs.Owner.{parent_of};
ghost use Rattle.lab_bios.specs.Origin.{log_of, state_with};

use crate::bios::Bios;
use lab_model::Parent;

impl Bios {
    /// The log that the bio of this number comes from; 0, which no log has, where there is none. Each parent has a
    /// lower number than its child.
    pub fn log_of(&self, number: u64) -> u32
        ensures { result ≡ log_of self.now.items number }
    {
        let mut parent = self.parent_of(number);
        let mut left = number;
        while let Some(Parent::FromBio(above, _)) = parent {
            if left == 0 {
                return 0;
            }
            left -= 1;
            parent = self.parent_of(above);
        }
        match parent {
            Some(Parent::FromLog(log, _, _)) => log,
            _ => 0,
        }
    }

    /// The parent of the bio of this number.
    fn parent_of(&self, number: u64) -> Option<Parent>
        ensures { result ≡ parent_of (state_with self.now.items) number }
    {
        let bio = self.get(number)?;
        Some(bio.parent)
    }
}
