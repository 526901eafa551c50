//! The names that the tests' lines and tables are read under.

ghost use Rattle.std.specs.Prelude.{Some, None, codes};
ghost use Rattle.std.specs.Option.{option_map};
ghost use Rattle.lab_sector.specs.declared.device.DevNo.TheVariants.{Ram};
ghost use Rattle.lab_target.specs.DeviceWords.{number_after};

use lab_sector::DevNo;
use lab_target::{Names, ram_path};

/// Names under which each word is the first memory disk.
pub(super) struct AllRam0;

impl Names for AllRam0 {
    ghost found = { λ names word. Some (Ram 0) };

    fn find(&self, _word: &[u8]) -> Option<DevNo> {
        Some(DevNo::Ram(0))
    }
}

/// Names of no device.
pub(super) struct NoNames;

impl Names for NoNames {
    ghost found = { λ names word. None };

    fn find(&self, _word: &[u8]) -> Option<DevNo> {
        None
    }
}

/// Names under which `/dev/ramN` is the memory disk of that number, and nothing else is a device.
pub(super) struct Disks;

impl Names for Disks {
    ghost found = { λ names word. option_map Ram (number_after (codes "/dev/ram") word) };

    fn find(&self, word: &[u8]) -> Option<DevNo> {
        ram_path(word).map(DevNo::Ram)
    }
}
