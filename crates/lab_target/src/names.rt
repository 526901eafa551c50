ghost use Rattle.std.specs.Prelude.{◌≡◌, ◌++◌, ◌+◌, ◌<◌, ℕ, List, Option, OnOk, OnErr, codes};
ghost use Rattle.std.specs.Prelude.{length, vec_capacity, vec_len};
ghost use Rattle.lab_sector.specs.declared.device.DevNo.{DevNo};
ghost use Rattle.std.specs.Option.{option_copied};
ghost use Rattle.lab_target.specs.DeviceWords.{name_after, number_after};
ghost use Rattle.lab_target.specs.Reading.{device_text};

use lab_sector::{DevNo, NoMemory};
use lab_text::{is_name, number, push_numbered};

/// The names that stand at one moment.
pub trait Names {
    /// The device that each word names.
    ghost found: { Self → List ℕ → Option DevNo };

    /// The device that a word names, if it names one.
    fn find(&self, word: &[u8]) -> Option<DevNo>
        ensures { result ≡ found self.now word.now };
}

/// N of the path `/dev/ramN`, if the word is one.
pub fn ram_path(word: &[u8]) -> Option<u32>
    ensures { result ≡ number_after (codes "/dev/ram") word.now }
{
    number_behind(word, b"/dev/ram")
}

/// N of the path `/dev/dm-N`, if the word is one.
pub fn mapped_path(word: &[u8]) -> Option<u32>
    ensures { result ≡ number_after (codes "/dev/dm-") word.now }
{
    number_behind(word, b"/dev/dm-")
}

/// NAME of the path `/dev/mapper/NAME`, if the word is one.
pub fn name_path(word: &[u8]) -> Option<&[u8]>
    ensures { option_copied result ≡ name_after (codes "/dev/mapper/") word.now }
{
    let name = word.strip_prefix(b"/dev/mapper/")?;
    if is_name(name) { Some(name) } else { None }
}

/// N of the number `1:N` of a memory disk, if the word is one.
pub fn ram_number(word: &[u8]) -> Option<u32>
    ensures { result ≡ number_after (codes "1:") word.now }
{
    number_behind(word, b"1:")
}

/// N of the number `253:N` of a mapped device, if the word is one.
pub fn mapped_number(word: &[u8]) -> Option<u32>
    ensures { result ≡ number_after (codes "253:") word.now }
{
    number_behind(word, b"253:")
}

/// The device number behind a prefix, in decimal digits.
#[tactic(auto, unfolding(lab_text::specs::Numbers::number_of))]
fn number_behind(word: &[u8], prefix: &[u8]) -> Option<u32>
    ensures { result ≡ number_after prefix.now word.now }
{
    let digits = word.strip_prefix(prefix)?;
    match number(digits, 4_294_967_295) {
        Ok(n) => Some(n as u32),
        Err(_) => None,
    }
}

/// Prints a device's number, as `1:N` or `253:N`. A refusal leaves `out` as it was.
pub fn push_device(out: &mut Vec<u8>, dev: DevNo) -> Result<(), NoMemory>
    ensures ok { OnOk result (out.new.items ≡ out.old.items ++ device_text dev) }
    ensures err { OnErr result (out.new.items ≡ out.old.items) }

    // Only where there was no room for the text.
    ensures full { OnErr result (vec_capacity out.old < vec_len out.old + length (device_text dev)) }
{
    match dev {
        DevNo::Ram(n) => push_numbered(out, b"1:", u64::from(n)),
        DevNo::Dm(n) => push_numbered(out, b"253:", u64::from(n)),
    }
}
