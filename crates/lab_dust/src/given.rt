ghost use Rattle.std.specs.Prelude.{◌≡◌, ◌≤◌, ◌*◌, ◌^◌, ℕ, IfOk, MatchResult, Ok, Err, true};
ghost use Rattle.lab_text.specs.Words.{words_left};
ghost use Rattle.lab_target.specs.Laws.{greatest_sector};
ghost use Rattle.lab_dust.specs.Dust.{arguments, drafted, is_block_size};

use lab_sector::{MAX_SECTOR, SECTOR_BYTES};
use lab_target::TargetFault;
use lab_text::{Words, number};

/// The least size of a block, in bytes.
const MIN_BLOCK: u64 = 512;

/// The greatest size of a block, in bytes.
pub const MAX_BLOCK: u64 = 1_073_741_824;

/// What a dust line's words say before its device is known.
#[derive(Clone, Copy)]
pub(crate) struct Given<'a> {
    /// The device word.
    pub(crate) device: &'a [u8],
    /// The offset, in sectors.
    pub(crate) first: u64,
    /// How often a sector is doubled to a block.
    pub(crate) shift: u32,
}

/// The device word, the offset and the block size of a line's words after its type.
#[tactic(auto, using(crate::proofs::Rulesets::read_given))]
pub(crate) fn read_given<'a>(mut words: Words<'a>) -> Result<Given<'a>, TargetFault>
    ensures near { IfOk result (λ line. line.first ≤ greatest_sector) }
    ensures sized { IfOk result (λ line. line.shift ≤ 21) }
    ensures line { (len : ℕ) → MatchResult result
        (λ line. arguments len (words_left words.entry)
        ≡ Ok (drafted line.device.now line.first (512 * 2 ^ line.shift) len))
        (λ fault. arguments len (words_left words.entry) ≡ Err fault) }
{
    let (Some(device), Some(offset), Some(size), None) = (
        words.next(),
        words.next(),
        words.next(),
        words.next(),
    ) else {
        return Err(TargetFault::Args);
    };
    let (Ok(first), Ok(size)) = (
        number(offset, MAX_SECTOR),
        number(size, u64::from(u32::MAX)),
    ) else {
        return Err(TargetFault::Number);
    };
    if !is_block_size(size) {
        return Err(TargetFault::BlockSize);
    }
    Ok(Given {
        device,
        first,
        shift: doublings(size),
    })
}

/// Whether a block may have so many bytes: a power of two from 512 to 1073741824 (dm-dust).
fn is_block_size(size: u64) -> bool
    ensures { result ≡ is_block_size size }
{
    size.is_power_of_two() && MIN_BLOCK <= size && size <= MAX_BLOCK
}

/// How often a sector is doubled to a block of so many bytes.
fn doublings(size: u64) -> u32
    requires { is_block_size size ≡ true }
    ensures few { result ≤ 21 }
    ensures all { 512 * 2 ^ result ≡ size }
{
    (size / SECTOR_BYTES).trailing_zeros()
}
