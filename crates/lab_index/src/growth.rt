// How far a set grows.

ghost use Rattle.std.specs.Prelude.{◌≡◌, ◌-◌, ◌*◌, ◌^◌, ◌<◌, ◌≤◌, ◌++◌, IfOk, OnErr, length, replicate};

use crate::bits::WORD_BITS;
use lab_sector::NoMemory;
use std::alloc::Global;

/// The greatest height of a tree of counts: its set reaches to 2 ^ 30 numbers.
const MAX_HEIGHT: u32 = 24;

/// The height of a tree whose words reach to `reach`.
pub(crate) fn height_for(reach: u64) -> Result<u32, NoMemory>
    ensures enough { IfOk result (λ height. reach ≤ 64 * 2 ^ height) }
    ensures short { IfOk result (λ height. height ≤ 24) }
    ensures far { OnErr result (64 * 2 ^ 24 < reach) }
{
    for height in 0..MAX_HEIGHT + 1 {
        if reach.div_ceil(WORD_BITS) <= 1 << height {
            return Ok(height);
        }
    }
    Err(NoMemory)
}

/// The same words, with words of zero bits behind them up to `len`.
pub(crate) fn widened(alloc: Global, words: &[u64], len: usize) -> Result<Vec<u64>, NoMemory>
    requires { length words.now ≤ len }
    ensures { IfOk result
        (λ wide. wide.items ≡ words.now ++ replicate (len - length words.now) 0) }
{
    let mut wide = Vec::with_capacity(alloc, len)?;
    wide.extend_from_slice(words)?;
    wide.resize(len, 0)?;
    Ok(wide)
}
