ghost use Rattle.std.specs.Prelude.{◌≡◌, ◌≢◌, ◌<◌, ◌≤◌, ◌+◌, ◌-◌, IfOk, MatchResult, OnErr, List, ℕ, ◌++◌, vec_len};
ghost use Rattle.std.specs.Io.KnownBytes.{Consumes, IsAtEnd};
ghost use Rattle.dmlab_run.specs.Counting.{IsOpen, IsUncalled, ReadsWithin, counted_fault};
ghost use Rattle.dmlab_run.specs.Moved.{ConsumesUpTo};
ghost use Rattle.dmlab_run.specs.Running.{IsInput};

use crate::Counted;
use std::alloc::{AllocError, Global};
use std::io::Read;

/// How many bytes are read at most: one more than a bundle may have, so that a bundle that is too
/// big is known for one.
pub const MOST: usize = 16_777_217;

// How many bytes one read asks for at most.
const PIECE: usize = 32768;

/// Why the input was not read.
#[derive(Clone, Copy, Debug, PartialEq, Eq)]
pub enum InputFault {
    /// A growth was refused.
    NoMemory,
    /// A read failed.
    Read,
}

impl From<AllocError> for InputFault {
    ghost use Rattle.dmlab_run.specs.declared.input.InputFault.TheVariants.{NoMemory};

    ghost from_gives = { λ _ e. e ≡ NoMemory };

    fn from(_refused: AllocError) -> InputFault {
        InputFault::NoMemory
    }
}

/// The bytes of the input up to its end, or its first `MOST` bytes. No read is tried again.
pub fn read_input<R: Read>(alloc: Global, input: &mut Counted<R>) -> Result<Vec<u8>, InputFault>
    requires { IsUncalled input.old }
    ensures bytes { IfOk result (λ bytes. Consumes (R.remaining input.old.inner)
        (R.remaining input.new.inner) bytes.items) }
    ensures end { IfOk result (λ bytes. vec_len bytes < MOST
        → IsAtEnd (R.remaining input.new.inner)) }
    ensures most { IfOk result (λ bytes. vec_len bytes ≤ MOST) }
    ensures read { IfOk result (λ bytes. IsInput (R.remaining input.old.inner) bytes.items) }
    ensures err { OnErr result (ConsumesUpTo MOST (R.remaining input.old.inner)
        (R.remaining input.new.inner)) }
    ensures failures { MatchResult result (λ _. input.new.failures ≡ input.old.failures)
        (λ e. input.new.failures ≡ counted_fault input.old.failures e) }
    ensures calls { ReadsWithin MOST input.new }
    ensures count { IfOk result (λ bytes. input.new.bytes ≡ vec_len bytes) }
{
    let mut bytes = Vec::new(alloc);
    while bytes.len() < MOST {
        if read_piece(&mut bytes, input)? == 0 {
            break;
        }
    }
    Ok(bytes)
}

// Reads once, and adds what came; the number of bytes, 0 at the end of the input.
fn read_piece<R: Read>(bytes: &mut Vec<u8>, input: &mut Counted<R>) -> Result<usize, InputFault>
    requires room { vec_len bytes.old < MOST }
    requires going { IsOpen input.old (vec_len bytes.old) }
    ensures len { IfOk result (λ n. vec_len bytes.new ≡ vec_len bytes.old + n) }
    ensures most { IfOk result (λ _. vec_len bytes.new ≤ MOST) }
    ensures added { IfOk result (λ _. (piece : List ℕ)
        × (bytes.new.items ≡ bytes.old.items ++ piece)
        × Consumes (R.remaining input.old.inner) (R.remaining input.new.inner) piece) }
    ensures end { IfOk result (λ n. n ≡ 0 → IsAtEnd (R.remaining input.new.inner)) }
    ensures err { OnErr result (ConsumesUpTo (MOST - vec_len bytes.old)
        (R.remaining input.old.inner) (R.remaining input.new.inner)) }
    ensures failures { MatchResult result (λ _. input.new.failures ≡ input.old.failures)
        (λ e. input.new.failures ≡ counted_fault input.old.failures e) }
    ensures calls { ReadsWithin MOST input.new }
    ensures count { IfOk result (λ _. input.new.bytes ≡ vec_len bytes.new) }
    ensures going { IfOk result (λ n. n ≢ 0 → IsOpen input.new (vec_len bytes.new)) }
{
    let mut piece = [0u8; PIECE];
    let room = PIECE.min(MOST - bytes.len());
    let count = input
        .read(&mut piece[..room])
        .map_err(|_| InputFault::Read)?;
    bytes.extend_from_slice(&piece[..count])?;
    Ok(count)
}
