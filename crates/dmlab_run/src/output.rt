ghost use Rattle.std.specs.Prelude.{◌≡◌, ◌<◌, MatchResult, OnOk, length};
ghost use Rattle.std.specs.Io.KnownBytes.{Appends};
ghost use Rattle.dmlab_run.specs.Counting.{IsUncalled, WritesInOrder, counted_up};
ghost use Rattle.dmlab_run.specs.Moved.{AppendsFront};

use crate::Counted;
use std::io::Write;

/// A write failed, or took no byte.
#[derive(Clone, Copy, Debug, PartialEq, Eq)]
pub struct OutputFault;

/// Writes the whole text, piece by piece. No write is tried again after a failure.
pub fn write_output<W: Write>(output: &mut Counted<W>, text: &[u8]) -> Result<(), OutputFault>
    requires { IsUncalled output.old }
    ensures ok { OnOk result (Appends (W.contents output.old.inner)
        (W.contents output.new.inner) text.now) }
    ensures front { AppendsFront (W.contents output.old.inner)
        (W.contents output.new.inner) text.now }
    ensures failures { MatchResult result (λ _. output.new.failures ≡ output.old.failures)
        (λ _. output.new.failures ≡ counted_up output.old.failures) }
    ensures order { WritesInOrder output.new }
    ensures count { MatchResult result (λ _. output.new.bytes ≡ length text.now)
        (λ _. output.new.bytes < length text.now) }
{
    let mut rest = text;
    while !rest.is_empty() {
        match output.write(rest) {
            Ok(0) | Err(_) => return Err(OutputFault),
            Ok(count) => rest = &rest[count..],
        }
    }
    Ok(())
}
