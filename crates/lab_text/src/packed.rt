ghost use Rattle.std.specs.Prelude.{◌≡◌, ◌+◌, ◌<◌, ◌≤◌, ◌^◌, decimal, ℕ, [], ◌∷◌, ◌++◌, length, None, Some, IfSome, MatchOption, OnOk, OnErr};
ghost use Rattle.lab_text.specs.Packed.{unpacked, begun_after, run_of, with_digit};
ghost use Rattle.lab_text.specs.Runs.{run_text};
ghost use Rattle.lab_text.specs.Extends.{Extends};

use super::run::Run;
use lab_sector::NoMemory;

/// Appends a run in few bytes: its value, and its count in digits of 7 bits, the highest first. All
/// digits but the last have the top bit. A refusal leaves `packed` as it was.
#[inline]
pub(crate) fn push_packed(packed: &mut Vec<u8>, run: Run) -> Result<(), NoMemory>
    ensures whole { OnOk result (begun_after None packed.old.items ≡ None
        → begun_after None packed.new.items ≡ None) }
    ensures runs { OnOk result (begun_after None packed.old.items ≡ None
        → unpacked None packed.new.items ≡ unpacked None packed.old.items ++ run ∷ []) }
    ensures err { OnErr result (packed.new.items ≡ packed.old.items) }

    // No more bytes than the run's text has.
    ensures few { OnOk result
        (length packed.new.items ≤ length packed.old.items + length (run_text run)) }
{
    if run.count < 128 {
        packed.extend_from_slice(&[run.value, run.count as u8])?;
        return Ok(());
    }
    let before = packed.len();
    let pushed = push_long(packed, run);
    if pushed.is_err() {
        packed.truncate(before);
    }
    pushed
}

/// Appends a run whose count has several digits, or a part of it where memory runs out.
fn push_long(packed: &mut Vec<u8>, run: Run) -> Result<(), NoMemory>
    requires { 128 ≤ run.count }
    ensures whole { OnOk result (begun_after None packed.old.items ≡ None
        → begun_after None packed.new.items ≡ None) }
    ensures runs { OnOk result (begun_after None packed.old.items ≡ None
        → unpacked None packed.new.items ≡ unpacked None packed.old.items ++ run ∷ []) }
    ensures err { Extends packed.old.items packed.new.items }
    ensures few { OnOk result (length packed.new.items
        ≤ length packed.old.items + length (decimal run.count) + 1) }
{
    packed.push(run.value)?;
    push_digits(packed, run.count / 128)?;
    packed.push((run.count % 128) as u8)?;
    Ok(())
}

/// Appends the digits of a number that others follow, the highest first, or some of them where
/// memory runs out.
fn push_digits(packed: &mut Vec<u8>, number: u64) -> Result<(), NoMemory>
    requires { number < 2 ^ 57 }
    ensures begun { OnOk result ((value : ℕ)
        → begun_after None packed.old.items ≡ Some (run_of 0 value)
        → begun_after None packed.new.items ≡ Some (run_of number value)) }
    ensures runs { OnOk result ((value : ℕ)
        → begun_after None packed.old.items ≡ Some (run_of 0 value)
        → unpacked None packed.new.items ≡ unpacked None packed.old.items) }
    ensures err { Extends packed.old.items packed.new.items }
    ensures few { OnOk result
        (length packed.new.items ≤ length packed.old.items + length (decimal number)) }
{
    if 128 <= number {
        push_digits(packed, number / 128)?;
    }
    packed.push((number % 128) as u8 + 128)?;
    Ok(())
}

/// The first packed run and the bytes behind it, or `None` where no whole run is left.
pub(crate) fn first_packed(bytes: &[u8]) -> Option<(Run, &[u8])>
    ensures first { MatchOption result (unpacked None bytes.now ≡ [])
        (λ p. unpacked None bytes.now ≡ p.0 ∷ unpacked None p.1.now) }
    ensures shorter { IfSome result (λ p. length p.1.now < length bytes.now) }
{
    let (value, digits) = bytes.split_first()?;
    let mut run = Run {
        count: 0,
        value: *value,
    };
    let mut rest = digits;
    while let Some((digit, after)) = rest.split_first() {
        run.count = with_digit(run.count, *digit);
        if *digit < 128 {
            return Some((run, after));
        }
        rest = after;
    }
    None
}

/// The count with one more digit behind it.
#[inline]
fn with_digit(count: u64, digit: u8) -> u64
    ensures { result ≡ with_digit count digit }
{
    count % (1 << 57) * 128 + u64::from(digit % 128)
}
