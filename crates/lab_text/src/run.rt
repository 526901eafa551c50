ghost use Rattle.std.specs.Prelude.{None, ◌≡◌, ◌<◌, ◌≤◌, ℕ, List, [], ◌∷◌, ◌++◌, ◌==◌, ◌+◌, ◌-◌, length, replicate, vec_len, vec_capacity, All, IfOk, IfSome, MatchOption, OnOk, OnErr};
ghost use Rattle.std.specs.List.{prefix_len};
ghost use Rattle.std.specs.Char.{digit_char};
ghost use Rattle.lab_text.specs.Runs.{runs_list, spelled, NeighboursDiffer, run_text, runs_text};
ghost use Rattle.lab_text.specs.Packed.{unpacked, before_others};
ghost use Rattle.lab_text.specs.Extends.{Extends};

use super::numbers::push_number;
use super::packed::{first_packed, push_packed};
use lab_sector::NoMemory;
use std::alloc::Global;
use std::marker::Model;

/// Bytes of one value that follow one another.
#[derive(Clone, Copy, Debug, PartialEq, Eq)]
pub struct Run {
    /// How many bytes.
    pub count: u64,
    /// The value of each.
    pub value: u8,
}

/// The runs of some bytes, in order.
///
/// All but the last are packed, so that the runs take no more bytes than their text. One run takes
/// no memory of its own.
#[derive(Debug, Drop)]
pub struct Runs {
    /// The packed runs before the last.
    packed: Vec<u8>,
    /// The last run, with no byte where there is none.
    last: Run,
}

impl Model for Runs {
    ghost use Rattle.std.specs.Prelude.{List, None, ◌++◌};
    ghost use Rattle.lab_text.specs.declared.run.Run.{Run};
    ghost use Rattle.lab_text.specs.Packed.{AreKept, unpacked, if_filled};

    ghost Value = { List Run };

    ghost view = { λ s. unpacked None s.packed.items ++ if_filled s.last };

    ghost invariant = { λ s. AreKept s.packed.items s.last };
}

impl Runs {
    /// The runs of no bytes. They take no memory.
    pub fn none(alloc: Global) -> Runs
        ensures { result ≡ [] }
    {
        Runs {
            packed: Vec::new(alloc),
            last: Run { count: 0, value: 0 },
        }
    }

    /// So many more bytes of one value follow: the last run gets longer if it has this value. No
    /// bytes change nothing. A run too long for 64 bits is refused as want of memory is.
    #[inline]
    pub fn push(&mut self, count: u64, value: u8) -> Result<(), NoMemory>
        ensures ok { OnOk result ((bytes : List ℕ) → self.old ≡ runs_list bytes
            → self.new ≡ runs_list (bytes ++ replicate count value)) }
        ensures err { OnErr result (self.new ≡ self.old) }
    {
        if count == 0 {
            return Ok(());
        }
        if self.last.count == 0 {
            self.last = Run { count, value };
            return Ok(());
        }
        if self.last.value == value {
            self.last.count = self.last.count.checked_add(count).ok_or(NoMemory)?;
            return Ok(());
        }
        push_packed(&mut self.packed, self.last)?;
        self.last = Run { count, value };
        Ok(())
    }

    /// These bytes follow, in their longest runs.
    pub fn extend(&mut self, bytes: &[u8]) -> Result<(), NoMemory>
        ensures { OnOk result ((before : List ℕ) → self.old ≡ runs_list before
            → self.new ≡ runs_list (before ++ bytes.now)) }
    {
        let mut rest = bytes;
        while let Some((run, after)) = first_run(rest) {
            self.push(run.count, run.value)?;
            rest = after;
        }
        Ok(())
    }
}

/// The longest runs of one value that the bytes are made of, in order.
pub fn runs_of(alloc: Global, bytes: &[u8]) -> Result<Runs, NoMemory>
    ensures exact { IfOk result (λ runs. runs ≡ runs_list bytes.now) }

    // What the runs are, without the word above.
    ensures spelled { IfOk result (λ runs. spelled runs ≡ bytes.now) }
    ensures filled { IfOk result (λ runs. All (λ run. 0 < run.count) runs) }
    ensures longest { IfOk result (λ runs. NeighboursDiffer runs) }
{
    let mut runs = Runs::none(alloc);
    runs.extend(bytes)?;
    Ok(runs)
}

/// The longest run at the front of the bytes and the bytes after it, or `None` where there is no
/// byte.
fn first_run(bytes: &[u8]) -> Option<(Run, &[u8])>
    ensures first { MatchOption result (bytes.now ≡ [])
        (λ p. runs_list bytes.now ≡ p.0 ∷ runs_list p.1.now) }
    ensures shorter { IfSome result (λ p. length p.1.now < length bytes.now) }
{
    let (first, _others) = bytes.split_first()?;
    let count = run_len(bytes, *first);
    let run = Run {
        count: count as u64,
        value: *first,
    };
    Some((run, &bytes[count..]))
}

/// How many bytes of the value stand at the front.
fn run_len(bytes: &[u8], value: u8) -> usize
    ensures exact { result ≡ prefix_len (λ byte. byte == value) bytes.now }
    ensures within { result ≤ length bytes.now }
{
    let rest = behind_blocks(bytes, value);
    bytes.len() - rest.len() + front_len(rest, value)
}

/// How many bytes of the value stand at the front, counted one by one.
fn front_len(bytes: &[u8], value: u8) -> usize
    ensures exact { result ≡ prefix_len (λ byte. byte == value) bytes.now }
    ensures within { result ≤ length bytes.now }
{
    bytes.iter().take_while(|byte| **byte == value).count()
}

/// The bytes behind the blocks of 64 bytes of the value that stand at the front.
fn behind_blocks(bytes: &[u8], value: u8) -> &[u8]
    ensures same { prefix_len (λ byte. byte == value) bytes.now ≡ length bytes.now
        - length result.now + prefix_len (λ byte. byte == value) result.now }
    ensures within { length result.now ≤ length bytes.now }
{
    let mut rest = bytes;
    'blocks: while let Some(after) = behind_block(rest, value) {
        rest = after;
    }
    rest
}

/// The bytes behind a block of 64 bytes of the value, if it stands at the front.
fn behind_block(bytes: &[u8], value: u8) -> Option<&[u8]>
    ensures { IfSome result (λ after. bytes.now ≡ replicate 64 value ++ after.now) }
{
    let (block, after) = bytes.split_first_chunk::<64>()?;
    if *block == [value; 64] {
        Some(after)
    } else {
        None
    }
}

/// Appends the runs' text: for each its count, `x` and its value in two lower-case hexadecimal
/// digits, with one space between two runs. A refusal leaves `out` as it was.
pub fn push_runs(out: &mut Vec<u8>, runs: &Runs) -> Result<(), NoMemory>
    ensures ok { OnOk result (out.new.items ≡ out.old.items ++ runs_text runs.now) }
    ensures err { OnErr result (out.new.items ≡ out.old.items) }

    // Only where there was no room for the text.
    ensures full { OnErr result
        (vec_capacity out.old < vec_len out.old + length (runs_text runs.now)) }
{
    let before = out.len();
    let pushed = push_each_run(out, runs);
    if pushed.is_err() {
        out.truncate(before);
    }
    pushed
}

/// Appends the runs' text, or a part of it where memory runs out.
fn push_each_run(out: &mut Vec<u8>, runs: &Runs) -> Result<(), NoMemory>
    ensures ok { OnOk result (out.new.items ≡ out.old.items ++ runs_text runs.now) }
    ensures err { OnErr result (Extends out.old.items out.new.items) }
    ensures full { OnErr result
        (vec_capacity out.old < vec_len out.old + length (runs_text runs.now)) }
{
    if runs.last.count == 0 {
        return Ok(());
    }
    push_packed_runs(out, &runs.packed)?;
    push_run(out, &runs.last)
}

/// Appends the text of packed runs, with a space behind each, or a part of it where memory runs
/// out.
fn push_packed_runs(out: &mut Vec<u8>, packed: &[u8]) -> Result<(), NoMemory>
    ensures ok { OnOk result
        (out.new.items ≡ out.old.items ++ before_others (unpacked None packed.now)) }
    ensures err { OnErr result (Extends out.old.items out.new.items) }
    ensures full { OnErr result (vec_capacity out.old
        < vec_len out.old + length (before_others (unpacked None packed.now))) }
    ensures len { OnOk result (vec_len out.new
        ≡ vec_len out.old + length (before_others (unpacked None packed.now))) }
    ensures capacity { vec_capacity out.old ≤ vec_capacity out.new }
{
    let mut rest = packed;
    while let Some((run, after)) = first_packed(rest) {
        push_run(out, &run)?;
        out.push(b' ')?;
        rest = after;
    }
    Ok(())
}

/// Appends the text of one run, or a part of it where memory runs out.
fn push_run(out: &mut Vec<u8>, run: &Run) -> Result<(), NoMemory>
    ensures ok { OnOk result (out.new.items ≡ out.old.items ++ run_text run.now) }
    ensures err { OnErr result (Extends out.old.items out.new.items) }
    ensures full { OnErr result
        (vec_capacity out.old < vec_len out.old + length (run_text run.now)) }
    ensures len { OnOk result (vec_len out.new ≡ vec_len out.old + length (run_text run.now)) }
    ensures capacity { vec_capacity out.old ≤ vec_capacity out.new }
{
    push_number(out, run.count)?;
    let digits = [b'x', hex_digit(run.value / 16), hex_digit(run.value % 16)];
    out.extend_from_slice(&digits)?;
    Ok(())
}

/// The lower-case hexadecimal digit of a number below 16.
fn hex_digit(digit: u8) -> u8
    requires { digit < 16 }
    ensures { result ≡ digit_char digit }
{
    if digit < 10 {
        b'0' + digit
    } else {
        b'a' + (digit - 10)
    }
}
