ghost use Rattle.std.specs.Prelude.{IsTrue, ◌*◌, ◌≡◌, ◌++◌, ◌+◌, ◌^◌, ◌<◌, ◌≤◌, decimal, length, vec_len, vec_capacity, IfSome, OnOk, OnErr, MatchOption};
ghost use Rattle.std.specs.List.{list_all};
ghost use Rattle.std.specs.Char.{is_ascii_digit, digit_value};
ghost use Rattle.std.specs.Str.Parse.{digits_value};
ghost use Rattle.lab_text.specs.Numbers.{is_number, number_of, number_to};

use itoa::Buffer;
use lab_sector::NoMemory;
use thiserror::Error;

/// Why a word is no number of its range.
#[derive(Clone, Copy, Debug, PartialEq, Eq, Error)]
pub enum NumberFault {
    /// It isn't 1 to 20 decimal digits.
    #[error("a number is 1 to 20 decimal digits")]
    NotANumber,
    /// It is above the greatest value that may stand there.
    #[error("the number is too large")]
    TooLarge,
}

/// The greatest number of digits of a number.
const MAX_DIGITS: usize = 20;

/// The number that the word's 1 to 20 decimal digits say, if it is at most `max`. Leading zeros
/// are allowed, and a sign isn't.
#[tactic(auto, unfolding(crate::specs::Numbers::number_of))]
pub fn number(word: &[u8], max: u64) -> Result<u64, NumberFault>
    ensures { result ≡ number_of word.now max }
{
    if !is_number(word) {
        return Err(NumberFault::NotANumber);
    }
    match digits_value(word) {
        Some(value) if value <= max => Ok(value),
        _ => Err(NumberFault::TooLarge),
    }
}

/// The number that the word spells, if it is one of at most `max`.
#[tactic(auto, using(crate::proofs::Rulesets::number_to))]
pub fn number_to(word: &[u8], max: u64) -> Option<u64>
    ensures exact { result ≡ number_to max word.now }
    ensures within { IfSome result (λ n. n ≤ max) }
{
    number(word, max).ok()
}

/// Whether the word is 1 to 20 decimal digits.
fn is_number(word: &[u8]) -> bool
    ensures { result ≡ is_number word.now }
{
    0 < word.len() && word.len() <= MAX_DIGITS && is_digits(word)
}

/// Whether each byte is a decimal digit.
fn is_digits(word: &[u8]) -> bool
    ensures { result ≡ list_all is_ascii_digit word.now }
{
    word.iter().all(|byte| byte.is_ascii_digit())
}

/// The number that the digits say, or `None` where it doesn't fit 64 bits.
#[tactic(auto, using(crate::proofs::Rulesets::digits_value))]
fn digits_value(digits: &[u8]) -> Option<u64>
    requires { IsTrue (list_all is_ascii_digit digits.now) }
    ensures { MatchOption result (2 ^ 64 ≤ digits_value 10 digits.now)
        (λ value. value ≡ digits_value 10 digits.now) }
{
    let mut value = 0;
    for digit in digits {
        value = with_digit(value, *digit)?;
    }
    Some(value)
}

/// The number that one more digit makes of the number, or `None` where it doesn't fit 64 bits.
fn with_digit(value: u64, digit: u8) -> Option<u64>
    requires { IsTrue (is_ascii_digit digit) }
    ensures { MatchOption result (2 ^ 64 ≤ value * 10 + digit_value digit)
        (λ more. more ≡ value * 10 + digit_value digit) }
{
    value.checked_mul(10)?.checked_add(u64::from(digit - b'0'))
}

/// Appends the number in decimal, without leading zeros. A refusal leaves `out` as it was.
pub fn push_number(out: &mut Vec<u8>, n: u64) -> Result<(), NoMemory>
    ensures ok { OnOk result (out.new.items ≡ out.old.items ++ decimal n) }
    ensures err { OnErr result (out.new.items ≡ out.old.items) }

    // Only where there was no room for the digits.
    ensures full { OnErr result (vec_capacity out.old < vec_len out.old + length (decimal n)) }
    ensures len { OnOk result (vec_len out.new ≡ vec_len out.old + length (decimal n)) }
    ensures capacity { vec_capacity out.old ≤ vec_capacity out.new }
{
    let mut buffer = Buffer::new();
    out.extend_from_slice(buffer.format(n).as_bytes())?;
    Ok(())
}

/// Appends a word and a number right behind it. A refusal leaves `out` as it was.
pub fn push_numbered(out: &mut Vec<u8>, word: &[u8], n: u64) -> Result<(), NoMemory>
    ensures ok { OnOk result (out.new.items ≡ out.old.items ++ word.now ++ decimal n) }
    ensures err { OnErr result (out.new.items ≡ out.old.items) }

    // Only where there was no room for both.
    ensures full { OnErr result
        (vec_capacity out.old < vec_len out.old + length (word.now ++ decimal n)) }
    ensures len { OnOk result (vec_len out.new ≡ vec_len out.old + length (word.now ++ decimal n)) }
    ensures capacity { vec_capacity out.old ≤ vec_capacity out.new }
{
    let before = out.len();
    out.extend_from_slice(word)?;
    let pushed = push_number(out, n);
    if pushed.is_err() {
        out.truncate(before);
    }
    pushed
}
