use crate::numbers::{Unit, meant};
use lab_iolog::MAX_WAIT;
use lab_outline::plain;
use lab_script::MAX_SLEEP;

/// The units of time that a number may count which stands without one.
pub const SCALES: [u64; 3] = [1_000_000, 1000, 1];

/// The microseconds that a word of a time may stand for, where it counts so many of them; nothing where that is
/// unlikely. A word with its own unit counts in it alone.
pub fn time_meant(word: &str, scale: u64) -> Option<u64> {
    match plain(word) {
        Some(number) => counted(number, scale),
        None => meant(word, Unit::Microseconds).filter(|_| scale == 1),
    }
}

/// So many units of time in microseconds, where a tester may have meant them: less than 100 seconds, 100 milliseconds
/// to a minute, or a millisecond and more.
fn counted(number: u64, scale: u64) -> Option<u64> {
    let likely = match scale {
        1_000_000 => (1..100).contains(&number),
        1000 => (100..=60_000).contains(&number),
        _ => 1000 <= number,
    };
    let time = number.checked_mul(scale)?;
    Some(time).filter(|it| likely && *it <= MAX_SLEEP.min(MAX_WAIT))
}
