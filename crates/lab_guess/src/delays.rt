use lab_delay::LONGEST_DELAY;
use lab_outline::plain;

/// How many microseconds a millisecond has.
const MICROSECONDS: u64 = 1000;

/// The milliseconds of a delay past its limit that seems to be in microseconds: it is a number of whole milliseconds, and
/// of no whole hours if they were that.
pub fn milliseconds_meant(word: &str) -> Option<u64> {
    let number = plain(word).filter(|it| LONGEST_DELAY < *it)?;
    let is_meant = number % MICROSECONDS == 0 && number % LONGEST_DELAY != 0;
    let delay = number / MICROSECONDS;
    if is_meant && delay <= LONGEST_DELAY {
        Some(delay)
    } else {
        None
    }
}
