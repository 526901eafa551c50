use lab_outline::plain;

/// What a number at its place counts.
#[derive(Clone, Copy)]
pub enum Unit {
    Sectors,
    Bytes,
    Seconds,
    Milliseconds,
    Microseconds,
}

/// The number that a word with a sign, a suffix or hexadecimal digits stands for; nothing for another word, a plain
/// number among them.
pub fn meant(word: &str, unit: Unit) -> Option<u64> {
    if let Some(hex) = word.strip_prefix("0x").or(word.strip_prefix("0X")) {
        return u64::from_str_radix(hex, 16).ok();
    }
    if let Some(unsigned) = word.strip_prefix("+") {
        return plain(unsigned);
    }
    with_suffix(word, unit)
        .or(with_point(word, unit))
        .or(with_exponent(word))
}

/// The number of a word of digits with a power of ten behind them, as `1e6`.
fn with_exponent(word: &str) -> Option<u64> {
    let (digits, power) = word.split_once('e')?;
    let mut number = plain(digits)?;
    let power = plain(power).filter(|it| *it <= 19)?;
    for _tenfold in 0..power {
        number = number.checked_mul(10)?;
    }
    Some(number)
}

/// Whether a word is a number with commas before each three of its digits.
pub(crate) fn has_thousands(word: &str) -> bool {
    let mut groups = word.split(',');
    let first = groups.next().unwrap_or("");
    let is_begun = (1..=3).contains(&first.len())
        && !first.starts_with('0')
        && plain(first).is_some();
    is_begun
        && word.contains(',')
        && groups.all(|digits| digits.len() == 3 && plain(digits).is_some())
}

/// The number of a word of digits, a point, at most three digits and a suffix, where it is a whole one in this unit.
fn with_point(word: &str, unit: Unit) -> Option<u64> {
    let (whole, rest) = word.split_once('.')?;
    let suffix = rest.trim_start_matches(|c: char| c.is_ascii_digit());
    let digits = rest.strip_suffix(suffix)?;
    let parts = match digits.len() {
        1 => 10u64,
        2 => 100,
        3 => 1000,
        _ => return None,
    };
    let number = plain(whole)?
        .checked_mul(parts)?
        .checked_add(plain(digits)?)?;
    let scaled = number.checked_mul(scale_of_point(suffix, unit)?)?;
    let count = scaled.checked_div(parts)?;
    if count.checked_mul(parts) == Some(scaled) {
        Some(count)
    } else {
        None
    }
}

/// How many of the unit a suffix behind a point stands for: a time without one is in seconds, as for `sleep` in a shell.
fn scale_of_point(suffix: &str, unit: Unit) -> Option<u64> {
    match unit {
        Unit::Microseconds if suffix.is_empty() => Some(1_000_000),
        _ => scale(suffix, unit),
    }
}

/// Whether a word is a number with a point, and without a suffix.
pub fn has_point(word: &str) -> bool {
    match word.split_once('.') {
        Some((whole, digits)) => plain(whole).is_some() && plain(digits).is_some(),
        None => false,
    }
}

/// The number of a word of digits and a suffix.
fn with_suffix(word: &str, unit: Unit) -> Option<u64> {
    let suffix = word.trim_start_matches(|c: char| c.is_ascii_digit());
    let number = plain(word.strip_suffix(suffix)?)?;
    if matches!(unit, Unit::Sectors) && matches!(suffix, "b" | "B" | "byte" | "bytes") {
        return Some(number / 512);
    }
    number.checked_mul(scale(suffix, unit)?)
}

/// How many of the unit a suffix stands for.
fn scale(suffix: &str, unit: Unit) -> Option<u64> {
    match unit {
        Unit::Sectors => sectors(suffix),
        Unit::Bytes => bytes(suffix),
        Unit::Seconds => seconds(suffix),
        Unit::Milliseconds => milliseconds(suffix),
        Unit::Microseconds => microseconds(suffix),
    }
}

/// How many sectors of 512 bytes a suffix stands for.
fn sectors(suffix: &str) -> Option<u64> {
    match suffix {
        "s" | "S" | "sector" | "sectors" => Some(1),
        _ => Some(bytes(suffix)? / 512).filter(|count| *count != 0),
    }
}

/// How many bytes a suffix stands for.
fn bytes(suffix: &str) -> Option<u64> {
    match suffix {
        "b" | "B" | "byte" | "bytes" => Some(1),
        "s" | "S" | "sector" | "sectors" => Some(512),
        "k" | "K" | "kb" | "kB" | "KB" | "kiB" | "KiB" => Some(1024),
        "m" | "M" | "mb" | "MB" | "MiB" => Some(1_048_576),
        "g" | "G" | "gb" | "GB" | "GiB" => Some(1_073_741_824),
        _ => None,
    }
}

/// How many seconds a suffix stands for.
fn seconds(suffix: &str) -> Option<u64> {
    match suffix {
        "s" | "sec" | "secs" | "second" | "seconds" => Some(1),
        "m" | "min" | "minute" | "minutes" => Some(60),
        "h" | "hour" | "hours" => Some(3600),
        _ => None,
    }
}

/// How many milliseconds a suffix stands for.
fn milliseconds(suffix: &str) -> Option<u64> {
    match suffix {
        "ms" | "msec" | "msecs" | "millisecond" | "milliseconds" => Some(1),
        _ => Some(seconds(suffix)?.saturating_mul(1000)),
    }
}

/// How many microseconds a suffix stands for.
fn microseconds(suffix: &str) -> Option<u64> {
    match suffix {
        "us" | "usec" | "usecs" | "microsecond" | "microseconds" => Some(1),
        _ => Some(milliseconds(suffix)?.saturating_mul(1000)),
    }
}
