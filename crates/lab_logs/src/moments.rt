ghost use Rattle.std.specs.Prelude.{◌≡◌};
ghost use Rattle.lab_logs.specs.Moments.{lesser as lesser_of};

/// The lesser of a moment, if it is later than now, and another, in microseconds.
pub fn lesser(now: u64, moment: u64, other: Option<u64>) -> Option<u64>
    ensures { result ≡ lesser_of now moment other }
{
    match other {
        _ if moment <= now => other,
        Some(other) => Some(moment.min(other)),
        None => Some(moment),
    }
}
