ghost use Rattle.std.specs.Prelude.{◌≡◌, false};
ghost use Rattle.std.specs.Option.{option_map_or};
ghost use Rattle.lab_sector.specs.declared.request.Kind.TheVariants.{Write};
ghost use Rattle.lab_flakey.specs.Flakey.{is_interval};
ghost use Rattle.lab_flakey.specs.Features.{chance_of, conflicts, drops, fails, has_none, is_of_kind};

use crate::feature::{Corruption, Direction, Features};
use lab_sector::Kind;

/// The greatest number of seconds of both intervals together.
pub const MAX_SECONDS: u64 = 4_294_967_295;

/// Whether a line may be up and down for so many seconds.
pub(crate) fn is_interval(up: u32, down: u32) -> bool
    ensures { result ≡ is_interval up down }
{
    let both = u64::from(up) + u64::from(down);
    1 <= both && both <= MAX_SECONDS
}

/// Whether two features are given that don't go together.
pub(crate) fn conflicts(features: &Features) -> bool
    ensures { result ≡ conflicts features.now }
{
    (features.drop_writes && features.error_writes)
        || (corrupts_writes(features.corrupt) && (features.drop_writes || features.error_writes))
}

/// Whether a fixed corruption is one of writes.
fn corrupts_writes(corrupt: Option<Corruption>) -> bool
    ensures { result ≡ option_map_or (λ c. is_of_kind c.direction Write) corrupt false }
{
    match corrupt {
        None => false,
        Some(corruption) => is_of_kind(corruption.direction, Kind::Write),
    }
}

/// Whether a corruption of this direction is one of this kind.
pub(crate) fn is_of_kind(direction: Direction, kind: Kind) -> bool
    ensures { result ≡ is_of_kind direction kind }
{
    matches!(
        (direction, kind),
        (Direction::Reads, Kind::Read) | (Direction::Writes, Kind::Write)
    )
}

/// Whether no feature is given.
fn has_none(features: &Features) -> bool
    ensures { result ≡ has_none features.now }
{
    !(features.error_reads
        || features.drop_writes
        || features.error_writes
        || features.corrupt.is_some()
        || features.random_read.is_some()
        || features.random_write.is_some())
}

/// Whether a piece of this kind fails while the line is down.
pub(crate) fn fails(features: &Features, kind: Kind) -> bool
    ensures { result ≡ fails features.now kind }
{
    match kind {
        Kind::Read => has_none(features) || features.error_reads,
        Kind::Write | Kind::Trim | Kind::Flush => has_none(features) || features.error_writes,
    }
}

/// Whether a piece of this kind is dropped while the line is down.
pub(crate) fn drops(features: &Features, kind: Kind) -> bool
    ensures { result ≡ drops features.now kind }
{
    match kind {
        Kind::Read => false,
        Kind::Write | Kind::Trim | Kind::Flush => features.drop_writes,
    }
}

/// The chance that a byte of this kind is corrupted.
pub(crate) fn chance_of(features: &Features, kind: Kind) -> Option<u32>
    ensures { result ≡ chance_of features.now kind }
{
    match kind {
        Kind::Read => features.random_read,
        Kind::Write => features.random_write,
        Kind::Trim | Kind::Flush => None,
    }
}
