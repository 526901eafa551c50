ghost use Rattle.std.specs.Prelude.{◌≡◌};
ghost use Rattle.lab_model.specs.Owner.{parent_of};
ghost use Rattle.lab_next.specs.Origins.{origin_of, root_of, writer_of};

use crate::bios::place_in;
use crate::writer::Writer;
use lab_bios::Parent;
use lab_state::State;
use lab_target::Target;

/// Where a bio comes from: an operation of a log.
#[derive(Clone, Copy, Debug, PartialEq, Eq)]
pub struct Origin {
    /// The log, counted from 1.
    pub log: u32,
    /// The line in the log's part, counted from 1.
    pub line: u64,
}

/// The bio by which a log issued an operation, and the sector of it with which another bio of it begins.
#[derive(Clone, Copy, Debug, PartialEq, Eq)]
pub struct Root {
    /// The number of the bio that the log issued.
    pub number: u64,
    /// The sector of the operation.
    pub writer: Writer,
}

/// The operation that the bio of this number comes from.
pub fn origin_of<T: Target>(state: &State<T>, number: u64) -> Option<Origin>
    ensures origin { result ≡ origin_of state.now number }
{
    match root_of(state, number) {
        Some(root) => Some(root.writer.origin),
        None => None,
    }
}

/// The sector of an operation with which the bio of this number begins.
pub fn writer_of<T: Target>(state: &State<T>, number: u64) -> Option<Writer>
    ensures writer { result ≡ writer_of state.now number }
{
    match root_of(state, number) {
        Some(root) => Some(root.writer),
        None => None,
    }
}

/// The bio that the bio of this number is a piece of in the end, and the sector of the operation with which it begins.
/// Each parent has a lower number than its child.
pub fn root_of<T: Target>(state: &State<T>, number: u64) -> Option<Root>
    ensures { result ≡ root_of state.now number }
{
    let mut parent = parent_of(state, number);
    let mut own = number;
    let mut left = number;
    let mut sector: u128 = 0;
    while let Some(Parent::FromBio(above, piece)) = parent {
        left = left.checked_sub(1)?;
        sector += u128::from(place_in(piece, state.traffic.get(above)));
        own = above;
        parent = parent_of(state, above);
    }
    match parent {
        Some(Parent::FromLog(log, line, _)) => Some(Root {
            number: own,
            writer: Writer {
                origin: Origin { log, line },
                sector,
            },
        }),
        _ => None,
    }
}

/// The parent of the bio of this number.
pub fn parent_of<T: Target>(state: &State<T>, number: u64) -> Option<Parent>
    ensures parent { result ≡ parent_of state.now number }
{
    let bio = state.traffic.get(number)?;
    Some(bio.parent)
}
