ghost use Rattle.std.specs.Prelude.{◌≡◌};
ghost use Rattle.lab_trace.specs.Fields.{above};

use lab_bios::Parent;

/// The number of the bio that a parent is, if it is one.
pub(crate) fn above(parent: Parent) -> Option<u64>
    ensures { result ≡ above parent }
{
    match parent {
        Parent::FromBio(number, _) => Some(number),
        Parent::FromLog(_, _, _) => None,
    }
}
