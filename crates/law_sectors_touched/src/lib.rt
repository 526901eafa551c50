//! What an operation touches on disks: the routes of its sectors, and nothing else.
#![tactic(auto)]

ghost use Rattle.law_headline.specs.Routes.{TouchesRoutes};
ghost use Rattle.law_sectors_touched.specs.AllRoutes.{AcceptedTouchesAllRoutes, TouchesAllRoutes};
ghost use Rattle.law_sectors_touched.specs.AllRoutes.{AcceptedTouchesRoutes};

use lab_target::Target;

/// A read, write or trim that a log makes, with its pieces, touches only the disk sectors that are
/// routes of its own, each at most as often as it is one, as long as no event of the script comes.
/// So it is in each fine scenario, and in each accepted one.
pub fn touches_routes<T: Target>()
    ensures fine { TouchesRoutes T.meaning }
    ensures accepted { AcceptedTouchesRoutes T.meaning }
{}

/// Where all lines that hold a sector of it or of one of its pieces' bios pass what they refer to, it
/// has touched each of its routes just so often once it is answered.
pub fn touches_all_routes<T: Target>()
    ensures fine { TouchesAllRoutes T.meaning }
    ensures accepted { AcceptedTouchesAllRoutes T.meaning }
{}
