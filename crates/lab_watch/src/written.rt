ghost use Rattle.std.specs.Prelude.{◌≡◌};
ghost use Rattle.std.specs.List.{list_any};
ghost use Rattle.std.specs.Option.{is_some};
ghost use Rattle.lab_watch.specs.Grids.{has_written};

use crate::row::{Row, Run};

/// Whether some sector has a writer. A write or a trim is lost where this is true of its drops.
pub fn has_written(row: &Row) -> bool
    ensures written { result ≡ has_written row.now }
{
    some_written(row.runs())
}

/// Whether the sectors of some run have a writer.
fn some_written(runs: &[Run]) -> bool
    ensures { result ≡ list_any (λ run. is_some run.writer) runs.now }
{
    runs.iter().any(|run| run.writer.is_some())
}
