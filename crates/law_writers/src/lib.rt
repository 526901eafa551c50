//! What is known of who wrote what, beside a run, is what the bytes of disks and of answers are.
#![tactic(auto)]

ghost use Rattle.law_writers.specs.RowsTell.{AcceptedRowsTell, RowsTell};
ghost use Rattle.law_writers.specs.Unmarked.{RunsArePlain};
ghost use Rattle.law_writers.specs.WritersTell.{AcceptedWritersTell, AnswersTell, DisksTell};

use lab_target::Target;

/// In any run of a fine scenario in which no byte is changed on the way, each sector of each disk
/// has the bytes of the writer that is known of it, what this sector of its operation leaves: the
/// byte of its line after a write, and zero bytes after a trim. It has zero bytes where nobody
/// wrote. A read of a log that is answered without a failure gives the log, sector by sector, the
/// bytes of the writers that are told of it. So it is in each accepted scenario, since that is
/// fine.
pub fn writers_tell<T: Target>()
    ensures disks { DisksTell T.meaning }
    ensures answers { AnswersTell T.meaning }
    ensures accepted { AcceptedWritersTell T.meaning }
{}

/// Where no target ever changes a byte of what it hands on, no byte is changed in any run.
pub fn plain_runs<T: Target>()
    ensures { RunsArePlain T.meaning }
{}

/// After any run of a fine scenario, whatever bytes were changed on the way, the rows of what
/// stands on the disks give each sector of each disk the bytes that it has, where each write has
/// the data that the definitions give it: the byte of its line. So it is in each accepted
/// scenario, too.
pub fn rows_tell<T: Target>()
    ensures fine { RowsTell T.meaning }
    ensures accepted { AcceptedRowsTell T.meaning }
{}
