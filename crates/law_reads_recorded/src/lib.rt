//! What bios in flight have recorded, as a map from sectors to the bytes answered so far: a sector
//! that isn't there yet and one of zero bytes are two things.
#![tactic(auto)]

ghost use Rattle.law_reads_recorded.specs.ReadsRecorded.{AcceptedReadsAreRecords, AnswersAreRecords};
ghost use Rattle.law_reads_recorded.specs.ReadsRecorded.{BuffersAreRecords};
ghost use Rattle.law_reads_recorded.specs.ReadsRecorded.{NothingBefore, RestIsOwed};

use lab_target::Target;

/// In any run of a fine scenario a bio has recorded nothing before it is judged. The buffer of a
/// read in flight has the bytes that the read has recorded, and zero bytes where that is nothing.
/// Each sector that it hasn't recorded is owed by a living bio of one of its pieces, unless a piece
/// has failed. So a read that is answered without a failure has recorded each of its sectors, and
/// answers with these bytes. So it is in each accepted scenario, since that is fine.
pub fn reads_recorded<T: Target>()
    ensures before { NothingBefore T.meaning }
    ensures buffers { BuffersAreRecords T.meaning }
    ensures owed { RestIsOwed T.meaning }
    ensures answers { AnswersAreRecords T.meaning }
    ensures accepted { AcceptedReadsAreRecords T.meaning }
{}
