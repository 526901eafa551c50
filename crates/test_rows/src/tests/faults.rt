//! A run on a bad block of dust where one read of the input or one write of the output goes wrong.

use super::fakes::{FailingReader, FailingWriter, PIECE, WriteFault};
use super::worked::{SIM, ended};
use dmlab_run::Status;
use std::alloc::Global;
use std::process::Abort;

/// A block goes bad twice; a read of it fails until a write has mended it.
const BAD_BLOCK: &[u8] = b"\
== table t
0 8 dust /dev/ram0 0 1024
== script
ram 0 8
create m t
message m 0 addbadblock 0
message m 0 addbadblock 0
message m 0 enable
replay
wait
message m 0 countbadblocks
status m
== log a
fio version 2 iolog
/dev/mapper/m add
/dev/mapper/m open
/dev/mapper/m read 512 1024
/dev/mapper/m write 0 512
/dev/mapper/m read 0 1024
";

/// What its run reports.
const BAD_BLOCK_REPORT: &[u8] = b"\
accepted budget=23
script 3 added
script 4 already
script 5 enabled
script 8 0
script 9 0 8 dust 1:0 fail_read_on_bad_block verbose
log a
4 read EIO
5 write ok
6 read 512x15 512x00
done steps=22 clock=0 now=0
";

/// How a run ends of which a read fails after so many, and what it has written.
fn ended_after(alloc: Global, before: usize) -> (Status, Vec<u8>) {
    let input = FailingReader::new(BAD_BLOCK, before);
    ended(alloc, SIM, input, Vec::new(alloc))
}

/// Whether a run of which a read fails after so many writes nothing.
fn is_cut_off(alloc: Global, before: usize) -> bool {
    let (status, text) = ended_after(alloc, before);
    matches!(status, Status::ReadFault) && text.is_empty()
}

/// Whether a run of which a read would fail after so many ends well, since it needs no more.
fn is_read(alloc: Global, before: usize) -> bool {
    let (status, text) = ended_after(alloc, before);
    matches!(status, Status::Done(_)) && text.as_slice() == BAD_BLOCK_REPORT
}

/// Each read fails once, that of the end too. A reader that would fail later shows that all were tried.
#[test]
fn each_read_fails(rt: HostRuntime) {
    let pieces = BAD_BLOCK.len().div_ceil(PIECE);
    for before in 0..=pieces {
        assert!(rt; is_cut_off(rt.alloc(), before), "after {before} reads");
    }
    assert!(rt; is_read(rt.alloc(), pieces.saturating_add(1)));
}

/// How a run ends of which a write goes wrong after so many, and what it has written.
fn ended_by(alloc: Global, before: usize, fault: WriteFault) -> (Status, FailingWriter) {
    let output = FailingWriter::new(alloc, before, fault);
    ended(alloc, SIM, BAD_BLOCK, output)
}

/// Whether a text is the report's beginning, of so many pieces.
fn is_beginning(text: &[u8], pieces: usize) -> bool {
    text.len() == pieces.saturating_mul(PIECE) && BAD_BLOCK_REPORT.starts_with(text)
}

/// Whether a run of which one write goes wrong has written the report's beginning.
fn goes_wrong(alloc: Global, before: usize, fault: WriteFault) -> bool {
    let (status, output) = ended_by(alloc, before, fault);
    matches!(status, Status::WriteFault) && is_beginning(output.bytes.as_slice(), before)
}

/// Whether a run of which a write would go wrong after the whole report ends well.
fn goes_well(alloc: Global, before: usize, fault: WriteFault) -> bool {
    let (status, output) = ended_by(alloc, before, fault);
    matches!(status, Status::Done(_)) && output.bytes.as_slice() == BAD_BLOCK_REPORT
}

/// Checks runs of which each write goes wrong so once.
fn go_wrong(rt: &impl Abort, alloc: Global, fault: WriteFault) {
    let pieces = BAD_BLOCK_REPORT.len().div_ceil(PIECE);
    for before in 0..pieces {
        assert!(rt;
            goes_wrong(alloc, before, fault),
            "{fault:?} after {before} writes"
        );
    }
    assert!(rt; goes_well(alloc, pieces, fault), "{fault:?}");
}

/// Each write goes wrong once.
#[test]
fn each_write_goes_wrong(rt: HostRuntime) {
    go_wrong(&rt, rt.alloc(), WriteFault::Fails);
    go_wrong(&rt, rt.alloc(), WriteFault::TakesNone);
}
