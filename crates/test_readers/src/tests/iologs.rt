use lab_iolog::{IologLine, read_log};
use std::alloc::Global;
use std::test::Fail;

/// Adds a line of a log as its number, its file, and its entry as `{:?}` prints it.
fn push_line(alloc: Global, told: &mut Vec<u8>, line: &IologLine<'_>) -> Result<(), Fail> {
    push_text(told, &format!(in alloc; "{} ", line.number)?)?;
    told.extend_from_slice(line.file)?;
    push_text(told, &format!(in alloc; " {:?}\n", line.entry)?)
}

/// Adds a text.
fn push_text(told: &mut Vec<u8>, text: &str) -> Result<(), Fail> {
    Ok(told.extend_from_slice(text.as_bytes())?)
}

/// The lines of a log.
fn told(alloc: Global, lines: &[IologLine<'_>]) -> Result<Vec<u8>, Fail> {
    let mut told = Vec::new(alloc);
    for line in lines {
        push_line(alloc, &mut told, line)?;
    }
    Ok(told)
}

/// Whether a log has these lines.
fn has_lines(alloc: Global, text: &[u8], wanted: &[u8]) -> Result<bool, Fail> {
    let log = read_log(alloc, text)?;
    let told = told(alloc, log.lines.as_slice())?;
    Ok(told.as_slice() == wanted)
}

/// A log of every kind of line. The mark of a comment is a file's name here.
const LINES: &[u8] = b"\x20fio\tversion 2 iolog\x20
d add

\td  open
# wait 99 0
d write 512 1024
d sync 7 7
d datasync 0 512
d trim 0 512
d read 1024 512
d close";

/// Its lines.
const LINES_TOLD: &[u8] = b"\
2 d Add
4 d Open
5 # Wait(99)
6 d Operate(Write, Span { first: 1, len: 2 })
7 d Operate(Sync, Span { first: 0, len: 0 })
8 d Operate(Datasync, Span { first: 0, len: 0 })
9 d Operate(Trim, Span { first: 0, len: 1 })
10 d Operate(Read, Span { first: 2, len: 1 })
11 d Close
";

#[test]
fn lines_behind_the_header(rt: HostRuntime) -> Result<(), Fail> {
    assert!(rt; has_lines(rt.alloc(), LINES, LINES_TOLD)?);
    Ok(())
}
