//! A reader and a writer whose bytes go piece by piece, and that fail once.

use std::alloc::Global;
use std::io;
use std::io::{ErrorKind, Read, Write};

/// How many bytes go at once at most.
pub(super) const PIECE: usize = 8;

/// Gives a piece a read, and fails at one read; from the next on it would go on.
#[derive(Drop)]
pub(super) struct FailingReader<'a> {
    bytes: &'a [u8],
    /// How many reads come before the one that fails; `None` once it has failed.
    before: Option<usize>,
}

impl<'a> FailingReader<'a> {
    /// A reader of these bytes that fails after so many reads.
    pub(super) fn new(bytes: &'a [u8], before: usize) -> FailingReader<'a> {
        FailingReader {
            bytes,
            before: Some(before),
        }
    }
}

impl Read for FailingReader<'_> {
    fn read(&mut self, buf: &mut [u8]) -> io::Result<usize> {
        match self.before {
            Some(0) => {
                self.before = None;
                return Err(io::Error::from(ErrorKind::Interrupted));
            }
            Some(before) => self.before = Some(before - 1),
            None => {}
        }
        let most = buf.len().min(PIECE);
        self.bytes.read(&mut buf[..most])
    }
}

/// How a write goes wrong.
#[derive(Clone, Copy, Debug, PartialEq, Eq)]
pub(super) enum WriteFault {
    /// It is an error.
    Fails,
    /// It takes no byte.
    TakesNone,
}

/// Takes a piece a write, and one write goes wrong; from the next on it would go on.
#[derive(Drop)]
pub(super) struct FailingWriter {
    /// What was taken.
    pub(super) bytes: Vec<u8>,
    /// How many writes come before the one that goes wrong; `None` once it has gone wrong.
    before: Option<usize>,
    fault: WriteFault,
}

impl FailingWriter {
    /// A writer that goes wrong so after so many writes.
    pub(super) fn new(alloc: Global, before: usize, fault: WriteFault) -> FailingWriter {
        FailingWriter {
            bytes: Vec::new(alloc),
            before: Some(before),
            fault,
        }
    }
}

impl Write for FailingWriter {
    fn write(&mut self, buf: &[u8]) -> io::Result<usize> {
        match self.before {
            Some(0) => {
                self.before = None;
                return match self.fault {
                    WriteFault::Fails => Err(io::Error::from(ErrorKind::Interrupted)),
                    WriteFault::TakesNone => Ok(0),
                };
            }
            Some(before) => self.before = Some(before - 1),
            None => {}
        }
        let most = buf.len().min(PIECE);
        self.bytes.write(&buf[..most])
    }

    fn flush(&mut self) -> io::Result<()> {
        Ok(())
    }
}
