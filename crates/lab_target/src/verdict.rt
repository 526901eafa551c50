ghost use Rattle.std.specs.Prelude.{◌≡◌, ◌+◌, ◌<◌, ◌^◌};
ghost use Rattle.lab_target.specs.Types.{passed_to};

use lab_sector::{DevNo, Span};

/// Where a line's first sector goes: a sector of another device.
#[derive(Clone, Copy, Debug, PartialEq, Eq)]
pub struct Ref {
    pub dev: DevNo,
    /// The sector of `dev` that stands for the line's first.
    pub first: u64,
}

impl Ref {
    /// A piece of the line goes on to its sectors here, after so many microseconds, with these marks.
    #[inline]
    pub fn pass(self, piece: Span, hold: u64, marks: Marks) -> Verdict
        requires { self.first + piece.first < 2 ^ 64 }
        ensures { result ≡ passed_to self piece hold marks }
    {
        let span = Span {
            first: self.first + piece.first,
            len: piece.len,
        };
        Verdict::Pass(self.dev, span, hold, marks)
    }
}

/// A byte that a target changes on the way (dm-flakey's corruption).
#[derive(Clone, Copy, Debug, PartialEq, Eq)]
pub struct Mark {
    /// The byte, counted in the line from 0.
    pub place: u64,
    /// What it becomes.
    pub value: u8,
}

/// The bytes of one piece that a target changes, the fixed one first.
#[derive(Clone, Copy, Debug, PartialEq, Eq)]
pub struct Marks {
    pub fixed: Option<Mark>,
    pub random: Option<Mark>,
}

impl Marks {
    /// No byte is changed.
    pub const NONE: Marks = Marks {
        fixed: None,
        random: None,
    };
}

/// What a line does with a piece of a bio.
#[derive(Clone, Copy, Debug, PartialEq, Eq)]
pub enum Verdict {
    /// The piece goes on to these sectors of a device, after so many microseconds, with these marks.
    Pass(DevNo, Span, u64, Marks),
    /// The piece succeeds, and nothing is passed.
    Done,
    /// The piece is read as zeroes.
    Zeroes,
    /// The piece fails.
    Fail,
}

/// How many pieces a line holds now (dm-delay's status).
#[derive(Clone, Copy, Debug, PartialEq, Eq)]
pub struct Held {
    pub reads: u64,
    /// Writes, and trims with them.
    pub writes: u64,
    pub flushes: u64,
}
