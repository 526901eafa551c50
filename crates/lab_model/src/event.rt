/// One atomic step of the laboratory (this project's own). Logs and bios are numbered from 1.
#[derive(Clone, Copy, Debug, PartialEq, Eq)]
pub enum Event {
    /// The log of this number takes its next line.
    Line(u32),
    /// The bio of this number is cut at the mapped device that it enters, and each piece is judged.
    Map(u64),
    /// The disk that the bio of this number enters is read or changed, and the bio is answered.
    Serve(u64),
    /// The held bio of this number goes on.
    Release(u64),
    /// The bio of this number, which has no living child any more, is answered.
    Finish(u64),
    /// The script's next micro-command is done.
    Control,
    /// The clock goes on to the least moment that lies ahead.
    Clock,
}

/// Whom an event belongs to (this project's own).
#[derive(Clone, Copy, Debug, PartialEq, Eq)]
pub enum Who {
    /// The log of this number, counted from 1.
    Log(u32),
    /// The script.
    Control,
    /// The delays and the clock.
    Timers,
}
