/// How a run of the program ended.
#[derive(Debug, Drop)]
pub enum Status {
    /// The whole output was written. The text is what standard error is told besides: the totals of
    /// a search, and nothing of any other work.
    Done(String),
    /// The same, where something was found that is to be a failure.
    Found(String),
    /// The bundle was refused, and the whole line that says so was written. The text is what a
    /// tester is told besides, on standard error; it is empty where memory ran out.
    Refused(String),
    /// The words ask for nothing that the program does, or for help.
    Words(clap::Error),
    /// The words ask for the version, which is the text.
    Version(clap::Error),
    /// A growth was refused.
    NoMemory,
    /// A read failed.
    ReadFault,
    /// A write failed, or took no byte.
    WriteFault,
}
