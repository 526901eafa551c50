/// What is told of one seed's run.
#[derive(Clone, Copy, Debug)]
pub struct SeedOutcome {
    pub seed: u64,
    /// The first 16 hexadecimal digits of the SHA-256 of the run's report.
    pub digest: [u8; 16],
    /// How many answers are EIO.
    pub eio: u64,
    /// How many events were fired, the clock's left out.
    pub steps: u64,
    /// How many of the clock's events were fired.
    pub clock: u64,
    /// The clock at the end, in microseconds.
    pub time: u64,
}
