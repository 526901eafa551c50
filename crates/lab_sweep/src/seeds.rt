/// The seeds from the first to the last, none where the last comes before the first, and whether their runs are prompt.
#[derive(Clone, Copy, Debug)]
pub struct Seeds {
    /// The first seed.
    pub first: u64,
    /// The last seed.
    pub last: u64,
    /// Whether the clock waits in each run until no other event may come.
    pub prompt: bool,
}
