/// What is kept while a run goes.
#[derive(Clone, Copy, Debug, PartialEq, Eq)]
pub struct Kept {
    /// Who wrote what reads are answered, and so who wrote what stands on the disks.
    pub reads: bool,
    /// Which sectors of writes and trims a line dropped.
    pub drops: bool,
}
