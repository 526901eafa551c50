/// How far a script has come.
#[derive(Clone, Copy, Debug, PartialEq, Eq)]
pub enum Phase {
    /// The logs haven't started.
    Before,
    /// They have, and there was no wait.
    Replayed,
    /// There was a wait.
    Waited,
}
