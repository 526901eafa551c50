/// How a worker's turn under the lock ended (this project's own).
#[derive(Clone, Copy, Debug, PartialEq, Eq)]
pub enum Turn {
    /// One event that belongs to the worker was fired.
    Fired,
    /// Nothing that belongs to the worker may come where the run stands.
    Idle,
    /// Nothing is left that belongs to the worker.
    Over,
    /// A stop was asked for: no worker fires any more.
    Stop,
}
