use lab_model::Who;

/// What is called round each turn of each worker. Both calls stand outside the lock, so a gate may hold a worker back
/// or count what it does.
pub trait Gate: Sync {
    /// Comes before the worker's turn of this number. A worker's turns are numbered from 1; the number stays at the
    /// greatest u64 once there.
    fn before(&self, who: Who, turn: u64);

    /// Comes after that turn, and says whether it fired an event.
    fn after(&self, who: Who, turn: u64, fired: bool);
}

/// A gate that holds nobody back.
#[derive(Clone, Copy, Debug, PartialEq, Eq)]
pub struct Open;

impl Gate for Open {
    fn before(&self, _who: Who, _turn: u64) {}

    fn after(&self, _who: Who, _turn: u64, _fired: bool) {}
}
