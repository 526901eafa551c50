use std::io::IsTerminal;

/// Who is told how far a sweep or a search is.
pub trait Progress {
    /// The run of this seed comes next, of those from the first to the last.
    fn before(&self, seed: u64, first: u64, last: u64);

    /// No seed's run comes any more.
    fn ended(&self);
}

// Standard error is told, where it is a terminal.
impl Progress for HostRuntime {
    fn before(&self, seed: u64, first: u64, last: u64) {
        if is_step(seed, first, last) && self.stderr().is_terminal() {
            let _ = eprint!(self; "\rdmlab: seed {seed} of {first} to {last}");
        }
    }

    fn ended(&self) {
        if self.stderr().is_terminal() {
            let _ = eprint!(self; "\r\x1b[K");
        }
    }
}

/// Whether the seed is one of a hundred steps, about, from the first to the last.
fn is_step(seed: u64, first: u64, last: u64) -> bool {
    let step = last.saturating_sub(first) / 100 + 1;
    seed.saturating_sub(first) % step == 0
}
