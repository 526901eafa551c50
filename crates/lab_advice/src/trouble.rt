use lab_refusal::Fault;

/// What the program said no to. Lines and places are counted from 1.
#[derive(Clone, Copy, Debug, PartialEq, Eq)]
pub enum Trouble<'a> {
    /// The bundle has this first fault.
    Fault(Fault<'a>),
    /// The event at this place may not come there.
    NotARun(u64),
    /// The events are no whole run: another one is wanted at this place.
    Unfinished(u64),
}
