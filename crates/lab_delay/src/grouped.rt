/// What a delay line gives for each of its groups of kinds, in order.
#[derive(Clone, Copy, Debug, PartialEq, Eq)]
pub(crate) enum Grouped<G> {
    /// For all kinds.
    One(G),
    /// For reads, and for all else.
    Two(G, G),
    /// For reads, for writes with trims, and for flushes.
    Three(G, G, G),
}
