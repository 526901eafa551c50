use std::alloc::Global;

/// Asks once for room, and gives it back, so that the C library keeps what the runs after it free instead of giving
/// it back to the system each time. A refusal changes nothing.
pub(crate) fn make_room(alloc: Global) {
    let _: Result<Vec<u8>, _> = Vec::with_capacity(alloc, 16 << 20);
}
