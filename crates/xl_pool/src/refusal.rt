/// Each slot has a value. It hands back the value that had no room.
#[derive(Debug, PartialEq, Eq, Drop)]
pub struct Full<T>(pub T);

/// The name finds no value: its slot is empty, of another generation, or not there. It tells the slot's generation, or
/// 0 for a slot that isn't there.
#[derive(Clone, Copy, Debug, PartialEq, Eq)]
pub struct Stale(pub u32);
