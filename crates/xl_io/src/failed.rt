/// A call on the outside failed, and the count of its faults rose.
#[derive(Clone, Copy, PartialEq, Eq)]
pub struct Failed;
