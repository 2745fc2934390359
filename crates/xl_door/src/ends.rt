/// How attending ended.
#[derive(Clone, Copy, PartialEq, Eq)]
pub enum Attended {
    /// The store said that the node is to stop.
    Stopped,
    /// All turns of the store are drawn: it has so many.
    StoreFull(u64),
}
