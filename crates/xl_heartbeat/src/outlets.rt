use crate::Bulletin;

/// Where a heartbeat tells how its node is, and where the journal goes as it comes.
#[derive(Drop)]
pub struct Outlets<D, R> {
    pub bulletin: Option<Bulletin<D>>,
    /// What records the entries that the store hands on whenever reports are taken.
    pub recorder: Option<R>,
}
