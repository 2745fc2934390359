use crate::last_built::LastBuilt;
use xl_disputes::HashedSets;

/// What was hashed lately, for whoever hashes the same again: the nodes of one network mostly agree, so they may share
/// one. What a node does doesn't go by what is in it.
#[derive(Drop)]
pub struct Hashes {
    pub(crate) sets: HashedSets,
    pub(crate) built: LastBuilt,
}

impl Hashes {
    /// Nothing was hashed yet.
    pub fn none() -> Hashes {
        Hashes {
            sets: HashedSets::none(),
            built: LastBuilt::none(),
        }
    }
}
