use std::alloc::Global;

/// What a node runs on, and all of its workers share.
#[derive(Drop)]
pub struct Host<'a, W, G, C> {
    pub rt: &'a W,
    pub alloc: Global,
    pub gate: &'a G,
    pub clock: &'a C,
}
