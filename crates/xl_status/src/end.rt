use xl_base::{NodeNo, Status};

/// What a node's hub couldn't make.
#[derive(Clone, Copy, PartialEq, Eq)]
pub enum Unmade {
    /// The link to this member.
    Link(NodeNo),
    /// The door.
    Door,
}

/// How a node ended.
#[derive(Clone, Copy)]
pub struct End {
    pub status: Status,
    /// What its hub couldn't make, if that is why.
    pub unmade: Option<Unmade>,
}
