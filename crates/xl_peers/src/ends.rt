ghost use Rattle.std.specs.Prelude.{◌≡◌};
ghost use Rattle.xl_peers.specs.Going.{end_of};
ghost use Rattle.xl_peers.specs.Serving.{served_of};

use xl_store::StoreEnd;
use xl_wire::WireRefusal;

/// How a session ended.
#[derive(Clone, Copy, PartialEq, Eq)]
pub enum End {
    /// The link said that no more bytes come.
    End,
    /// The store said that the node is to stop.
    Stopped,
    /// What stands next in the bytes read begins no frame: Magic, Version, Kind or Length.
    Framing(WireRefusal),
    /// A read or a write failed: the link's count of faults rose.
    LinkFault,
    OutOfMemory,
    /// All turns of the store are drawn: it has so many.
    StoreFull(u64),
}

pub(crate) fn end_of(end: StoreEnd) -> End
    ensures { result ≡ end_of end }
{
    match end {
        StoreEnd::OutOfMemory => End::OutOfMemory,
        StoreEnd::StoreFull(limit) => End::StoreFull(limit),
    }
}

/// How serving ended.
#[derive(Clone, Copy, PartialEq, Eq)]
pub enum Served {
    /// The store said that the node is to stop.
    Stopped,
    /// All turns of the store are drawn: it has so many.
    StoreFull(u64),
}

/// How a session's end ends the serving, if it does.
pub(crate) fn served_of(end: End) -> Option<Served>
    ensures { result ≡ served_of end }
{
    match end {
        End::Stopped => Some(Served::Stopped),
        End::StoreFull(limit) => Some(Served::StoreFull(limit)),
        End::End | End::Framing(_) | End::LinkFault | End::OutOfMemory => None,
    }
}
