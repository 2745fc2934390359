ghost use Rattle.std.specs.Prelude.{◌≡◌, IfOk};
ghost use Rattle.xl_store.specs.Retentions.{takes_reports};

use std::alloc::Global;
use xl_base::{Bytes, OutOfMemory};
use xl_core::CoreEvent;

/// How a save was answered.
#[derive(Clone, Copy, PartialEq, Eq)]
pub enum Saved {
    Ok,
    /// With a failure: the keeper's count of faults then.
    Failed(u64),
}

/// What happened at a core in one turn.
#[derive(Drop)]
pub struct Entry {
    pub event: CoreEvent,
    /// How the save was answered that the event asked, if it asked one.
    pub outcome: Option<Saved>,
}

impl Entry {
    /// Whether reports are taken by it.
    pub(crate) fn takes_reports(&self) -> bool
        ensures { result ≡ takes_reports self.now.event }
    {
        matches!(self.event, CoreEvent::Reports { .. })
    }
}

/// A copy of these bytes.
pub(crate) fn copy_of(alloc: Global, bytes: &[u8]) -> Result<Bytes, OutOfMemory>
    ensures copy { IfOk result (λ copy. copy ≡ bytes.now) }
{
    let mut copy = Vec::new(alloc);
    copy.extend_from_slice(bytes)?;
    Ok(Bytes::from_vec(copy))
}
