ghost use Rattle.std.specs.Prelude.{◌≡◌, []};
ghost use Rattle.xl_turns.specs.Passes.{opening};
ghost use Rattle.xl_store.specs.Retentions.{kept_of};

use crate::entry::Entry;
use crate::history::Histories;
use crate::home::Home;
use crate::journal::Journal;
use crate::retention::{Batch, Retention};
use crate::spares::Spares;
use std::alloc::Global;
use xl_base::OutOfMemory;
use xl_core::Core;
use xl_io::Keeper;
use xl_ledger::Branch;
use xl_turns::TicketLock;

mod calls;
mod passes;
mod turns;

/// Why a call had no turn. Nothing happened at the core then.
#[derive(Clone, Copy, PartialEq, Eq)]
pub enum StoreEnd {
    /// Nothing was drawn: the memory for the entry is taken first. If entries aren't kept, only a frame's takes some. That
    /// for a stop was taken when the store opened, and so was that for 64 questions whether the node is to stop, which
    /// may be asked once it was told to.
    OutOfMemory,
    /// As many turns were drawn as the store has, which is that number.
    StoreFull(u64),
}

impl From<OutOfMemory> for StoreEnd {
    ghost use Rattle.xl_store.specs.declared.store.StoreEnd.TheVariants as end;

    ghost from_gives = { λ _ given. given ≡ end.OutOfMemory };

    fn from(_: OutOfMemory) -> StoreEnd {
        StoreEnd::OutOfMemory
    }
}

/// A caller's token. It has seen a beginning of the journal, and may go to another thread.
pub type Pass = xl_turns::Pass<Entry>;

/// A core and its keeper, which threads share by `&`.
#[derive(Drop)]
pub struct Store<B: Branch, K: Keeper> {
    pub(crate) lock: TicketLock<Box<Home<B, K>>, Entry, Histories<K>>,
    pub(crate) alloc: Global,
    pub(crate) retention: Retention,
    pub(crate) spares: Spares,
    pub ghost kept: { (opening lock).value.kept ≡ kept_of retention [] },
}

/// There was no memory for the store. The core and its keeper come back.
#[derive(Drop)]
pub struct Spared<B: Branch, K> {
    pub core: Core<B>,
    pub keeper: K,
}

/// What a store leaves.
#[derive(Drop)]
pub struct Closed<B: Branch, K> {
    pub core: Core<B>,
    pub keeper: K,
    /// All entries, which only contracts see.
    pub journal: Journal,
    /// Those that the store kept, if it keeps any: all, or those since reports were taken last.
    pub left: Option<Batch>,
}

/// What was taken in one turn.
#[derive(Drop)]
pub struct Handed {
    /// How many reports stand at the front of the room.
    pub count: usize,
    /// The entries since reports were taken before, up to that of this turn, if the store hands them on.
    pub batch: Option<Batch>,
}
