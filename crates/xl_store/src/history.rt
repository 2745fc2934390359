use crate::entry::Entry;
use crate::home::Home;
use std::marker::PhantomData;
use xl_io::Keeper;
use xl_ledger::Branch;
use xl_turns::History;

/// Which histories of a core and its keeper are legal.
pub struct Histories<K> {
    keeper: PhantomData<K>,
}

impl<B: Branch, K: Keeper> History<Box<Home<B, K>>, Entry> for Histories<K> {
    ghost use Rattle.xl_store.specs.Homes.{LeadsHome};

    ghost leads = { LeadsHome K.held K.saves K.faults K.save_gives };
}
