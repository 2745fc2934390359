ghost use Rattle.std.specs.Prelude.{◌≡◌, ◌≤◌, [], length, vec_capacity, IfOk, IsTrue};
ghost use Rattle.xl_base.specs.Sets.{set_id_of, IsSet};
ghost use Rattle.xl_disputes.specs.Disputes.{has};

use std::alloc::Global;
use std::marker::Model;
use xl_base::{MOST_IDS, OutOfMemory, SetId, TxId};

/// The most ids of a set.
pub(crate) const SET_IDS: usize = MOST_IDS;

/// A set of transactions and its id, which is handed in with it. Its room is taken when it is opened.
#[derive(Drop)]
pub(crate) struct Set {
    ids: Vec<TxId>,
    id: SetId,
}

impl Model for Set {
    ghost use Rattle.std.specs.Prelude.{List, vec_capacity};
    ghost use Rattle.xl_base.specs.declared.ids.TxId.{TxId};
    ghost use Rattle.xl_disputes.specs.Named.{IsNamed};

    ghost Value = { List TxId };

    ghost view = { λ set. set.ids.items };

    ghost invariant = { λ set. IsNamed set.ids.items set.id (vec_capacity set.ids) };
}

/// Puts these ids in place of older ones, if there is room for them.
fn put(room: &mut Vec<TxId>, ids: &[TxId])
    requires { length ids.now ≤ vec_capacity room.old }
    ensures items { room.new.items ≡ ids.now }
    ensures capacity { vec_capacity room.old ≤ vec_capacity room.new }
{
    room.clear();
    match room.extend_from_slice(ids) {
        Ok(()) => {}
        Err(_) => unreachable!(),
    }
}

impl Set {
    /// The empty set, whose id is handed in, with room for every other one.
    pub(crate) fn open(alloc: Global, id: SetId) -> Result<Set, OutOfMemory>
        requires { id ≡ set_id_of [] }
        ensures { IfOk result (λ set. set ≡ []) }
    {
        Ok(Set {
            ids: Vec::with_capacity(alloc, SET_IDS)?,
            id,
        })
    }

    /// Becomes the set of these ids, whose own id is handed in.
    pub(crate) fn take(&mut self, ids: &[TxId], id: SetId)
        requires valid { IsSet ids.now }
        requires named { id ≡ set_id_of ids.now }
        ensures { self.new ≡ ids.now }
    {
        put(&mut self.ids, ids);
        self.id = id;
    }

    pub(crate) fn ids(&self) -> &[TxId]
        ensures value { result.now ≡ self.now }
        ensures valid { IsSet self.now }
    {
        &self.ids
    }

    /// Whether it is the set of these ids.
    pub(crate) fn is(&self, ids: &[TxId]) -> bool
        ensures { IsTrue result → self.now ≡ ids.now }
    {
        self.ids.as_slice() == ids
    }

    pub(crate) fn id(&self) -> SetId
        ensures { result ≡ set_id_of self.now }
    {
        self.id
    }

    pub(crate) fn has(&self, tx: &TxId) -> bool
        ensures { result ≡ has self.now tx.now }
    {
        self.ids.contains(tx)
    }
}
