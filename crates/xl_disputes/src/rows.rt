ghost use Rattle.std.specs.Prelude.{◌≡◌, ◌+◌, ◌<◌, ◌≤◌, [], length, filter, slice_index_or, slice_set, All, Some, IfOk, if◌then◌else◌};
ghost use Rattle.std.specs.List.{insert, remove};
ghost use Rattle.xl_base.specs.Sets.{IsRising};
ghost use Rattle.xl_pool.specs.Pools.{get, live, Updates};
ghost use Rattle.xl_disputes.specs.Rows.{ids_of, is_held};
ghost use Rattle.xl_disputes.specs.Pooled.{row_of, rows_of, if_held, IsSwept};

use crate::tally::Tally;
use std::alloc::Global;
use std::marker::Model;
use std::mem::align_of;
use xl_base::{OutOfMemory, TxId};
use xl_pool::{Name, Pool};

/// The most different ids of our own set and the members' held sets.
pub(crate) const ROWS: u32 = 16_640;

/// An id and what it has.
#[derive(Clone, Copy)]
pub(crate) struct Row {
    pub(crate) id: TxId,
    pub(crate) tally: Tally,
}

/// A slot takes 56 bytes. With an alignment of 8 it would take 64.
const _: () = prove!(align_of::<Row>() == 4);

/// Rows in order, with room for as many as there may be. A row stays in its slot while others come and go.
#[derive(Drop)]
pub(crate) struct Rows {
    pool: Pool<Row>,
    order: Vec<Name>,
}

impl Model for Rows {
    ghost use Rattle.std.specs.Prelude.{List, vec_capacity};
    ghost use Rattle.xl_disputes.specs.declared.rows.Row.{Row};

    ghost Value = { List Row };

    ghost use Rattle.xl_disputes.specs.Pooled.{rows_of, IsPooled};

    ghost view = { λ a. rows_of a.pool a.order.items };

    ghost invariant = { λ a. IsPooled a.pool a.order.items (vec_capacity a.order) };
}

/// Gives the slot of a row back if its id is in no set.
fn give_back(pool: &mut Pool<Row>, name: Name)
    requires there { get pool.old name ≡ Some (row_of pool.old name) }
    ensures updates { Updates pool.old pool.new name (if_held (row_of pool.old name)) }
    ensures slots { length pool.new ≡ length pool.old }
    ensures count { live pool.new + 1 ≡ live pool.old + (if is_held (row_of pool.old name) then 1 else 0) }
{
    let Some(row) = pool.get(name) else {
        unreachable!()
    };
    if row.tally.is_none() {
        match pool.give(name) {
            Ok(_) => {}
            Err(_) => unreachable!(),
        }
    }
}

/// Gives back the slots of all rows whose id is in no set.
fn give_all_back(pool: &mut Pool<Row>, order: &[Name])
    requires there { All (λ name. get pool.old name ≡ Some (row_of pool.old name)) order.now }
    requires apart { IsRising (ids_of (rows_of pool.old order.now)) }
    ensures { IsSwept pool.old pool.new order.now (length order.now) }
{
    for name in order {
        give_back(pool, *name);
    }
}

impl Rows {
    pub(crate) fn open(alloc: Global) -> Result<Rows, OutOfMemory>
        ensures { IfOk result (λ rows. rows ≡ []) }
    {
        Ok(Rows {
            pool: Pool::with_slots(alloc, ROWS)?,
            order: Vec::with_capacity(alloc, ROWS as usize)?,
        })
    }

    /// No row any more. Each slot that had one is given back.
    pub(crate) fn clear(&mut self)
        requires apart { IsRising (ids_of self.old) }
        ensures { self.new ≡ [] }
    {
        let mut left = self.len();
        while left > 0 {
            left -= 1;
            self.remove(left);
        }
    }

    pub(crate) fn len(&self) -> usize
        ensures { result ≡ length self.now }
    {
        self.order.len()
    }

    pub(crate) fn at(&self, place: usize) -> Row
        requires { place < length self.now }
        ensures { result ≡ slice_index_or self.now place result }
    {
        match self.pool.get(self.order[place]) {
            Some(row) => *row,
            None => unreachable!(),
        }
    }

    pub(crate) fn set(&mut self, place: usize, row: Row)
        requires within { place < length self.old }
        requires apart { IsRising (ids_of self.old) }
        ensures { self.new ≡ slice_set self.old place row }
    {
        match self.pool.get_mut(self.order[place]) {
            Some(old) => *old = row,
            None => unreachable!(),
        }
    }

    pub(crate) fn insert(&mut self, place: usize, row: Row)
        requires within { place ≤ length self.old }
        requires room { length self.old < ROWS }
        ensures { self.new ≡ insert self.old place row }
    {
        let Ok(name) = self.pool.take(row) else {
            unreachable!()
        };
        match self.order.insert(place, name) {
            Ok(()) => {}
            Err(_) => unreachable!(),
        }
    }

    /// Only rows whose id is in a set stay. Each name that stays moves once at most.
    pub(crate) fn sweep(&mut self)
        requires apart { IsRising (ids_of self.old) }
        ensures { self.new ≡ filter is_held self.old }
    {
        give_all_back(&mut self.pool, &self.order);
        let pool = &self.pool;
        self.order.retain(|name| pool.get(*name).is_some());
    }

    pub(crate) fn remove(&mut self, place: usize)
        requires within { place < length self.old }
        requires apart { IsRising (ids_of self.old) }
        ensures { self.new ≡ remove self.old place }
    {
        let name = self.order.remove(place);
        match self.pool.give(name) {
            Ok(_) => {}
            Err(_) => unreachable!(),
        }
    }
}
