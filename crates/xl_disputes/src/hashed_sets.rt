ghost use Rattle.std.specs.Prelude.{◌≡◌, ◌≤◌, IfSome, IsTrue, length, take};
ghost use Rattle.xl_base.specs.Sets.{set_id_of};
ghost use Rattle.xl_disputes.specs.Named.{IsNamedSet};

use std::marker::Model;
use xl_base::{SetId, TxId, set_id};

/// A longer set isn't kept.
const SHORT: usize = 16;

/// The last two short sets that were hashed, with their ids. Whoever hashes one of them again finds its id here: an id
/// goes by its set alone, so any number of nodes may share them.
#[derive(Drop)]
pub struct HashedSets {
    last: Option<NamedSet>,
    /// The one before it.
    former: Option<NamedSet>,
}

/// A short set and its id.
#[derive(Drop)]
struct NamedSet {
    /// The set's ids, at the front.
    room: [TxId; SHORT],
    count: usize,
    id: SetId,
}

impl Model for HashedSets {
    ghost use Rattle.std.specs.Prelude.{IfSome};
    ghost use Rattle.xl_disputes.specs.Named.{IsNamedSet};

    ghost Value = { Unit {0} };

    ghost view = { λ _. tt };

    ghost invariant = { λ a. IfSome a.last IsNamedSet × IfSome a.former IsNamedSet };
}

/// Whether two sets are the same.
fn is_same(one: &[TxId], other: &[TxId]) -> bool
    ensures { IsTrue result → one.now ≡ other.now }
{
    one == other
}

/// Copies a set to the front of a room.
fn put_front(room: &mut [TxId; SHORT], ids: &[TxId])
    requires { length ids.now ≤ SHORT }
    ensures { take (length ids.now) room.new ≡ ids.now }
{
    room[..ids.len()].copy_from_slice(ids);
}

/// The id of a set, if it is this one.
fn id_by(set: &NamedSet, ids: &[TxId]) -> Option<SetId>
    requires { IsNamedSet set.now }
    ensures { IfSome result (λ id. id ≡ set_id_of ids.now) }
{
    if is_same(&set.room[..set.count], ids) {
        Some(set.id)
    } else {
        None
    }
}

/// The id of a set, if it is the kept one.
fn id_in(kept: &Option<NamedSet>, ids: &[TxId]) -> Option<SetId>
    requires { IfSome kept.now IsNamedSet }
    ensures { IfSome result (λ id. id ≡ set_id_of ids.now) }
{
    match kept {
        Some(set) => id_by(set, ids),
        None => None,
    }
}

/// A short set with its id, which is handed in.
fn named(ids: &[TxId], id: SetId) -> NamedSet
    requires short { length ids.now ≤ SHORT }
    requires named { id ≡ set_id_of ids.now }
    ensures { IsNamedSet result }
{
    let mut room = [TxId([0; 32]); SHORT];
    put_front(&mut room, ids);
    NamedSet {
        room,
        count: ids.len(),
        id,
    }
}

impl HashedSets {
    /// No set was hashed yet.
    pub fn none() -> HashedSets {
        HashedSets {
            last: None,
            former: None,
        }
    }

    /// The id of a set, if it is one of these.
    pub(crate) fn known(&self, ids: &[TxId]) -> Option<SetId>
        ensures { IfSome result (λ id. id ≡ set_id_of ids.now) }
    {
        match id_in(&self.last, ids) {
            Some(id) => Some(id),
            None => id_in(&self.former, ids),
        }
    }

    /// The id of a set, which is hashed. If it is short it is the last one then.
    pub(crate) fn hash(&mut self, ids: &[TxId]) -> SetId
        ensures { result ≡ set_id_of ids.now }
    {
        let id = set_id(ids);
        if ids.len() <= SHORT {
            self.former = self.last.take();
            self.last = Some(named(ids, id));
        }
        id
    }
}
