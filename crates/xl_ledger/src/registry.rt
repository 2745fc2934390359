ghost use Rattle.std.specs.Prelude.{◌≡◌, ◌↔◌, ◌+◌, ◌<◌, ◌≤◌, ◌++◌, [], ◌∷◌, length, replicate, vec_capacity, None, Some, IsOk, IsSome, IsTrue, IfOk, IfSome, OnOk, OnErr};
ghost use Rattle.xl_ledger.specs.Headers.{header_id};
ghost use Rattle.xl_ledger.specs.Chains.{root_id, root_header, header_at, id_at, seq_at, place_of, Joins, AreLedgers};
ghost use Rattle.xl_ledger.specs.Jumps.{jump_of};
ghost use Rattle.xl_base.specs.Refusals.{unless_refused};
ghost use Rattle.xl_ledger.specs.Registries.{only_root, with_header, parent_place, add_refusal};
ghost use Rattle.xl_ledger.specs.Walks.{start_of};
ghost use Rattle.xl_ledger.specs.Limits.{least_limit, greatest_limit, levels};
ghost use Rattle.xl_ledger.specs.Tables.{headers_of, IsIndexed};

use crate::jumps::jumps_below;
use crate::ledger::{LEVELS, Ledger};
use crate::link::Link;
use crate::table::{bucket_of, clear, empty_table, find};
use crate::{AddRefusal, Header, LedgerNo, Walk, id_of, root_header};
use std::alloc::Global;
use std::marker::Model;
use xl_base::{LedgerId, OutOfMemory, Seq};

mod places;

/// The least number of ledgers for which a registry may have room, the root among them.
pub const LEAST_LIMIT: u32 = 2;

/// The greatest.
pub const GREATEST_LIMIT: u32 = 262_144;

/// The ledgers that are known: the root, and each header whose parent was known when it came. No call after `open`
/// takes memory.
#[derive(Drop)]
pub struct Registry {
    limit: u32,
    ledgers: Vec<Ledger>,
    /// The last ledger of each bucket of ids.
    table: Vec<Link>,
}

impl Model for Registry {
    ghost use Rattle.xl_ledger.specs.Registries.{Ledgers};

    ghost Value = { Ledgers };

    ghost use Rattle.std.specs.Prelude.{vec_capacity};
    ghost use Rattle.xl_ledger.specs.Tables.{headers_of, IsSound};

    ghost view = { λ r. record { headers = headers_of r.ledgers.items; limit = r.limit } };

    ghost invariant = { λ r. IsSound r.ledgers.items r.table.items r.limit (vec_capacity r.ledgers) };
}

impl Registry {
    /// A registry that knows the root alone, with room for this many ledgers, or `OutOfMemory`.
    pub fn open(alloc: Global, limit: u32) -> Result<Registry, OutOfMemory>
        requires least { least_limit ≤ limit }
        requires most { limit ≤ greatest_limit }
        ensures { IfOk result (λ registry. registry ≡ only_root limit) }
    {
        let mut ledgers = Vec::with_capacity(alloc, limit as usize)?;
        let mut table = empty_table(alloc, limit)?;
        put_root(&mut ledgers, &mut table);
        Ok(Registry {
            limit,
            ledgers,
            table,
        })
    }

    /// Becomes a registry that knows the root alone, with the same room. It takes no memory, and clears what leads to
    /// a ledger, so that it costs little if few are known.
    pub fn reopen(&mut self)
        ensures { self.new ≡ only_root self.old.limit }
    {
        clear(&self.ledgers, &mut self.table);
        self.ledgers.clear();
        put_root(&mut self.ledgers, &mut self.table);
    }

    /// How many ledgers are known, the root among them.
    pub fn len(&self) -> u32
        ensures value { result ≡ length self.now.headers }
        ensures limit { result ≤ self.now.limit }
        ensures most { self.now.limit ≤ greatest_limit }
        ensures ledgers { AreLedgers self.now.headers }
    {
        self.ledgers.len() as u32
    }

    /// How many ledgers there may be, the root among them.
    pub fn limit(&self) -> u32
        ensures value { result ≡ self.now.limit }
        ensures least { least_limit ≤ result }
        ensures most { result ≤ greatest_limit }
    {
        self.limit
    }

    /// Adds the ledger of a header, and tells its place.
    ///
    /// Refused as known, as an orphan, for its sequence, or for lack of room, in this order; the registry then stays.
    pub fn add(&mut self, h: &Header) -> Result<LedgerNo, AddRefusal>
        ensures exact { result ≡ unless_refused (add_refusal self.old h.now) (length self.old.headers) }
        // It is added exactly if it joins the known ledgers and there is room.
        ensures joins { IsOk result ↔ (Joins self.old.headers h.now × (length self.old.headers < self.old.limit)) }
        ensures added { OnOk result (self.new ≡ with_header self.old h.now) }
        ensures refused { OnErr result (self.new ≡ self.old) }
    {
        // What one member sends all others send too, so the newest comes again and again, and isn't hashed again.
        if let Some(id) = self.id_if_newest(h) {
            return Err(AddRefusal::Known(id));
        }
        self.add_named(h, &id_of(h))
    }

    /// The same of a header whose id was computed already.
    pub fn add_named(&mut self, h: &Header, id: &LedgerId) -> Result<LedgerNo, AddRefusal>
        requires { id.now ≡ header_id h.now }
        ensures exact { result ≡ unless_refused (add_refusal self.old h.now) (length self.old.headers) }
        ensures joins { IsOk result ↔ (Joins self.old.headers h.now × (length self.old.headers < self.old.limit)) }
        ensures added { OnOk result (self.new ≡ with_header self.old h.now) }
        ensures refused { OnErr result (self.new ≡ self.old) }
    {
        let parent = self.parent_for(h, id)?;
        Ok(self.push(h, *id, parent))
    }

    /// The id of the ledger that was added last, if it has this header.
    fn id_if_newest(&self, h: &Header) -> Option<LedgerId>
        ensures { IfSome result (λ id. (id ≡ header_id h.now) × IsSome (place_of self.now.headers id)) }
    {
        let newest = LedgerNo::at(self.len() - 1);
        let id = self.id_at(newest);
        if newest != LedgerNo::root()
            && is_same(self.header(newest), h)
            && self.find(&id).is_some()
        {
            Some(id)
        } else {
            None
        }
    }

    /// The parent of a header that can be added.
    fn parent_for(&self, h: &Header, id: &LedgerId) -> Result<LedgerNo, AddRefusal>
        requires { id.now ≡ header_id h.now }
        ensures { result ≡ unless_refused (add_refusal self.now h.now) (parent_place self.now.headers h.now) }
    {
        if self.find(id).is_some() {
            return Err(AddRefusal::Known(*id));
        }
        let Some(parent) = self.find(&h.parent) else {
            return Err(AddRefusal::Orphan(h.parent));
        };
        let parent_seq = self.seq_of(parent);
        if u64::from(h.seq) != u64::from(parent_seq) + 1 {
            return Err(AddRefusal::WrongSeq {
                parent: parent_seq,
                own: h.seq,
            });
        }
        if self.limit <= self.len() {
            return Err(AddRefusal::Full(self.limit));
        }
        Ok(parent)
    }

    fn push(&mut self, h: &Header, id: LedgerId, parent: LedgerNo) -> LedgerNo
        requires id { id ≡ header_id h.now }
        requires joins { Joins self.old.headers h.now }
        requires follows { place_of self.old.headers h.now.parent ≡ Some parent }
        requires room { length self.old.headers < self.old.limit }
        ensures place { result ≡ length self.old.headers }
        ensures added { self.new ≡ with_header self.old h.now }
    {
        let place = LedgerNo::at(self.ledgers.len() as u32);
        let bucket = bucket_of(&id, self.table.len());
        let jumps = jumps_below(&self.ledgers, parent);
        self.ledgers.push_reserved(Ledger {
            header: *h,
            id,
            jumps,
            before: self.table[bucket],
        });
        self.table[bucket] = Link::to(place);
        place
    }

    /// The ledger of an id, or None if none is known.
    pub fn find(&self, id: &LedgerId) -> Option<LedgerNo>
        ensures { result ≡ place_of self.now.headers id.now }
    {
        find(&self.ledgers, &self.table, id)
    }

    pub fn id_at(&self, ledger: LedgerNo) -> LedgerId
        requires { ledger < length self.now.headers }
        ensures { result ≡ id_at self.now.headers ledger }
    {
        self.ledgers[ledger.place()].id
    }

    pub fn seq_of(&self, ledger: LedgerNo) -> Seq
        requires { ledger < length self.now.headers }
        ensures value { result ≡ seq_at self.now.headers ledger }
        ensures below { result < greatest_limit }
        ensures ledgers { AreLedgers self.now.headers }
    {
        self.ledgers[ledger.place()].header.seq
    }

    /// The one way along the chains, with no step taken.
    pub fn walk(&self) -> Walk<'_>
        ensures { result ≡ start_of self.now }
    {
        Walk::new(self)
    }

    pub(crate) fn header(&self, ledger: LedgerNo) -> &Header
        requires { ledger < length self.now.headers }
        ensures { result.now ≡ header_at self.now.headers ledger }
    {
        &self.ledgers[ledger.place()].header
    }

    /// The ledger `2 ^ level` places up, or the root if that many aren't there.
    pub(crate) fn jump(&self, ledger: LedgerNo, level: u32) -> LedgerNo
        requires known { ledger < length self.now.headers }
        requires level { level < levels }
        ensures { result ≡ jump_of self.now.headers ledger level }
    {
        self.ledgers[ledger.place()].jumps[level as usize]
    }
}

/// Whether two headers are the same in each field.
fn is_same(one: &Header, other: &Header) -> bool
    ensures { IsTrue result → one.now ≡ other.now }
{
    one == other
}

/// Puts the root into an empty registry.
fn put_root(ledgers: &mut Vec<Ledger>, table: &mut Vec<Link>)
    requires empty { ledgers.old.items ≡ [] }
    requires room { 0 < vec_capacity ledgers.old }
    requires some { 0 < length table.old.items }
    requires unused { table.old.items ≡ replicate (length table.old.items) None }
    ensures indexed { IsIndexed ledgers.new.items table.new.items }
    ensures root { headers_of ledgers.new.items ≡ root_header ∷ [] }
    ensures room { vec_capacity ledgers.new ≡ vec_capacity ledgers.old }
{
    let root = root();
    let bucket = bucket_of(&root.id, table.len());
    ledgers.push_reserved(root);
    table[bucket] = Link::to(LedgerNo::root());
}

/// The root as it is stored, alone.
fn root() -> Ledger
    ensures header { result.header ≡ root_header }
    ensures id { result.id ≡ root_id }
    ensures jumps { result.jumps ≡ replicate levels 0 }
    ensures before { result.before ≡ None }
{
    Ledger {
        header: root_header(),
        id: LedgerId([0; 32]),
        jumps: [LedgerNo::root(); LEVELS],
        before: Link::none(),
    }
}
