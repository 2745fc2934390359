ghost use Rattle.std.specs.Prelude.{◌≡◌, ◌<◌, length, replicate, None, IfOk};
ghost use Rattle.xl_ledger.specs.Chains.{place_of};
ghost use Rattle.xl_ledger.specs.Tables.{bucket_of, headers_of, IsIndexed};

use crate::LedgerNo;
use crate::ledger::Ledger;
use crate::link::Link;
use byteorder::{BigEndian, ByteOrder};
use std::alloc::{AllocError, Global};
use xl_base::LedgerId;

/// This many buckets that lead to no ledger.
pub(crate) fn empty_table(alloc: Global, buckets: u32) -> Result<Vec<Link>, AllocError>
    ensures { IfOk result (λ table. table.items ≡ replicate buckets None) }
{
    let mut table = Vec::with_capacity(alloc, buckets as usize)?;
    for _ in 0..buckets {
        table.push_reserved(Link::none());
    }
    Ok(table)
}

/// The bucket of an id. Ids are hashes, so their first bytes spread them.
///
/// Who searches for headers of one bucket can fill it, and each look-up there then follows all of them: at most as many
/// as there are ledgers.
pub(crate) fn bucket_of(id: &LedgerId, buckets: usize) -> usize
    requires { 0 < buckets }
    ensures value { result ≡ bucket_of buckets id.now }
    ensures within { result < buckets }
{
    BigEndian::read_u32(&id.0) as usize % buckets
}

/// No bucket leads to a ledger any more. Only those that lead to one are written.
pub(crate) fn clear(ledgers: &[Ledger], table: &mut Vec<Link>)
    requires { IsIndexed ledgers.now table.old.items }
    ensures { table.new.items ≡ replicate (length table.old.items) None }
{
    for place in 0..ledgers.len() {
        let bucket = bucket_of(&ledgers[place].id, table.len());
        table[bucket] = Link::none();
    }
}

/// The ledger of an id: its bucket leads from the last ledger that it has to the first.
pub(crate) fn find(ledgers: &[Ledger], table: &[Link], id: &LedgerId) -> Option<LedgerNo>
    requires { IsIndexed ledgers.now table.now }
    ensures { result ≡ place_of (headers_of ledgers.now) id.now }
{
    let mut next = table[bucket_of(id, table.len())].ledger();
    while let Some(place) = next {
        let ledger = &ledgers[place.place()];
        if ledger.id == *id {
            return Some(place);
        }
        next = ledger.before.ledger();
    }
    None
}
