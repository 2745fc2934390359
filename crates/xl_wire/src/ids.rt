ghost use Rattle.std.specs.Prelude.{◌≡◌, ◌*◌, ◌/◌, ◌<◌, length, drop, slice_get, Some, IsTrue};
ghost use Rattle.byteorder.specs.Endian.{big_number};
ghost use Rattle.xl_base.specs.Refusals.{unless_refused};
ghost use Rattle.xl_wire.specs.Kinds.{is_set_length};
ghost use Rattle.xl_wire.specs.SetsRead.{set_refusal};
ghost use Rattle.xl_base.specs.Sets.{IsSet};
ghost use Rattle.xl_wire.specs.Sets.{first_fall, ids_in};

use crate::WireRefusal;
use byteorder::{BigEndian, ByteOrder};
use std::marker::Model;
use xl_base::{TxId, bytes_at};

/// Where the ids of a set lie.
#[derive(Clone, Copy)]
pub enum Kept<'a> {
    /// One after the other in the bytes of a frame.
    Spelled(&'a [u8]),
    Listed(&'a [TxId]),
}

/// The ids of a set of transactions, strictly rising and at most 256, which contracts see as a list.
#[derive(Drop)]
pub struct Ids<'a> {
    kept: Kept<'a>,
}

impl<'a> Model for Ids<'a> {
    ghost use Rattle.std.specs.Prelude.{List};
    ghost use Rattle.xl_base.specs.declared.ids.TxId.{TxId};
    ghost use Rattle.xl_wire.specs.Storing.{kept_ids, IsKept};

    ghost Value = { List TxId };

    ghost view = { λ a. kept_ids a.kept };

    ghost invariant = { λ a. IsKept a.kept };
}

impl<'a> Ids<'a> {
    /// The ids of a list, which it borrows.
    pub fn of(ids: &'a [TxId]) -> Ids<'a>
        requires { IsSet ids.now }
        ensures { result ≡ ids.now }
    {
        Ids {
            kept: Kept::Listed(ids),
        }
    }

    /// The ids of a set's body, which it borrows, or why it is refused: Count or Order.
    pub(crate) fn read(bytes: &'a [u8]) -> Result<Ids<'a>, WireRefusal>
        requires { IsTrue (is_set_length (length bytes.now)) }
        ensures { result ≡ unless_refused (set_refusal bytes.now) (ids_in (big_number 2 bytes.now) (drop 2 bytes.now)) }
    {
        let count = BigEndian::read_u16(bytes);
        let ids = &bytes[2..];
        if ids.len() != 32 * count as usize {
            return Err(WireRefusal::Count(count));
        }
        match first_fall(ids) {
            Some(place) => Err(WireRefusal::Order(place)),
            None => Ok(Ids {
                kept: Kept::Spelled(ids),
            }),
        }
    }

    pub fn len(&self) -> usize
        ensures value { result ≡ length self.now }
        ensures set { IsSet self.now }
    {
        match self.kept {
            Kept::Spelled(bytes) => bytes.len() / 32,
            Kept::Listed(ids) => ids.len(),
        }
    }

    /// The id at a place, from 0 on.
    pub fn get(&self, i: usize) -> TxId
        requires { i < length self.now }
        ensures { slice_get self.now i ≡ Some result }
    {
        match self.kept {
            Kept::Spelled(bytes) => TxId(bytes_at(bytes, 32 * i)),
            Kept::Listed(ids) => ids[i],
        }
    }
}

/// The place of the first id that isn't greater than the one before.
fn first_fall(ids: &[u8]) -> Option<usize>
    requires { length ids.now ≡ 32 * (length ids.now / 32) }
    ensures { result ≡ first_fall (ids_in (length ids.now / 32) ids.now) }
{
    for place in 1..ids.len() / 32 {
        let at = 32 * place;
        let (before, id) = (&ids[at - 32..at], &ids[at..at + 32]);
        if !(before < id) {
            return Some(place);
        }
    }
    None
}
