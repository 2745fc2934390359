ghost use Rattle.std.specs.Prelude.{◌≡◌, []};
ghost use Rattle.xl_base.specs.Sets.{set_id_of};

use crate::hash::first_half;
use crate::{SetId, TxId};
use sha2::{Digest, Sha512};

/// The most ids of a set.
pub const MOST_IDS: usize = 256;

/// The half hash of `TXS` and a zero byte.
const EMPTY_SET: SetId = SetId([
    0x35, 0xb7, 0x04, 0x75, 0xec, 0x8d, 0x59, 0x72, 0xe6, 0xb2, 0x26, 0xc7, 0x3a, 0xca, 0x84, 0x3d,
    0x78, 0x0d, 0xd3, 0x64, 0x20, 0xcf, 0x49, 0xeb, 0xde, 0xf1, 0xb7, 0x1b, 0xd7, 0x6e, 0x00, 0x47,
]);

/// The id of a set: the half hash of `TXS`, a zero byte, and the ids one after the other.
///
/// A set's ids rise strictly, so that a set has one id.
pub fn set_id(ids: &[TxId]) -> SetId
    ensures { result ≡ set_id_of ids.now }
{
    let mut hasher = Sha512::new();
    hasher.update(b"TXS\0");
    for id in ids {
        hasher.update(&id.0);
    }
    SetId(first_half(&hasher.finalize()))
}

/// The id of the set that has no transaction. It is known, so that nothing is hashed.
pub fn empty_set() -> SetId
    ensures { result ≡ set_id_of [] }
{
    EMPTY_SET
}
