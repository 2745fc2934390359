ghost use Rattle.std.specs.Prelude.{◌≡◌};
ghost use Rattle.std.specs.Ordering.{nat_cmp};
ghost use Rattle.std.specs.Cmp.Lexicographic.{slice_cmp};
ghost use Rattle.std.specs.Str.{bytes_eq};
ghost use Rattle.xl_base.specs.Ids.{words_of};

use byteorder::{BigEndian, ByteOrder};
use std::cmp::Ordering;

/// The bytes of an id as four numbers, the first byte being the highest. Ids that share their first bytes, as those of
/// generated schedules do, then differ after four steps in place of 32.
fn words(id: &[u8; 32]) -> [u64; 4]
    ensures { result ≡ words_of id.now }
{
    [
        BigEndian::read_u64(&id[..]),
        BigEndian::read_u64(&id[8..]),
        BigEndian::read_u64(&id[16..]),
        BigEndian::read_u64(&id[24..]),
    ]
}

/// Whether two ids have the same bytes.
pub(crate) fn same(a: &[u8; 32], b: &[u8; 32]) -> bool
    ensures { result ≡ bytes_eq a.now b.now }
{
    words(a) == words(b)
}

/// The order of two ids by their bytes.
pub(crate) fn compare(a: &[u8; 32], b: &[u8; 32]) -> Ordering
    ensures { result ≡ slice_cmp nat_cmp a.now b.now }
{
    words(a).cmp(&words(b))
}
