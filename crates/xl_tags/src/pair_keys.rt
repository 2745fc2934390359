ghost use Rattle.std.specs.Prelude.{◌≡◌};
ghost use Rattle.xl_tags.specs.PairKeys.{pair_key_of};

use sha2::{Digest, Sha256};
use xl_base::NodeNo;

/// The key that a schedule gives two members, whichever of them asks.
pub fn pair_key(a: NodeNo, b: NodeNo) -> [u8; 32]
    ensures value { result ≡ pair_key_of a b }
    ensures alike { result ≡ pair_key_of b a }
{
    let lesser = a.get().min(b.get());
    let greater = a.get().max(b.get());
    Sha256::new_with_prefix(&[0x58, 0x4C, 0x4B, 0x59])
        .chain_update(&lesser.to_be_bytes())
        .chain_update(&greater.to_be_bytes())
        .finalize()
}
