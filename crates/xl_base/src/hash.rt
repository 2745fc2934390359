ghost use Rattle.std.specs.Prelude.{◌≡◌, take};
ghost use Rattle.xl_base.specs.Hashes.{half};

use sha2::{Digest, Sha512};

/// SHA-512Half: the first 32 bytes of the SHA-512 of the bytes (FIPS 180-4). Ledgers and sets are named by it.
pub fn half512(bytes: &[u8]) -> [u8; 32]
    ensures { result ≡ half bytes.now }
{
    first_half(&Sha512::digest(bytes))
}

/// The first 32 bytes of a SHA-512.
pub(crate) fn first_half(digest: &[u8; 64]) -> [u8; 32]
    ensures { result ≡ take 32 digest.now }
{
    let mut half = [0; 32];
    half.copy_from_slice(&digest[..32]);
    half
}
