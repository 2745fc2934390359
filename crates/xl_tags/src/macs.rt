ghost use Rattle.std.specs.Prelude.{◌≡◌, ◌-◌, ◌≤◌, ◌++◌, ℕ, List, length, map, replicate, bit_xor};
ghost use Rattle.xl_tags.specs.Macs.{mac, key_block};
ghost use Rattle.xl_tags.specs.Prepared.{ArePads};

use sha2::{Digest, Sha256};

/// How many bytes a block of SHA-256 has.
const BLOCK: usize = 64;

const INNER_PAD: u8 = 0x36;

const OUTER_PAD: u8 = 0x5C;

/// The tag of the bytes under the key: HMAC-SHA-256 (RFC 2104), for a key of any length.
pub fn hmac(key: &[u8], bytes: &[u8]) -> [u8; 32]
    ensures { result ≡ mac key.now bytes.now }
{
    Pads::of(key).tag(bytes)
}

/// Two hashers, each of which has taken in one pad of a key.
#[derive(Drop)]
pub(crate) struct Pads {
    inner: Sha256,
    outer: Sha256,
}

impl Pads {
    pub(crate) fn of(key: &[u8]) -> Pads
        ensures { ArePads result key.now }
    {
        let block = key_block(key);
        Pads {
            inner: Sha256::new_with_prefix(&padded(&block, INNER_PAD)),
            outer: Sha256::new_with_prefix(&padded(&block, OUTER_PAD)),
        }
    }

    /// The tag of the bytes under the pads' key: one compression more than the bytes take.
    pub(crate) fn tag(&self, bytes: &[u8]) -> [u8; 32]
        ensures { (key : List ℕ) → ArePads self.now key → result ≡ mac key bytes.now }
    {
        let inner = copy(&self.inner).chain_update(bytes);
        let outer = copy(&self.outer).chain_update(inner.finalize());
        outer.finalize()
    }

    pub(crate) fn copy(&self) -> Pads
        ensures { result ≡ self.now }
    {
        Pads {
            inner: copy(&self.inner),
            outer: copy(&self.outer),
        }
    }
}

/// An equal hasher. Hashers own no memory, so cloning one never fails.
fn copy(hasher: &Sha256) -> Sha256
    ensures { result ≡ hasher.now }
{
    match hasher.clone() {
        Ok(same) => same,
        Err(_) => unreachable!(),
    }
}

/// The key, or its hash if it is longer than a block, filled with zero bytes to a block.
fn key_block(key: &[u8]) -> [u8; BLOCK]
    ensures { result ≡ key_block key.now }
{
    if key.len() > BLOCK {
        filled(&Sha256::digest(key))
    } else {
        filled(key)
    }
}

fn filled(bytes: &[u8]) -> [u8; BLOCK]
    requires { length bytes.now ≤ 64 }
    ensures { result ≡ bytes.now ++ replicate (64 - length bytes.now) 0 }
{
    let mut block = [0; BLOCK];
    block[..bytes.len()].copy_from_slice(bytes);
    block
}

fn padded(block: &[u8; BLOCK], pad: u8) -> [u8; BLOCK]
    ensures { result ≡ map (λ byte. bit_xor byte pad) block.now }
{
    let mut padded = *block;
    for byte in &mut padded {
        *byte ^= pad;
    }
    padded
}
