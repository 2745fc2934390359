ghost use Rattle.std.specs.Prelude.{◌≡◌};

use std::marker::Model;

/// A vector of bytes, which contracts see as a list.
#[derive(Debug, Drop)]
pub struct Bytes {
    bytes: Vec<u8>,
}

impl Model for Bytes {
    ghost use Rattle.std.specs.Prelude.{ℕ, List};

    ghost Value = { List ℕ };

    ghost view = { λ b. b.bytes.items };
}

impl Bytes {
    /// These bytes. It takes no memory.
    pub fn from_vec(bytes: Vec<u8>) -> Self
        ensures { result ≡ bytes.items }
    {
        Bytes { bytes }
    }

    pub fn as_slice(&self) -> &[u8]
        ensures { result.now ≡ self.now }
    {
        &self.bytes
    }
}
