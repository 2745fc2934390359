ghost use Rattle.std.specs.Prelude.{◌≡◌, ⊤};
ghost use Rattle.xl_tags.specs.Macs.{mac};

use crate::macs::Pads;
use std::alloc::AllocError;
use std::marker::Model;

/// A key whose pads are hashed already, which contracts see as the key.
#[derive(Drop)]
pub(crate) struct Prepared {
    key: [u8; 32],
    pads: Pads,
}

impl Model for Prepared {
    ghost use Rattle.std.specs.Prelude.{ℕ, List};

    ghost Value = { List ℕ };

    ghost use Rattle.xl_tags.specs.Prepared.{ArePads};

    ghost view = { λ p. p.key };

    ghost invariant = { λ p. ArePads p.pads p.key };
}

impl Prepared {
    pub(crate) fn of(key: [u8; 32]) -> Prepared
        ensures { result ≡ key }
    {
        Prepared {
            key,
            pads: Pads::of(&key),
        }
    }

    pub(crate) fn key(&self) -> [u8; 32]
        ensures { result ≡ self.now }
    {
        self.key
    }

    /// The tag of the bytes under the key.
    pub(crate) fn tag(&self, bytes: &[u8]) -> [u8; 32]
        ensures { result ≡ mac self.now bytes.now }
    {
        self.pads.tag(bytes)
    }
}

impl Clone for Prepared {
    ghost is_clone = { λ x y. y ≡ x };

    ghost is_infallible = { λ _. ⊤ };

    fn clone(&self) -> Result<Prepared, AllocError> {
        Ok(Prepared {
            key: self.key,
            pads: self.pads.copy(),
        })
    }
}
