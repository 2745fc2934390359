ghost use Rattle.std.specs.Prelude.{◌≡◌, ⊤};
ghost use Rattle.xl_publish.specs.Fields.{IsShaped};

use crate::roll::LONGEST_ROLL;
use std::alloc::AllocError;
use std::marker::Model;

/// The bytes of a roll that is kept, which contracts see as a list.
#[derive(Drop)]
pub(crate) struct KeptRoll {
    /// The bytes stand at the front.
    room: [u8; LONGEST_ROLL],
    len: usize,
}

impl Model for KeptRoll {
    ghost use Rattle.std.specs.Prelude.{ℕ, List};
    ghost use Rattle.xl_publish.specs.Stored.{stored_bytes, IsStored};

    ghost Value = { List ℕ };

    ghost view = { λ k. stored_bytes k.room k.len };

    ghost invariant = { λ k. IsStored k.room k.len };
}

impl KeptRoll {
    pub(crate) fn of(bytes: &[u8]) -> KeptRoll
        requires { IsShaped bytes.now }
        ensures { result ≡ bytes.now }
    {
        let mut room = [0; LONGEST_ROLL];
        room[..bytes.len()].copy_from_slice(bytes);
        KeptRoll {
            room,
            len: bytes.len(),
        }
    }

    pub(crate) fn as_slice(&self) -> &[u8]
        ensures value { result.now ≡ self.now }
        ensures shaped { IsShaped self.now }
    {
        &self.room[..self.len]
    }
}

impl Clone for KeptRoll {
    ghost is_clone = { λ x y. y ≡ x };

    ghost is_infallible = { λ _. ⊤ };

    fn clone(&self) -> Result<KeptRoll, AllocError> {
        Ok(KeptRoll {
            room: self.room,
            len: self.len,
        })
    }
}
