ghost use Rattle.std.specs.Prelude.{◌≡◌};
ghost use Rattle.xl_publish.specs.Texts.{digits_in};

use crate::roll::LONGEST_ROLL;
use std::marker::Model;

/// At most as many bytes as the longest roll has, which contracts see as a list.
#[derive(Drop)]
pub(crate) struct RollBytes {
    /// The bytes stand at the front.
    room: [u8; LONGEST_ROLL],
    len: usize,
}

impl Model for RollBytes {
    ghost use Rattle.std.specs.Prelude.{◌≤◌, ℕ, List, take};

    ghost Value = { List ℕ };

    ghost view = { λ b. take b.len b.room };

    ghost invariant = { λ b. b.len ≤ 309 };
}

impl RollBytes {
    /// The bytes that digits write.
    pub(crate) fn of_digits(digits: &[u8]) -> Option<RollBytes>
        ensures { result ≡ digits_in digits.now }
    {
        if digits.len() > 2 * LONGEST_ROLL {
            return None;
        }
        let mut room = [0; LONGEST_ROLL];
        let len = digits.len() / 2;
        match hex::decode_to_slice(digits, &mut room[..len]) {
            Ok(()) => Some(RollBytes { room, len }),
            Err(_) => None,
        }
    }

    pub(crate) fn as_slice(&self) -> &[u8]
        ensures { result.now ≡ self.now }
    {
        &self.room[..self.len]
    }
}
