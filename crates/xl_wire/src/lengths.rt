ghost use Rattle.std.specs.Prelude.{◌≡◌, ◌≤◌};
ghost use Rattle.xl_wire.specs.Lengths.{longest_body};
ghost use Rattle.xl_wire.specs.Writing.{body_length, validated_length};

use crate::Body;
use xl_base::{LedgerId, MOST_IDS};

/// The mark, the version, the kind, the body's length, the sender and the receiver stand before a body.
pub const HEAD: usize = 14;

/// The tag stands behind it.
pub(crate) const TAG: usize = 32;

/// How many bytes a frame has besides its body.
pub const AROUND: usize = HEAD + TAG;

pub(crate) const ID: usize = 32;

pub(crate) const PROPOSAL_BODY: usize = 76;

/// A validation's body of version 1; in version 2 an id follows.
pub(crate) const VALIDATION_BODY: usize = 41;

pub(crate) const HEADER_BODY: usize = 118;

/// The count in front of a set's ids.
pub(crate) const COUNT: usize = 2;

/// How many bytes the longest body has: that of a set of as many ids as there may be.
pub(crate) const LONGEST_BODY: usize = COUNT + ID * MOST_IDS;

/// How many bytes the longest frame has.
pub const LONGEST_FRAME: usize = AROUND + LONGEST_BODY;

/// How many bytes a validation's frame has in version 1.
pub const VALIDATION_FRAME: usize = AROUND + VALIDATION_BODY;

fn validated_length(validated: &Option<LedgerId>) -> usize
    ensures value { result ≡ validated_length validated.now }
    ensures small { result ≤ 32 }
{
    match validated {
        Some(_) => ID,
        None => 0,
    }
}

impl Body<'_> {
    /// How many bytes it has in a frame.
    pub fn len(&self) -> usize
        ensures value { result ≡ body_length self.now }
        ensures small { result ≤ longest_body }
    {
        match self {
            Body::Proposal(_) => PROPOSAL_BODY,
            Body::Validation(validation) => VALIDATION_BODY
                + validated_length(&validation.validated),
            Body::Header(_) => HEADER_BODY,
            Body::TxSet(ids) => COUNT + ID * ids.len(),
            Body::Tx(_) => ID,
        }
    }
}
