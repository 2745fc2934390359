ghost use Rattle.std.specs.Prelude.{◌≡◌, ◌+◌, ◌-◌, ◌<◌};

use xl_base::{MOST_MEMBERS, NodeNo};

/// The place of a member.
pub(crate) fn place_of(member: NodeNo) -> usize
    ensures value { result ≡ member - 1 }
    ensures within { result < 64 }
{
    member.get() as usize - 1
}

/// The member of a place.
pub(crate) fn member_at(place: usize) -> NodeNo
    requires { place < 64 }
    ensures { result ≡ place + 1 }
{
    NodeNo::new(place as u32 + 1).unwrap()
}
