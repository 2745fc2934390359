ghost use Rattle.std.specs.Prelude.{◌≡◌, ◌≤◌, ◌+◌, ◌*◌, length, take, drop};
ghost use Rattle.xl_base.specs.Putting.{Puts};
ghost use Rattle.xl_publish.specs.Rolls.{member_bytes, said_bytes, roll_bytes, length_of};

use crate::Roll;
use xl_base::{put, put_field, put_u16, put_u32};
use xl_tags::hmac;

/// Writes a roll's one spelling under a key at the front of the room, answers its length, and leaves the rest.
pub fn write_roll(roll: &Roll, key: &[u8; 32], room: &mut [u8]) -> usize
    requires { length_of (length roll.now.members) ≤ length room.old }
    ensures long { result ≡ length_of (length roll.now.members) }
    ensures written { take result room.new ≡ roll_bytes key.now roll.now }
    ensures rest { drop result room.new ≡ drop result room.old }
{
    let end = put_said(room, roll);
    let tag = hmac(key, &room[..end]);
    put_field(room, end, &tag);
    end + 32
}

/// All of a roll but its tag. Answers its length.
fn put_said(room: &mut [u8], roll: &Roll) -> usize
    requires { length_of (length roll.now.members) ≤ length room.old }
    ensures long { result ≡ 21 + 4 * length roll.now.members }
    ensures few { result ≤ 277 }
    ensures puts { Puts 0 (said_bytes roll.now) room.old room.new }
{
    let members = roll.members.as_slice();
    put(room, 0, &[0x58, 0x50, 1]);
    put_u32(room, 3, roll.publisher);
    put_u32(room, 7, roll.seq);
    put_u32(room, 11, roll.from);
    put_u32(room, 15, roll.until);
    put_u16(room, 19, members.len() as u16);
    put_members(room, members);
    21 + 4 * members.len()
}

/// The members, in four bytes each.
fn put_members(room: &mut [u8], members: &[u32])
    requires fits { 21 + 4 * length members.now ≤ length room.old }
    requires few { length members.now ≤ 64 }
    ensures { Puts 21 (member_bytes members.now) room.old room.new }
{
    for (place, &member) in members.iter().enumerate() {
        put_u32(room, 21 + 4 * place, member);
    }
}
