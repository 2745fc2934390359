// Rolls in bytes: their fields, and why they are refused.
ghost use Rattle.std.specs.Prelude.{◌≡◌, ◌≤◌, ◌<◌, ◌+◌, ◌*◌, IfNone, length, drop};
ghost use Rattle.byteorder.specs.Endian.{big_number};
ghost use Rattle.xl_lists.specs.Lists.{is_on};
ghost use Rattle.xl_publish.specs.Fields.{publisher_in, seq_in, from_in, until_in, count_in, members_in, said_in, tag_in, IsShaped};
ghost use Rattle.xl_base.specs.Sets.{comes_before};
ghost use Rattle.xl_publish.specs.Orders.{is_below};
ghost use Rattle.xl_publish.specs.Forces.{is_in_force};
ghost use Rattle.xl_publish.specs.Refusing.{shape_refusal, said_refusal, first_wrong, may_follow};
ghost use Rattle.xl_publish.specs.Texts.{stranger_in};

use crate::{RollMembers, RollRefusal};
use byteorder::{BigEndian, ByteOrder};
use std::cmp::Ordering;
use xl_base::{GREATEST_NODE_NO, NodeNo, Secs, bytes_at};

/// How many bytes stand before the members.
const HEAD: usize = 21;

/// The first cause that needs no key.
pub(crate) fn shape_refusal(bytes: &[u8]) -> Option<RollRefusal>
    ensures value { result ≡ shape_refusal bytes.now }
    ensures shaped { IfNone result (IsShaped bytes.now) }
{
    if bytes.len() > 0 && bytes[0] != 0x58 {
        return Some(RollRefusal::Magic(0));
    }
    if bytes.len() > 1 && bytes[1] != 0x50 {
        return Some(RollRefusal::Magic(1));
    }
    if bytes.len() > 2 && bytes[2] != 1 {
        return Some(RollRefusal::Version(bytes[2]));
    }
    if bytes.len() < HEAD {
        return Some(RollRefusal::Short(HEAD - bytes.len()));
    }
    let count = count_in(bytes);
    if count < 1 || count > 64 {
        return Some(RollRefusal::Count(count));
    }
    let wanted = 53 + 4 * count as usize;
    if bytes.len() < wanted {
        return Some(RollRefusal::Short(wanted - bytes.len()));
    }
    if bytes.len() > wanted {
        return Some(RollRefusal::Long(bytes.len() - wanted));
    }
    None
}

/// Why what a roll says is refused: Member or Dates.
pub(crate) fn said_refusal(bytes: &[u8]) -> Option<RollRefusal>
    requires { IsShaped bytes.now }
    ensures { result ≡ said_refusal bytes.now }
{
    if let Some(place) = first_wrong(bytes) {
        return Some(RollRefusal::Member(place));
    }
    let (from, until) = (from_in(bytes), until_in(bytes));
    if from < until {
        None
    } else {
        Some(RollRefusal::Dates { from, until })
    }
}

/// The place of the first member that isn't above the one before or is above 64.
fn first_wrong(bytes: &[u8]) -> Option<usize>
    requires { IsShaped bytes.now }
    ensures { result ≡ first_wrong 0 0 (members_in bytes.now) }
{
    let mut before = 0;
    for place in 0..count_in(bytes) as usize {
        let member = member_at(bytes, place);
        if !may_follow(before, member) {
            return Some(place);
        }
        before = member;
    }
    None
}

/// Whether a member is above the one before, and no number above 64.
fn may_follow(before: u32, member: u32) -> bool
    ensures { result ≡ may_follow before member }
{
    before < member && member <= GREATEST_NODE_NO
}

/// Whether a roll names the member.
pub(crate) fn names(bytes: &[u8], member: NodeNo) -> bool
    requires { IsShaped bytes.now }
    ensures { result ≡ is_on (members_in bytes.now) member }
{
    let number = member.get();
    for place in 0..count_in(bytes) as usize {
        if number == member_at(bytes, place) {
            return true;
        }
    }
    false
}

/// The first member that a roll names and that isn't one of these.
pub(crate) fn stranger_in(bytes: &[u8], members: &RollMembers) -> Option<u32>
    requires { IsShaped bytes.now }
    ensures { result ≡ stranger_in members.now bytes.now }
{
    for place in 0..count_in(bytes) as usize {
        let member = member_at(bytes, place);
        if !members.has(member) {
            return Some(member);
        }
    }
    None
}

/// Whether a roll is in force at a second.
pub(crate) fn is_in_force(bytes: &[u8], now: Secs) -> bool
    requires { IsShaped bytes.now }
    ensures { result ≡ is_in_force now bytes.now }
{
    from_in(bytes) <= now && now < until_in(bytes)
}

/// Whether a roll is below another.
pub(crate) fn is_below(a: &[u8], b: &[u8]) -> bool
    requires first { IsShaped a.now }
    requires second { IsShaped b.now }
    ensures { result ≡ is_below a.now b.now }
{
    if seq_in(a) == seq_in(b) {
        comes_before(a, b)
    } else {
        seq_in(a) < seq_in(b)
    }
}

/// Whether the first list of bytes has the lower one where they differ first.
fn comes_before(a: &[u8], b: &[u8]) -> bool
    ensures { result ≡ comes_before a.now b.now }
{
    a.cmp(b) == Ordering::Less
}

/// The member at a place, from 0 on.
fn member_at(bytes: &[u8], place: usize) -> u32
    requires shaped { IsShaped bytes.now }
    requires there { place < count_in bytes.now }
    ensures { result ≡ big_number 4 (drop (21 + 4 * place) bytes.now) }
{
    BigEndian::read_u32(&bytes[HEAD + 4 * place..])
}

/// The number of the publisher.
pub(crate) fn publisher_in(bytes: &[u8]) -> u32
    requires { 21 ≤ length bytes.now }
    ensures { result ≡ publisher_in bytes.now }
{
    BigEndian::read_u32(&bytes[3..])
}

/// The roll's sequence.
pub(crate) fn seq_in(bytes: &[u8]) -> u32
    requires { IsShaped bytes.now }
    ensures { result ≡ seq_in bytes.now }
{
    BigEndian::read_u32(&bytes[7..])
}

fn from_in(bytes: &[u8]) -> Secs
    requires { IsShaped bytes.now }
    ensures { result ≡ from_in bytes.now }
{
    BigEndian::read_u32(&bytes[11..])
}

fn until_in(bytes: &[u8]) -> Secs
    requires { IsShaped bytes.now }
    ensures { result ≡ until_in bytes.now }
{
    BigEndian::read_u32(&bytes[15..])
}

fn count_in(bytes: &[u8]) -> u16
    requires { 21 ≤ length bytes.now }
    ensures { result ≡ count_in bytes.now }
{
    BigEndian::read_u16(&bytes[19..])
}

/// All bytes of a roll but its tag.
pub(crate) fn said_in(bytes: &[u8]) -> &[u8]
    requires { IsShaped bytes.now }
    ensures { result.now ≡ said_in bytes.now }
{
    &bytes[..bytes.len() - 32]
}

/// The tag of a roll.
pub(crate) fn tag_in(bytes: &[u8]) -> [u8; 32]
    requires { IsShaped bytes.now }
    ensures { result ≡ tag_in bytes.now }
{
    bytes_at(bytes, bytes.len() - 32)
}
