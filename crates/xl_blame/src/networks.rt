// Journals that are not of one network.
ghost use Rattle.std.specs.Prelude.{◌≡◌, ◌+◌, ◌++◌, ◌<◌, ◌≤◌, ◌^◌, IfOk, OnOk, is_some, find, length};
ghost use Rattle.std.specs.List.{range_with_len};
ghost use Rattle.xl_blame.specs.Networks.{are_two as are_two_keys, differ as differ_of, differ_at, mixed_if, mixed_in, mixed_with};
ghost use Rattle.xl_tags.specs.Rings.{key_of};

use std::alloc::Global;
use xl_base::{GREATEST_NODE_NO, NodeNo, OutOfMemory};
use xl_shown::End;
use xl_tags::Keys;

/// Two journals by their numbers, the lower first, that have two keys where there should be one.
#[derive(Clone, Copy, PartialEq, Eq)]
pub struct Mixed {
    pub one: u32,
    pub other: u32,
}

/// Whether these are two keys.
fn are_two(one: &Option<[u8; 32]>, other: &Option<[u8; 32]>) -> bool
    ensures { result ≡ are_two_keys one.now other.now }
{
    match (one, other) {
        (Some(one), Some(other)) => one != other,
        _ => false,
    }
}

fn numbered(number: u32) -> NodeNo
    requires least { 1 ≤ number }
    requires most { number ≤ 64 }
    ensures { result ≡ number }
{
    NodeNo::new(number).unwrap()
}

/// Whether two lives of one node have two keys for a member.
fn differ_somewhere(one: &Keys, other: &Keys) -> bool
    ensures { result ≡ is_some (find (differ_at one.now other.now) (range_with_len 1 64)) }
{
    for number in 1..GREATEST_NODE_NO + 1 {
        let member = numbered(number);
        if are_two(&one.get(member), &other.get(member)) {
            return true;
        }
    }
    false
}

/// Whether two nodes have two keys for their pair, or two lives of one node two keys for one member.
fn differ(one: &Keys, other: &Keys) -> bool
    ensures { result ≡ differ_of one.now other.now }
{
    if one.me() == other.me() {
        return differ_somewhere(one, other);
    }
    are_two(&one.get(other.me()), &other.get(one.me()))
}

/// Two journals are added, if their keys differ.
fn push_if(found: &mut Vec<Mixed>, differs: bool, one: u32, other: u32) -> Result<(), OutOfMemory>
    ensures { OnOk result (found.new.items ≡ found.old.items ++ mixed_if differs one other) }
{
    if differs {
        found.push(Mixed { one, other })?;
    }
    Ok(())
}

/// The journals behind one whose keys differ from its keys. The first of them has the number `next`.
fn push_mixed_with(
    found: &mut Vec<Mixed>,
    number: u32,
    keys: &Keys,
    next: u32,
    behind: &[End],
) -> Result<(), OutOfMemory>
    requires few { next + length behind.now < 2 ^ 32 }
    ensures { OnOk result (found.new.items ≡ found.old.items ++ mixed_with number keys.now next behind.now) }
{
    let mut other = next;
    for end in behind {
        push_if(found, differ(keys, end.keys.keys()), number, other)?;
        other += 1;
    }
    Ok(())
}

/// All pairs of journals whose keys differ, by rising numbers.
pub fn mixed_journals(alloc: Global, ended: &[End]) -> Result<Vec<Mixed>, OutOfMemory>
    requires few { length ended.now ≤ 1000 }
    ensures { IfOk result (λ found. found.items ≡ mixed_in 1 ended.now) }
{
    let mut found = Vec::new(alloc);
    for place in 0..ended.len() {
        let number = place as u32 + 1;
        push_mixed_with(
            &mut found,
            number,
            ended[place].keys.keys(),
            number + 1,
            &ended[place + 1..],
        )?;
    }
    Ok(found)
}
