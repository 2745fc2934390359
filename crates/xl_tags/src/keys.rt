ghost use Rattle.std.specs.Prelude.{◌≡◌, ◌≢◌, ◌≤◌, ℕ, None, Some, IsTrue, IsSome, is_some, ◌↔◌, option_copied, option_map};
ghost use Rattle.xl_tags.specs.Macs.{mac};
ghost use Rattle.xl_tags.specs.Sources.{put_at as put_at_of};
ghost use Rattle.xl_lists.specs.Lists.{TrustedList, IsValid};
ghost use Rattle.xl_tags.specs.Missing.{is_missing, lowest_missing};
ghost use Rattle.xl_tags.specs.Opening.{HasKeys};
ghost use Rattle.xl_tags.specs.Rings.{key_of, with_key, no_keys, schedule_key, schedule_ring, IsRing};

use crate::prepared::Prepared;
use crate::{hmac, pair_key};
use std::array;
use std::marker::Model;
use xl_base::{GREATEST_NODE_NO, MOST_MEMBERS, NodeNo};
use xl_lists::List;

/// The keys that a member shares with others, one with each. No call takes memory.
///
/// A key that is put is prepared then, so that each of its tags costs less. A schedule's keys are made as they are
/// asked for, since most are never.
#[derive(Drop)]
pub struct Keys {
    me: NodeNo,
    /// Those that were put, in the order of the members, from 1 on.
    prepared: [Option<Prepared>; MOST_MEMBERS],
    /// Whether all others are those of a schedule.
    of_schedule: bool,
}

impl Model for Keys {
    ghost use Rattle.xl_tags.specs.Rings.{Ring};
    ghost use Rattle.xl_tags.specs.Sources.{ring_from, IsSource};

    ghost Value = { Ring };

    ghost view = { λ k. ring_from k.me k.of_schedule k.prepared };

    ghost invariant = { λ k. IsSource k.me k.prepared };
}

/// The member of a number.
fn member_of(number: u32) -> NodeNo
    requires least { 1 ≤ number }
    requires most { number ≤ 64 }
    ensures { result ≡ number }
{
    NodeNo::new(number).unwrap()
}

/// The key of a number among those that were put.
fn put_at(prepared: &[Option<Prepared>; MOST_MEMBERS], number: u32) -> Option<&Prepared>
    ensures { option_copied result ≡ put_at_of prepared.now number }
{
    let place = number.checked_sub(1)?;
    prepared.get(place as usize)?.as_ref()
}

/// Whether a key was put for a number.
fn has_put(prepared: &[Option<Prepared>; MOST_MEMBERS], number: u32) -> bool
    ensures { result ≡ is_some (put_at_of prepared.now number) }
{
    put_at(prepared, number).is_some()
}

/// Whether a schedule gives me a key for a number.
fn has_pair(me: NodeNo, number: u32) -> bool
    ensures { result ≡ is_some (schedule_key me number) }
{
    match NodeNo::new(number) {
        Some(member) => member != me,
        None => false,
    }
}

/// The key that a schedule gives me for a number.
fn key_with(me: NodeNo, number: u32) -> Option<[u8; 32]>
    ensures { result ≡ schedule_key me number }
{
    match NodeNo::new(number) {
        Some(member) if member != me => Some(pair_key(me, member)),
        _ => None,
    }
}

impl Keys {
    /// No keys yet.
    pub fn new(me: NodeNo) -> Keys
        ensures ring { result ≡ no_keys me }
        ensures none { (member : ℕ) → key_of result member ≡ None }
    {
        Keys {
            me,
            prepared: array::repeat(None),
            of_schedule: false,
        }
    }

    /// The keys that a schedule gives its member, one with each of the 63 others.
    pub fn of_schedule(me: NodeNo) -> Keys
        ensures ring { result ≡ schedule_ring me }
        ensures me { result.me ≡ me }
        ensures keys { (member : ℕ) → key_of result member ≡ schedule_key me member }
        // Every list's members have theirs.
        ensures listed { (list : TrustedList) → IsValid list → HasKeys result list.members }
    {
        Keys {
            me,
            prepared: array::repeat(None),
            of_schedule: true,
        }
    }

    /// Whose keys they are.
    pub fn me(&self) -> NodeNo
        ensures value { result ≡ self.now.me }
        ensures ring { IsRing self.now }
    {
        self.me
    }

    /// Keeps the key of another member, in place of the one before.
    pub fn put(&mut self, member: NodeNo, key: [u8; 32])
        requires other { member ≢ self.old.me }
        ensures keys { self.new ≡ with_key self.old member key }
        ensures kept { key_of self.new member ≡ Some key }
        ensures others { (other : ℕ) → other ≢ member → key_of self.new other ≡ key_of self.old other }
    {
        self.prepared[member.get() as usize - 1] = Some(Prepared::of(key));
    }

    /// Whether the member has a key.
    pub fn has(&self, member: NodeNo) -> bool
        ensures { IsTrue result ↔ IsSome (key_of self.now member) }
    {
        self.knows(member.get())
    }

    /// Whether each listed member except me has a key.
    pub fn has_all(&self, list: &List) -> bool
        ensures { IsTrue result ↔ HasKeys self.now list.now.members }
    {
        list.members().iter().all(|&member| self.is_met(member))
    }

    /// The lowest listed member other than me that has no key, if there is one.
    pub fn lowest_missing(&self, list: &List) -> Option<NodeNo>
        ensures value { result ≡ lowest_missing self.now list.now.members }
        ensures met { result ≡ None → HasKeys self.now list.now.members }
    {
        // Each list is valid.
        let _members = list.members();
        for number in 1..GREATEST_NODE_NO + 1 {
            let member = member_of(number);
            if self.is_missing(list, member) {
                return Some(member);
            }
        }
        None
    }

    fn is_missing(&self, list: &List, member: NodeNo) -> bool
        ensures { result ≡ is_missing self.now list.now.members member }
    {
        list.has(member) && member != self.me && !self.knows(member.get())
    }

    /// Whether the member is me or has a key.
    fn is_met(&self, member: NodeNo) -> bool
        ensures { IsTrue result ↔ (member ≢ self.now.me → IsSome (key_of self.now member)) }
    {
        member == self.me || self.has(member)
    }

    /// The member's key.
    pub fn get(&self, member: NodeNo) -> Option<[u8; 32]>
        ensures { result ≡ key_of self.now member }
    {
        match put_at(&self.prepared, member.get()) {
            Some(key) => Some(key.key()),
            None if self.of_schedule => key_with(self.me, member.get()),
            None => None,
        }
    }

    /// Equal keys.
    pub fn copy(&self) -> Keys
        ensures { result ≡ self.now }
    {
        match self.prepared.clone() {
            Ok(prepared) => Keys {
                me: self.me,
                prepared,
                of_schedule: self.of_schedule,
            },
            Err(_) => unreachable!(),
        }
    }

    /// Whether the number has a key.
    pub(crate) fn knows(&self, number: u32) -> bool
        ensures { result ≡ is_some (key_of self.now number) }
    {
        has_put(&self.prepared, number) || (self.of_schedule && has_pair(self.me, number))
    }

    /// The tag of the bytes under the key of a number.
    pub(crate) fn tag(&self, number: u32, bytes: &[u8]) -> [u8; 32]
        requires { IsSome (key_of self.now number) }
        ensures { option_map (λ key. mac key bytes.now) (key_of self.now number) ≡ Some result }
    {
        match put_at(&self.prepared, number) {
            Some(key) => key.tag(bytes),
            None => match key_with(self.me, number) {
                Some(key) => hmac(&key, bytes),
                None => unreachable!(),
            },
        }
    }
}
