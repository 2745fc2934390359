ghost use Rattle.std.specs.Prelude.{◌≡◌, ◌≤◌, [], length, take, find, option_map, IfOk};
ghost use Rattle.std.specs.Result.{result_err};
ghost use Rattle.xl_base.specs.Members.{most_members};
ghost use Rattle.xl_lists.specs.Lists.{list_of, is_on, is_outside, repeated_after, IsValid};
ghost use Rattle.xl_lists.specs.Marks.{AreMarked};

use crate::marks::Marks;
use crate::refusal::ListRefusal;
use std::marker::Model;
use xl_base::{MOST_MEMBERS, NodeNo};

/// The members that a node trusts, by rising number, and how many of them are a quorum.
///
/// There are 1 to 64 members, each once, and the quorum is more than half of them and at most all.
#[derive(Drop)]
pub struct List {
    /// The members stand at the front.
    places: [NodeNo; MOST_MEMBERS],
    len: usize,
    quorum: u32,
    marks: Marks,
}

impl Model for List {
    ghost use Rattle.xl_lists.specs.Lists.{TrustedList};
    ghost use Rattle.xl_lists.specs.Stored.{stored, IsStored};

    ghost Value = { TrustedList };

    ghost view = { λ list. stored list.places list.len list.quorum };

    ghost invariant = { λ list. IsStored list.places list.len list.quorum list.marks.bits };
}

impl List {
    /// The list of these members, in whatever order they are given, and this quorum.
    ///
    /// Refused as empty, as too many, for a number outside 1 to 64, for a repeated one, or for the quorum, in this
    /// order. The number that a refusal names is the first such one in the given order.
    pub fn new(members: &[u32], quorum: u32) -> Result<List, ListRefusal>
        ensures { result ≡ list_of members.now quorum }
    {
        if members.is_empty() {
            return Err(ListRefusal::Empty);
        }
        let len = members.len();
        if len > MOST_MEMBERS {
            return Err(ListRefusal::TooMany(len));
        }
        let given = places_of(members)?;
        let marks = marks_of_distinct(&given[..len])?;
        if quorum as usize > len || 2 * quorum as usize <= len {
            return Err(ListRefusal::Quorum {
                quorum,
                members: len as u32,
            });
        }
        Ok(List {
            places: marks.members(),
            len,
            quorum,
            marks,
        })
    }

    /// Whether the member stands on the list.
    pub fn has(&self, member: NodeNo) -> bool
        ensures { result ≡ is_on self.now.members member }
    {
        self.marks.has(member)
    }

    /// How many members there are, 1 to 64.
    pub fn len(&self) -> u32
        ensures value { result ≡ length self.now.members }
        ensures least { 1 ≤ result }
        ensures most { result ≤ 64 }
    {
        self.len as u32
    }

    /// How many members are a quorum.
    pub fn quorum(&self) -> u32
        ensures value { result ≡ self.now.quorum }
        ensures valid { IsValid self.now }
    {
        self.quorum
    }

    /// The members by rising number.
    pub fn members(&self) -> &[NodeNo]
        ensures value { result.now ≡ self.now.members }
        ensures valid { IsValid self.now }
    {
        &self.places[..self.len]
    }

    /// The members, each marked.
    pub(crate) fn marks(&self) -> Marks
        ensures value { AreMarked result.bits self.now.members }
        ensures valid { IsValid self.now }
    {
        self.marks
    }

    /// An equal list.
    pub fn copy(&self) -> List
        ensures { result ≡ self.now }
    {
        List {
            places: self.places,
            len: self.len,
            quorum: self.quorum,
            marks: self.marks,
        }
    }
}

/// The members of these numbers, at the front of the places.
fn places_of(numbers: &[u32]) -> Result<[NodeNo; MOST_MEMBERS], ListRefusal>
    requires { length numbers.now ≤ most_members }
    ensures refused { result_err result ≡ option_map ListRefusal.OutOfRange (find is_outside numbers.now) }
    ensures placed { IfOk result (λ places. take (length numbers.now) places ≡ numbers.now) }
{
    // No place after the last member is ever read.
    let mut places = [NodeNo::new(1).unwrap(); MOST_MEMBERS];
    for (place, &number) in numbers.iter().enumerate() {
        places[place] = NodeNo::new(number).ok_or(ListRefusal::OutOfRange(number))?;
    }
    Ok(places)
}

/// The marks of members each of which stands there once.
fn marks_of_distinct(members: &[NodeNo]) -> Result<Marks, ListRefusal>
    ensures refused { result_err result ≡ option_map ListRefusal.Repeated (repeated_after [] members.now) }
    ensures marked { IfOk result (λ marks. AreMarked marks.bits members.now) }
{
    let mut marks = Marks::none();
    for &member in members {
        if marks.has(member) {
            return Err(ListRefusal::Repeated(member.get()));
        }
        marks = marks.with(member);
    }
    Ok(marks)
}
