ghost use Rattle.std.specs.Prelude.{◌≡◌, ◌==◌, ◌&&◌, ◌||◌, ◌≤◌, ℕ, [], length, take};
ghost use Rattle.xl_base.specs.Members.{greatest_node_no};
ghost use Rattle.xl_lists.specs.Marks.{is_marked, marked, AreMarked};

use xl_base::{GREATEST_NODE_NO, MOST_MEMBERS, NodeNo};

/// A set of members, a bit for each: the lowest bit is that of member 1.
#[derive(Clone, Copy)]
pub struct Marks {
    bits: u64,
}

impl Marks {
    pub fn none() -> Marks
        ensures { AreMarked result.bits [] }
    {
        Marks { bits: 0 }
    }

    pub fn of(members: &[NodeNo]) -> Marks
        ensures { AreMarked result.bits members.now }
    {
        let mut marks = Marks::none();
        for &member in members {
            marks = marks.with(member);
        }
        marks
    }

    pub fn has(self, member: NodeNo) -> bool
        ensures { result ≡ is_marked self.bits member }
    {
        (self.bits >> (member.get() - 1)) & 1 == 1
    }

    pub fn with(self, member: NodeNo) -> Marks
        ensures { (m : ℕ) → is_marked result.bits m ≡ (m == member || is_marked self.bits m) }
    {
        Marks {
            bits: self.bits | 1 << (member.get() - 1),
        }
    }

    /// The members that are marked in both.
    pub(crate) fn shared(self, other: Marks) -> Marks
        ensures { (m : ℕ) → is_marked result.bits m ≡ (is_marked self.bits m && is_marked other.bits m) }
    {
        Marks {
            bits: self.bits & other.bits,
        }
    }

    /// How many members are marked.
    pub(crate) fn count(self) -> u32
        ensures { result ≡ length (marked self.bits) }
    {
        self.bits.count_ones()
    }

    /// The members that are marked, by rising number, at the front of the places.
    pub(crate) fn members(self) -> [NodeNo; MOST_MEMBERS]
        ensures { take (length (marked self.bits)) result ≡ marked self.bits }
    {
        // No place after the last member is ever read.
        let mut places = [NodeNo::new(1).unwrap(); MOST_MEMBERS];
        let mut len = 0;
        for number in 1..GREATEST_NODE_NO + 1 {
            let member = member_of(number);
            if self.has(member) {
                places[len] = member;
                len += 1;
            }
        }
        places
    }
}

fn member_of(number: u32) -> NodeNo
    requires { (1 ≤ number) × (number ≤ greatest_node_no) }
    ensures { result ≡ number }
{
    NodeNo::new(number).unwrap()
}
