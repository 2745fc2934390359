ghost use Rattle.std.specs.Prelude.{◌≡◌, ◌≤◌, SomeIff};
ghost use Rattle.xl_base.specs.Members.{greatest_node_no};

use std::marker::Model;

/// The greatest number of a member.
pub const GREATEST_NODE_NO: u32 = 64;

/// The most members, one for each number.
pub const MOST_MEMBERS: usize = GREATEST_NODE_NO as usize;

/// A member's number, from 1 to 64.
#[derive(Clone, Copy, PartialEq, Eq, PartialOrd, Ord)]
pub struct NodeNo {
    number: u8,
}

impl Model for NodeNo {
    ghost use Rattle.std.specs.Prelude.{ℕ, ◌≤◌};

    ghost Value = { ℕ };

    ghost view = { λ a. a.number };

    ghost invariant = { λ a. (1 ≤ a.number) × (a.number ≤ 64) };

    ghost inverse = { λ n. record { number = n } };
}

impl NodeNo {
    /// The member of a number, or None for one outside 1 to 64.
    pub fn new(number: u32) -> Option<NodeNo>
        ensures { SomeIff result ((1 ≤ number) × (number ≤ greatest_node_no)) number }
    {
        if 1 <= number && number <= GREATEST_NODE_NO {
            Some(NodeNo {
                number: number as u8,
            })
        } else {
            None
        }
    }

    pub fn get(self) -> u32
        ensures value { result ≡ self }
        ensures first { 1 ≤ result }
        ensures last { result ≤ greatest_node_no }
    {
        u32::from(self.number)
    }
}
