ghost use Rattle.std.specs.Prelude.{◌≡◌, ◌≤◌, ◌<◌, ◌++◌, ◌∷◌, [], length};
ghost use Rattle.xl_base.specs.Members.{most_members};
ghost use Rattle.xl_lists.specs.Lists.{is_on};

use std::marker::Model;
use xl_base::MOST_MEMBERS;

/// At most 64 numbers of members, which contracts see as a list.
#[derive(Drop)]
pub struct RollMembers {
    /// The numbers stand at the front.
    places: [u32; MOST_MEMBERS],
    len: usize,
}

impl Model for RollMembers {
    ghost use Rattle.std.specs.Prelude.{◌≤◌, ℕ, List, take};
    ghost use Rattle.xl_base.specs.Members.{most_members};

    ghost Value = { List ℕ };

    ghost view = { λ m. take m.len m.places };

    ghost invariant = { λ m. m.len ≤ most_members };
}

impl RollMembers {
    /// These numbers.
    pub fn of(numbers: &[u32]) -> RollMembers
        requires { length numbers.now ≤ most_members }
        ensures { result ≡ numbers.now }
    {
        let mut places = [0; MOST_MEMBERS];
        places[..numbers.len()].copy_from_slice(numbers);
        RollMembers {
            places,
            len: numbers.len(),
        }
    }

    /// No numbers yet.
    pub fn none() -> RollMembers
        ensures { result ≡ [] }
    {
        RollMembers {
            places: [0; MOST_MEMBERS],
            len: 0,
        }
    }

    /// One number more.
    pub fn push(&mut self, number: u32)
        requires { length self.old < most_members }
        ensures { self.new ≡ self.old ++ number ∷ [] }
    {
        self.places[self.len] = number;
        self.len += 1;
    }

    /// Whether a number is one of these.
    pub fn has(&self, number: u32) -> bool
        ensures { result ≡ is_on self.now number }
    {
        self.as_slice().iter().any(|member| number == *member)
    }

    pub fn as_slice(&self) -> &[u32]
        ensures value { result.now ≡ self.now }
        ensures few { length result.now ≤ most_members }
    {
        &self.places[..self.len]
    }
}
