// Where the nodes of all numbers stand.
ghost use Rattle.std.specs.Prelude.{◌≡◌, ◌==◌, ◌≤◌, IfOk, position};
ghost use Rattle.xl_base.specs.Members.{greatest_node_no};
ghost use Rattle.xl_world.specs.Stands.{AreSeats};

use crate::act::position_of;
use crate::place::Place;
use std::alloc::Global;
use std::marker::Model;
use xl_base::{GREATEST_NODE_NO, NodeNo, OutOfMemory};

/// Where the node of each number stands that one may have, if there is one: first that of number 1. No node moves while
/// a world stands, so each is looked for once.
#[derive(Drop)]
pub struct Seats {
    places: Vec<Option<usize>>,
}

impl Model for Seats {
    ghost use Rattle.std.specs.Prelude.{List, ℕ};
    ghost use Rattle.std.specs.declared.option.Option.{Option};

    ghost Value = { List (Option ℕ) };

    ghost view = { λ s. s.places.items };
}

/// The member of a number that one may have.
fn member(number: u32) -> NodeNo
    requires least { 1 ≤ number }
    requires greatest { number ≤ greatest_node_no }
    ensures { result ≡ number }
{
    NodeNo::new(number).unwrap()
}

impl Seats {
    /// Where the nodes of these places stand.
    pub fn of(alloc: Global, places: &[Place]) -> Result<Seats, OutOfMemory>
        ensures { IfOk result (λ seats. AreSeats seats places.now) }
    {
        let mut seats = Vec::new(alloc);
        for number in 1..=GREATEST_NODE_NO {
            seats.push(position_of(places, member(number)))?;
        }
        Ok(Seats { places: seats })
    }

    /// Where the node of a number stands in these places, as `position_of` finds it.
    pub fn seat_of(&self, places: &[Place], i: NodeNo) -> Option<usize>
        requires { AreSeats self.now places.now }
        ensures { result ≡ position (λ p. p.core.node.me == i) places.now }
    {
        self.places[i.get() as usize - 1]
    }
}
