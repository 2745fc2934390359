ghost use Rattle.std.specs.Prelude.{◌≡◌, ◌-◌, ◌<◌, IfOk, OnOk};
ghost use Rattle.xl_world.specs.Schedule.{node_asked};
ghost use Rattle.xl_nunl.specs.Lists.{IsNegative};
ghost use Rattle.xl_negative.specs.Ringing.{ring_keeping};
ghost use Rattle.xl_negative.specs.Seats.{
  after_what,
  hears,
  members_of,
  no_seats,
  seat_at,
  with_forgetting,
  with_hearing,
  with_leaving_out,
  with_listing,
};

use crate::hearing::Heard;
use crate::seat::Seat;
use std::alloc::Global;
use std::marker::Model;
use xl_base::{MOST_MEMBERS, NodeNo, OutOfMemory};
use xl_lists::List;
use xl_sched::{Ask, What};

/// A seat for each number from 1 to 64. After `OutOfMemory` they may be any.
#[derive(Drop)]
pub struct Seats {
    seats: Vec<Seat>,
}

impl Model for Seats {
    ghost use Rattle.std.specs.Prelude.{◌≡◌, List, length};
    ghost use Rattle.xl_negative.specs.Ringing.{Places};
    ghost use Rattle.xl_negative.specs.Seats.{Seat as TheSeat};

    ghost Value = { List (TheSeat Places) };

    ghost view = { λ s. s.seats.items };

    ghost invariant = { λ s. length s.seats.items ≡ 64 };
}

impl Seats {
    /// No node has any number.
    pub fn open(alloc: Global) -> Result<Seats, OutOfMemory>
        ensures { IfOk result (λ seats. seats ≡ no_seats ring_keeping) }
    {
        let seats = empty_seats(alloc)?;
        Ok(Seats { seats })
    }

    pub fn at(&self, i: NodeNo) -> &Seat
        ensures { result.now ≡ seat_at ring_keeping self.now i }
    {
        &self.seats[place_of(i)]
    }

    fn hear_one(&mut self, alloc: Global, heard: &Heard) -> Result<(), OutOfMemory>
        ensures { OnOk result (self.new ≡ with_hearing ring_keeping self.old heard.now) }
    {
        self.seats[place_of(heard.node)].hear(alloc, heard.said)
    }

    /// Nodes hear all this, in this order.
    pub fn hear(&mut self, alloc: Global, heard: &[Heard]) -> Result<(), OutOfMemory>
        ensures { OnOk result (self.new ≡ hears ring_keeping self.old heard.now) }
    {
        for one in heard {
            self.hear_one(alloc, one)?;
        }
        Ok(())
    }

    fn forget(&mut self, i: NodeNo)
        ensures { self.new ≡ with_forgetting ring_keeping self.old i }
    {
        self.seats[place_of(i)].forget();
    }

    /// The node of this number has this full list from now on.
    pub fn list(&mut self, i: NodeNo, full: List)
        ensures { self.new ≡ with_listing ring_keeping self.old i full }
    {
        self.seats[place_of(i)].list(full);
    }

    /// The node of this number leaves out these members from now on.
    pub fn leave_out(&mut self, i: NodeNo, negative: Vec<NodeNo>)
        requires { IsNegative (members_of (seat_at ring_keeping self.old i).full) negative.items }
        ensures { self.new ≡ with_leaving_out ring_keeping self.old i negative.items }
    {
        self.seats[place_of(i)].leave_out(negative);
    }

    /// What an event of the input does beside what is heard.
    pub fn happen(&mut self, what: &What)
        ensures { self.new ≡ after_what ring_keeping self.old what.now }
    {
        match what {
            What::Restart { node } => self.forget(*node),
            What::Cut { ask, .. } => self.forget(node_asked(ask)),
            What::List { node, list } => self.list(*node, list.copy()),
            _ => {}
        }
    }
}

fn empty_seats(alloc: Global) -> Result<Vec<Seat>, OutOfMemory>
    ensures { IfOk result (λ seats. seats.items ≡ no_seats ring_keeping) }
{
    let mut seats = Vec::with_capacity(alloc, MOST_MEMBERS)?;
    for _ in 0..MOST_MEMBERS {
        seats.push_reserved(Seat::empty(alloc));
    }
    Ok(seats)
}

/// The place of the seat of a number.
fn place_of(i: NodeNo) -> usize
    ensures value { result ≡ i - 1 }
    ensures within { result < 64 }
{
    i.get() as usize - 1
}

/// The node that is asked.
fn node_asked(ask: &Ask) -> NodeNo
    ensures { result ≡ node_asked ask.now }
{
    match *ask {
        Ask::Issue { node, .. } | Ask::Timer { node } => node,
    }
}
