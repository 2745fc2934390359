ghost use Rattle.std.specs.Prelude.{◌≡◌, option_copied, IfOk, OnOk};
ghost use Rattle.xl_nunl.specs.Lists.{IsNegative};
ghost use Rattle.xl_negative.specs.Ringing.{kept_in, ring_keeping};
ghost use Rattle.xl_negative.specs.Seats.{empty_seat, seat_anew, after_hearing, leaving_out, with_full_list, members_of};

use std::alloc::Global;
use std::marker::Model;
use xl_base::{NodeNo, OutOfMemory};
use xl_lists::{List, SaidLedger};
use xl_nunl::Scores;

/// What is known of a node beside the world.
#[derive(Drop)]
pub struct Seat {
    /// Its full list. No node has the number if there is none.
    full: Option<List>,
    /// The members of that list that it leaves out.
    negative: Vec<NodeNo>,
    /// What is kept of what it heard since it opened; None if it heard nothing.
    heard: Option<Scores>,
}

impl Model for Seat {
    ghost use Rattle.xl_nunl.specs.Lists.{IsNegative};
    ghost use Rattle.xl_negative.specs.Ringing.{Places, kept_in};
    ghost use Rattle.xl_negative.specs.Seats.{Seat as TheSeat, members_of};

    ghost Value = { TheSeat Places };

    ghost view = { λ s. record { full = s.full; negative = s.negative.items; heard = kept_in s.heard } };

    ghost invariant = { λ s. IsNegative (members_of s.full) s.negative.items };
}

impl Seat {
    /// The seat of a number that no node has.
    pub fn empty(alloc: Global) -> Seat
        ensures { result ≡ empty_seat ring_keeping }
    {
        Seat {
            full: None,
            negative: Vec::new(alloc),
            heard: None,
        }
    }

    pub fn full(&self) -> Option<&List>
        ensures { option_copied result ≡ self.now.full }
    {
        self.full.as_ref()
    }

    pub fn negative(&self) -> &[NodeNo]
        ensures value { result.now ≡ self.now.negative }
        ensures lawful { IsNegative (members_of self.now.full) self.now.negative }
    {
        &self.negative
    }

    /// What is kept of what the node heard, or None if it heard nothing.
    pub fn heard(&self) -> Option<&Scores>
        ensures { kept_in (option_copied result) ≡ self.now.heard }
    {
        self.heard.as_ref()
    }

    /// The node hears something more. The first after its opening takes memory, and no other.
    pub fn hear(&mut self, alloc: Global, said: SaidLedger) -> Result<(), OutOfMemory>
        ensures { OnOk result (self.new ≡ after_hearing ring_keeping self.old said) }
    {
        match &mut self.heard {
            Some(heard) => heard.heard(said.member, said.seq, said.id),
            None => {
                let mut heard = Scores::open(alloc)?;
                heard.heard(said.member, said.seq, said.id);
                self.heard = Some(heard);
            }
        }
        Ok(())
    }

    /// The node is opened anew.
    pub fn forget(&mut self)
        ensures { self.new ≡ seat_anew ring_keeping self.old }
    {
        self.heard = None;
    }

    /// The node has this full list from now on, and leaves nobody out.
    pub fn list(&mut self, full: List)
        ensures { self.new ≡ with_full_list self.old full }
    {
        self.full = Some(full);
        self.negative.clear();
    }

    /// The node leaves out these members from now on.
    pub fn leave_out(&mut self, negative: Vec<NodeNo>)
        requires { IsNegative (members_of self.old.full) negative.items }
        ensures { self.new ≡ leaving_out self.old negative.items }
    {
        self.negative = negative;
    }
}
