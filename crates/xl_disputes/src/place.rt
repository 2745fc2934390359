ghost use Rattle.std.specs.Prelude.{◌≡◌, [], Some, None, IfOk, option_copied};
ghost use Rattle.xl_base.specs.Sets.{set_id_of, IsSet};
ghost use Rattle.xl_disputes.specs.Standings.{names};
ghost use Rattle.xl_disputes.specs.Holdings.{empty_own, no_holding, ids_in, tally_from, with_set, with_weight};

use crate::set::Set;
use crate::tally::Tally;
use std::alloc::Global;
use std::marker::Model;
use xl_base::{OutOfMemory, SetId, TxId};

/// A place for our own set or a member's, with how many positions the set stands for. Its room is taken when it is
/// opened.
#[derive(Drop)]
pub(crate) struct Place {
    set: Set,
    holds: bool,
    weight: u32,
    /// The bit of its member, or 0 if it is our own.
    bit: u64,
}

impl Model for Place {
    ghost use Rattle.std.specs.Prelude.{Some, None, if◌then◌else◌};
    ghost use Rattle.xl_disputes.specs.Holdings.{Holding};

    ghost Value = { Holding };

    ghost view = { λ p. record { set = if p.holds then Some p.set else None; weight = p.weight; bit = p.bit } };
}

impl Place {
    /// Our own, with the empty set, whose id is handed in.
    pub(crate) fn own(alloc: Global, empty: SetId) -> Result<Place, OutOfMemory>
        requires { empty ≡ set_id_of [] }
        ensures { IfOk result (λ place. place ≡ empty_own) }
    {
        Ok(Place {
            set: Set::open(alloc, empty)?,
            holds: true,
            weight: 0,
            bit: 0,
        })
    }

    /// That of the member with this bit, with no set. The id of the empty set is handed in.
    pub(crate) fn free(alloc: Global, empty: SetId, bit: u64) -> Result<Place, OutOfMemory>
        requires { empty ≡ set_id_of [] }
        ensures { IfOk result (λ place. place ≡ no_holding bit) }
    {
        Ok(Place {
            set: Set::open(alloc, empty)?,
            holds: false,
            weight: 0,
            bit,
        })
    }

    /// The set, if there is one.
    pub(crate) fn set(&self) -> Option<&Set>
        ensures { option_copied result ≡ self.now.set }
    {
        if self.holds { Some(&self.set) } else { None }
    }

    /// Whether it holds the set of this id.
    pub(crate) fn is_named(&self, id: &SetId) -> bool
        ensures { result ≡ names id.now self.now.set }
    {
        self.holds && self.set.id() == *id
    }

    /// How many positions the set stands for.
    pub(crate) fn weight(&self) -> u32
        ensures { result ≡ self.now.weight }
    {
        self.weight
    }

    /// The ids of the set, if there is one.
    pub(crate) fn ids(&self) -> &[TxId]
        ensures value { result.now ≡ ids_in self.now }
        ensures valid { IsSet (ids_in self.now) }
    {
        if self.holds { self.set.ids() } else { &[] }
    }

    /// What each of the ids has from it.
    pub(crate) fn tally(&self) -> Tally
        ensures { result ≡ tally_from self.now }
    {
        Tally::new(self.bit, self.weight, u32::from(self.bit == 0))
    }

    /// Holds the set of these ids, whose own id is handed in.
    pub(crate) fn fill(&mut self, ids: &[TxId], id: SetId)
        requires valid { IsSet ids.now }
        requires named { id ≡ set_id_of ids.now }
        ensures { self.new ≡ with_set (Some ids.now) self.old }
    {
        self.set.take(ids, id);
        self.holds = true;
    }

    /// Holds no set any more.
    pub(crate) fn release(&mut self)
        ensures { self.new ≡ with_set None self.old }
    {
        self.holds = false;
    }

    /// Holds no set any more, and so stands for no position.
    pub(crate) fn reset(&mut self)
        ensures { self.new ≡ no_holding self.old.bit }
    {
        self.holds = false;
        self.weight = 0;
    }

    pub(crate) fn weigh(&mut self, weight: u32)
        ensures { self.new ≡ with_weight weight self.old }
    {
        self.weight = weight;
    }
}
