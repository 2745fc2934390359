ghost use Rattle.std.specs.Prelude.{
  ◌≡◌,
  ◌-◌,
  ◌^◌,
  ◌<◌,
  ◌≤◌,
  [],
  ◌∷◌,
  map,
  not,
  length,
  replicate,
  Some,
  None,
  slice_index_or,
  All,
  IfOk,
  vec_capacity,
  true,
  flat_map,
};
ghost use Rattle.xl_base.specs.declared.ids.TxId.{TxId};
ghost use Rattle.xl_base.specs.Sets.{set_id_of, IsSet};
ghost use Rattle.std.specs.List.{prefix_len};
ghost use Rattle.xl_disputes.specs.Standings.{
  names,
  stand as stand_of,
  standings as standings_of,
  weighed,
  voters as voters_of,
  with_one,
  own_in,
  own_ids,
  next_of,
};
ghost use Rattle.xl_disputes.specs.Disputes.{has};
ghost use Rattle.xl_disputes.specs.Tallies.{holders};
ghost use Rattle.xl_disputes.specs.Holdings.{
  Holding,
  member_bits,
  no_holding,
  no_holdings,
  ids_in,
  total,
  changed,
  with_set,
  with_weight,
};

use crate::HashedSets;
use crate::index::Index;
use crate::place::Place;
use crate::set::{SET_IDS, Set};
use crate::tally::Tally;
use std::alloc::Global;
use std::marker::Model;
use xl_base::{OutOfMemory, SetId, TxId, empty_set};

/// A place for our own set, and one for each member's.
pub(crate) const PLACES: usize = 65;

/// The places, and the index of what each id has from them.
#[derive(Drop)]
pub(crate) struct Shares {
    places: Vec<Place>,
    index: Index,
}

impl Model for Shares {
    ghost use Rattle.std.specs.Prelude.{List};
    ghost use Rattle.xl_disputes.specs.Holdings.{Holding, IsShared};

    ghost Value = { List Holding };

    ghost view = { λ a. a.places.items };

    ghost invariant = { λ a. IsShared a.places.items a.index };
}

/// The bit of a member's place.
fn bit_of(place: usize) -> u64
    requires some { 1 ≤ place }
    requires within { place < PLACES }
    ensures { result ≡ 2 ^ (place - 1) }
{
    1 << (place - 1)
}

/// Our own place, and those of the members.
fn no_places(alloc: Global) -> Result<Vec<Place>, OutOfMemory>
    ensures { IfOk result (λ places. places.items ≡ no_holdings) }
{
    let mut places = Vec::with_capacity(alloc, PLACES)?;
    let empty = empty_set();
    places.push_reserved(Place::own(alloc, empty)?);
    for place in 1..PLACES {
        places.push_reserved(Place::free(alloc, empty, bit_of(place))?);
    }
    Ok(places)
}

/// How many places stand before the first one that holds the set of this id.
fn first_named(places: &[Place], id: &SetId) -> usize
    ensures value { result ≡ prefix_len (λ place. not (names id.now place.set)) places.now }
    ensures within { result ≤ length places.now }
{
    places
        .iter()
        .take_while(|place| !place.is_named(id))
        .count()
}

/// One more at a place, if there is one.
fn add_one(weights: &mut [u32; PLACES], place: usize)
    requires { All (λ weight. weight < 64) weights.old }
    ensures { weights.new ≡ with_one place weights.old }
{
    if place < PLACES {
        weights[place] += 1;
    }
}

/// No place holds a set, or stands for a position, any more.
fn reset_all(places: &mut [Place])
    ensures { places.new ≡ map (λ h. no_holding h.bit) places.old }
{
    for place in places.iter_mut() {
        place.reset();
    }
}

impl Shares {
    /// An empty set of our own, and no other.
    pub(crate) fn open(alloc: Global) -> Result<Shares, OutOfMemory>
        ensures { IfOk result (λ shares. shares ≡ no_holdings) }
    {
        Ok(Shares {
            places: no_places(alloc)?,
            index: Index::open(alloc)?,
        })
    }

    /// An empty set of our own, and no other, as it was opened.
    pub(crate) fn reset(&mut self)
        requires { map (λ h. h.bit) self.old ≡ 0 ∷ member_bits }
        ensures { self.new ≡ no_holdings }
    {
        self.index.clear();
        reset_all(&mut self.places);
        self.places[0].fill(&[], empty_set());
    }

    /// Our own set.
    pub(crate) fn own(&self) -> &Set
        requires { own_in self.now ≡ Some (own_ids self.now) }
        ensures { result.now ≡ own_ids self.now }
    {
        match self.places[0].set() {
            Some(set) => set,
            None => unreachable!(),
        }
    }

    /// What an id has from all places, which says which places have it.
    pub(crate) fn tally(&self, id: &TxId) -> Tally
        requires { map (λ h. h.bit) self.now ≡ 0 ∷ member_bits }
        ensures value { result ≡ total self.now id.now }
        ensures which { holders result ≡ map (λ h. has (ids_in h) id.now) self.now }
    {
        let _ = &self.places;
        self.index.tally(id)
    }

    /// How many positions stand for a set.
    pub(crate) fn voters(&self) -> u32
        ensures { result ≡ voters_of self.now }
    {
        let mut sum = 0;
        for place in &self.places {
            sum += place.weight();
        }
        sum
    }

    /// Puts the ids on which our next vote is yes into this room, the 256 lowest if there are more.
    pub(crate) fn pick(&self, next: &mut Vec<TxId>, needed: u32, proposing: bool)
        requires { SET_IDS ≤ vec_capacity next.old }
        ensures value { next.new.items ≡ next_of self.now needed proposing }
        ensures valid { IsSet next.new.items }
        ensures room { vec_capacity next.new ≡ vec_capacity next.old }
    {
        let voters = self.voters();
        self.index.pick(next, voters, needed, proposing);
    }

    /// The place of the first set that a position names, or else the number of places.
    fn stand(&self, position: &Option<SetId>) -> usize
        ensures value { result ≡ stand_of self.now position.now }
        ensures within { result ≤ PLACES }
    {
        let _ = &self.places;
        match position {
            Some(id) => first_named(&self.places, id),
            None => PLACES,
        }
    }

    /// Counts how many positions each place's set stands for, where nothing is counted yet.
    pub(crate) fn count_standings(&self, positions: &[Option<SetId>], weights: &mut [u32; PLACES])
        requires few { length positions.now ≤ 64 }
        requires none { weights.old ≡ replicate 65 0 }
        ensures value { weights.new ≡ standings_of self.now positions.now }
        ensures few { All (λ weight. weight ≤ 64) weights.new }
    {
        for position in positions {
            add_one(weights, self.stand(position));
        }
    }

    /// The sets of the first places stand for these numbers of positions.
    pub(crate) fn weigh_all(&mut self, weights: &[u32])
        requires places { length weights.now ≤ PLACES }
        requires few { All (λ weight. weight ≤ 64) weights.now }
        ensures { self.new ≡ weighed weights.now self.old }
    {
        for place in 0..weights.len() {
            self.weigh(place, weights[place]);
        }
    }

    /// The place holds the set of these ids, in place of an older one, and returns its id.
    pub(crate) fn take(&mut self, place: usize, ids: &[TxId], hashed: &mut HashedSets) -> SetId
        requires within { place < PLACES }
        requires valid { IsSet ids.now }
        ensures named { result ≡ set_id_of ids.now }
        ensures taken { self.new ≡ changed (with_set (Some ids.now)) place self.old }
    {
        let _ = &self.places;
        let id = self.id_of(ids, hashed);
        self.release(place);
        self.fill(place, ids, id);
        id
    }

    /// The id of the set of these ids. It isn't hashed if it was hashed lately, or is held already.
    fn id_of(&self, ids: &[TxId], hashed: &mut HashedSets) -> SetId
        requires { IsSet ids.now }
        ensures { result ≡ set_id_of ids.now }
    {
        match hashed.known(ids) {
            Some(id) => id,
            None => self.held_id(ids, hashed),
        }
    }

    /// The same of a set that wasn't hashed lately.
    fn held_id(&self, ids: &[TxId], hashed: &mut HashedSets) -> SetId
        requires { IsSet ids.now }
        ensures { result ≡ set_id_of ids.now }
    {
        for place in &self.places {
            if let Some(set) = place.set()
                && set.is(ids)
            {
                return set.id();
            }
        }
        hashed.hash(ids)
    }

    /// The place holds the set of these ids, each of which is in some set already.
    pub(crate) fn replace(&mut self, place: usize, ids: &[TxId], hashed: &mut HashedSets)
        requires within { place < PLACES }
        requires valid { IsSet ids.now }
        requires counted { (tx : TxId) → has ids.now tx ≡ true → has (flat_map ids_in self.old) tx ≡ true }
        ensures { self.new ≡ changed (with_set (Some ids.now)) place self.old }
    {
        let _ = &self.places;
        let id = self.id_of(ids, hashed);
        let held = &mut self.places[place];
        self.index.move_part(held.ids(), ids, held.tally());
        held.fill(ids, id);
    }

    /// The place holds no set any more.
    pub(crate) fn release(&mut self, place: usize)
        requires { place < PLACES }
        ensures { self.new ≡ changed (with_set None) place self.old }
    {
        let held = &mut self.places[place];
        let tally = held.tally();
        self.index.exchange_all(held.ids(), tally, Tally::none());
        held.release();
    }

    /// The place, which has none, holds the set of these ids, whose own id is handed in.
    fn fill(&mut self, place: usize, ids: &[TxId], id: SetId)
        requires within { place < PLACES }
        requires free { (d : Holding) → ids_in (slice_index_or self.old place d) ≡ [] }
        requires valid { IsSet ids.now }
        requires named { id ≡ set_id_of ids.now }
        ensures { self.new ≡ changed (with_set (Some ids.now)) place self.old }
    {
        let held = &mut self.places[place];
        self.index.exchange_all(ids, Tally::none(), held.tally());
        held.fill(ids, id);
    }

    /// The place's set stands for this many positions.
    fn weigh(&mut self, place: usize, weight: u32)
        requires within { place < PLACES }
        requires few { weight ≤ 64 }
        ensures { self.new ≡ changed (with_weight weight) place self.old }
    {
        let held = &self.places[place];
        if held.weight() != weight {
            self.reweigh(place, weight);
        }
    }

    fn reweigh(&mut self, place: usize, weight: u32)
        requires within { place < PLACES }
        requires few { weight ≤ 64 }
        ensures { self.new ≡ changed (with_weight weight) place self.old }
    {
        let held = &mut self.places[place];
        let tally = held.tally();
        held.weigh(weight);
        self.index.exchange_all(held.ids(), tally, held.tally());
    }
}
