ghost use Rattle.std.specs.Prelude.{
  ◌≡◌,
  ◌<◌,
  ◌≤◌,
  [],
  ◌∷◌,
  ◌++◌,
  length,
  take,
  filter,
  slice_index_or,
  vec_len,
  vec_capacity,
  IfOk,
  MatchResult,
};
ghost use Rattle.xl_disputes.specs.Tallies.{held_by, exchanged, IsWithin, IsFitting};
ghost use Rattle.xl_disputes.specs.Rows.{
  ids_of,
  tally_of,
  with_exchange,
  place_of,
  IsIndex,
  IsThere,
  IsAbsent,
  IsExchangeable,
  Exchanges,
  IsMovable,
  Moves,
};
ghost use Rattle.xl_disputes.specs.Standings.{wins, with_row};
ghost use Rattle.xl_base.specs.Sets.{is_below as is_below_of, IsRising};

use crate::moving::move_part;
use crate::rows::{ROWS, Row, Rows};
use crate::set::SET_IDS;
use crate::tally::Tally;
use std::alloc::Global;
use std::marker::Model;
use xl_base::{OutOfMemory, TxId};

/// The ids of our own set and of the held sets in rising order, each once, with what it has.
#[derive(Drop)]
pub(crate) struct Index {
    rows: Rows,
}

impl Model for Index {
    ghost use Rattle.std.specs.Prelude.{List};
    ghost use Rattle.xl_disputes.specs.declared.rows.Row.{Row};
    ghost use Rattle.xl_disputes.specs.Rows.{IsIndex};

    ghost Value = { List Row };

    ghost view = { λ a. a.rows };

    ghost invariant = { λ a. IsIndex a.rows };
}

pub(crate) fn is_below(a: &TxId, b: &TxId) -> bool
    ensures { result ≡ is_below_of a.now b.now }
{
    a < b
}

/// Puts an id behind others, unless there are 256.
fn push_low(ids: &mut Vec<TxId>, id: TxId)
    requires few { vec_len ids.old ≤ SET_IDS }
    requires room { SET_IDS ≤ vec_capacity ids.old }
    ensures lowest { ids.new.items ≡ take SET_IDS (ids.old.items ++ id ∷ []) }
    ensures few { vec_len ids.new ≤ SET_IDS }
    ensures room { vec_capacity ids.new ≡ vec_capacity ids.old }
{
    if ids.len() < SET_IDS {
        ids.push_reserved(id);
    }
}

/// Puts the id of a row behind others, if our next vote on it is yes.
fn pick_row(ids: &mut Vec<TxId>, row: Row, voters: u32, needed: u32, proposing: bool)
    requires few { vec_len ids.old ≤ SET_IDS }
    requires room { SET_IDS ≤ vec_capacity ids.old }
    ensures picked { ids.new.items ≡ with_row voters needed proposing row ids.old.items }
    ensures few { vec_len ids.new ≤ SET_IDS }
    ensures room { vec_capacity ids.new ≡ vec_capacity ids.old }
{
    if row.tally.votes(voters).next(needed, proposing) {
        push_low(ids, row.id);
    }
}

/// How many rows stand before an id.
fn place_in(rows: &Rows, id: &TxId) -> usize
    requires { IsIndex rows.now }
    ensures value { result ≡ place_of id.now rows.now }
    ensures within { result ≤ length rows.now }
{
    let mut low = 0;
    let mut high = rows.len();
    while low < high {
        let middle = low + (high - low) / 2;
        if is_below(&rows.at(middle).id, id) {
            low = middle + 1;
        } else {
            high = middle;
        }
    }
    low
}

impl Index {
    /// No id, with room for all.
    pub(crate) fn open(alloc: Global) -> Result<Index, OutOfMemory>
        ensures { IfOk result (λ index. index ≡ []) }
    {
        Ok(Index {
            rows: Rows::open(alloc)?,
        })
    }

    /// No id any more.
    pub(crate) fn clear(&mut self)
        ensures { self.new ≡ [] }
    {
        self.rows.clear();
    }

    pub(crate) fn len(&self) -> usize
        ensures value { result ≡ length self.now }
        ensures valid { IsIndex self.now }
    {
        self.rows.len()
    }

    pub(crate) fn at(&self, place: usize) -> Row
        requires { place < length self.now }
        ensures { result ≡ slice_index_or self.now place result }
    {
        self.rows.at(place)
    }

    /// Puts the ids on which our next vote is yes into this room, the 256 lowest if there are more.
    pub(crate) fn pick(&self, next: &mut Vec<TxId>, voters: u32, needed: u32, proposing: bool)
        requires { SET_IDS ≤ vec_capacity next.old }
        ensures lowest { next.new.items ≡ take SET_IDS (ids_of (filter (wins voters needed proposing) self.now)) }
        ensures room { vec_capacity next.new ≡ vec_capacity next.old }
        ensures valid { IsIndex self.now }
    {
        next.clear();
        for place in 0..self.len() {
            pick_row(next, self.at(place), voters, needed, proposing);
        }
    }

    /// What an id has.
    pub(crate) fn tally(&self, id: &TxId) -> Tally
        ensures value { result ≡ tally_of self.now id.now }
        ensures valid { IsIndex self.now }
    {
        match self.find(id) {
            Ok(place) => self.rows.at(place).tally,
            Err(_) => Tally::none(),
        }
    }

    /// The place at which an id stands, or else the one at which it would.
    fn find(&self, id: &TxId) -> Result<usize, usize>
        ensures { MatchResult result (IsThere id.now self.now) (IsAbsent id.now self.now) }
    {
        let place = place_in(&self.rows, id);
        if place == self.rows.len() {
            Err(place)
        } else if self.rows.at(place).id == *id {
            Ok(place)
        } else {
            Err(place)
        }
    }

    /// Takes one part of what an id has out, and puts another in.
    pub(crate) fn exchange(&mut self, id: TxId, from: Tally, to: Tally)
        requires within { IsWithin from (tally_of self.old id) }
        requires fitting { IsFitting (exchanged from to (tally_of self.old id)) }
        requires room { held_by from ≡ 0 → length self.old < ROWS }
        ensures exact { self.new ≡ with_exchange id from to self.old }
        ensures valid { IsIndex self.new }
    {
        match self.find(&id) {
            Ok(place) => self.exchange_there(place, id, from, to),
            Err(place) => self.exchange_absent(place, id, from, to),
        }
    }

    /// Does so with each of these ids.
    pub(crate) fn exchange_all(&mut self, ids: &[TxId], from: Tally, to: Tally)
        requires rising { IsRising ids.now }
        requires exchangeable { IsExchangeable self.old ids.now from to }
        ensures { Exchanges self.old self.new ids.now from to }
    {
        let _ = &self.rows;
        for id in ids {
            self.exchange(*id, from, to);
        }
    }

    /// Takes a part out of what each id of one set has, and puts it into what each of another has. Each of these is
    /// there, and those that are in no set any more go.
    pub(crate) fn move_part(&mut self, from: &[TxId], to: &[TxId], part: Tally)
        requires leaving { IsRising from.now }
        requires coming { IsRising to.now }
        requires movable { IsMovable self.old from.now to.now part }
        ensures { Moves self.old self.new from.now to.now part }
    {
        move_part(&mut self.rows, from, to, part);
        self.rows.sweep();
    }

    fn exchange_there(&mut self, place: usize, id: TxId, from: Tally, to: Tally)
        requires there { IsThere id self.old place }
        requires within { IsWithin from (tally_of self.old id) }
        requires fitting { IsFitting (exchanged from to (tally_of self.old id)) }
        ensures exact { self.new ≡ with_exchange id from to self.old }
        ensures valid { IsIndex self.new }
    {
        let tally = self.rows.at(place).tally.exchange(from, to);
        if tally.is_none() {
            self.rows.remove(place);
        } else {
            self.rows.set(place, Row { id, tally });
        }
    }

    fn exchange_absent(&mut self, place: usize, id: TxId, from: Tally, to: Tally)
        requires absent { IsAbsent id self.old place }
        requires within { IsWithin from (tally_of self.old id) }
        requires fitting { IsFitting (exchanged from to (tally_of self.old id)) }
        requires room { held_by from ≡ 0 → length self.old < ROWS }
        ensures exact { self.new ≡ with_exchange id from to self.old }
        ensures valid { IsIndex self.new }
    {
        let _ = &self.rows;
        let tally = Tally::none().exchange(from, to);
        if !tally.is_none() {
            self.rows.insert(place, Row { id, tally });
        }
    }
}
