ghost use Rattle.std.specs.Prelude.{◌≡◌, ◌≢◌, ◌+◌, ◌<◌, ◌≤◌, ◌↔◌, length, replicate, vec_len, vec_capacity, None, Some, IsOk, IsErr, IfOk, IfErr, OnOk, OnErr, IsSome, option_copied};
ghost use Rattle.std.specs.Option.{option_copied_mut};
ghost use Rattle.std.specs.Borrow.{sem};
ghost use Rattle.xl_pool.specs.Pools.{
  empty_slot,
  generation_of,
  get,
  live,
  IsVacant,
  Updates,
  with_value,
  without_value,
};
ghost use Rattle.xl_pool.specs.Entries.{all_of};

use crate::entry::{Content, Entry};
use crate::{Full, Name, Stale};
use std::alloc::{AllocError, Global};
use std::marker::Model;

/// Values in a fixed number of slots, each under a name that the pool picks. No call after `with_slots` takes memory,
/// and each takes a fixed number of steps. A slot's memory is written when the slot first holds a value.
#[derive(Drop)]
pub struct Pool<T> {
    // The slots that have held a value so far. All others follow them, each free and leading to the next.
    entries: Vec<Entry<T>>,
    slots: u32,
    // How many slots have a value.
    live: u32,
    // The first free slot, or the number of slots if there is none.
    free: u32,
}

impl<T> Model for Pool<T> {
    ghost use Rattle.std.specs.Prelude.{List, map, vec_capacity};
    ghost use Rattle.std.specs.Coded.{coded_list};
    ghost use Rattle.xl_pool.specs.Pools.{Slot, slot_code};

    ghost Value = { List (Slot T) };

    ghost coded = { coded_list (slot_code T.code) };

    ghost use Rattle.xl_pool.specs.Entries.{seen, all_of, IsKept};

    ghost view = { λ a. map seen (all_of a.entries.items a.slots) };

    ghost invariant = { λ a. IsKept a.entries.items a.slots (vec_capacity a.entries) a.live a.free };
}

/// Lays the first free slot into memory, if it is an untouched one.
fn touch<T>(entries: &mut Vec<Entry<T>>, slots: u32, free: u32)
    requires within { vec_len entries.old ≤ slots }
    requires fits { slots ≤ vec_capacity entries.old }
    requires reached { free ≤ vec_len entries.old }
    ensures same { all_of entries.new.items slots ≡ all_of entries.old.items slots }
    ensures within { vec_len entries.new ≤ slots }
    ensures room { vec_capacity entries.new ≡ vec_capacity entries.old }
    ensures reached { free < slots → free < vec_len entries.new }
    ensures more { vec_len entries.old ≤ vec_len entries.new }
{
    if free as usize == entries.len() && free < slots {
        entries.push_reserved(Entry {
            generation: 0,
            content: Content::Free(free + 1),
        });
    }
}

impl<T> Pool<T> {
    ghost use Rattle.xl_pool.specs.Lends.{lends_get, lends_value};

    /// A pool of n empty slots of generation 0, or `AllocError` if memory runs out.
    pub fn with_slots(alloc: Global, n: u32) -> Result<Pool<T>, AllocError>
        ensures empty { IfOk result (λ pool. pool ≡ replicate n empty_slot) }
    {
        Ok(Pool {
            entries: Vec::with_capacity(alloc, n as usize)?,
            slots: n,
            live: 0,
            free: 0,
        })
    }

    /// How many slots have a value.
    pub fn live(&self) -> u32
        ensures { result ≡ live self.now }
    {
        self.live
    }

    /// The value of a name, or `None` if its slot is empty, of another generation, or not there.
    pub fn get(&self, name: Name) -> Option<&T>
        ensures { option_copied result ≡ get self.now name }
    {
        match self.entries.get(name.slot as usize) {
            Some(entry) if entry.generation == name.generation => entry.content.value(),
            _ => None,
        }
    }

    /// The value of a name for writing, or `None` if `get` finds none.
    pub fn get_mut(&mut self, name: Name) -> Option<&mut T>
        ensures* writes_back { sem 𝓛 (lends_get T.row self.entry name result) }
        ensures value { option_copied_mut result ≡ get self.old name }
    {
        if self.get(name).is_some() {
            Some(self.value_mut(name))
        } else {
            None
        }
    }

    fn value_mut(&mut self, name: Name) -> &mut T
        requires live { IsSome (get self.old name) }
        ensures* writes_back { sem 𝓛 (lends_value T.row self.entry name result) }
        ensures value { get self.old name ≡ Some result.now }
    {
        let entry = &mut self.entries[name.slot as usize];
        entry.content.value_mut()
    }

    /// Puts the value into an empty slot and tells its name. If each slot has a value, it hands the value back, and
    /// the pool stays.
    pub fn take(&mut self, value: T) -> Result<Name, Full<T>>
        // it takes the value exactly if a slot is empty
        ensures room { IsOk result ↔ (live self.old < length self.old) }
        ensures full { IsErr result ↔ (live self.old ≡ length self.old) }

        // the name is that of an empty slot, which has the value from now on, and all else stays
        ensures vacant { IfOk result (λ name. IsVacant self.old name) }
        ensures fresh { IfOk result (λ name. get self.old name ≡ None) }
        ensures added { IfOk result (λ name. self.new ≡ with_value self.old name value) }
        ensures names { IfOk result (λ name. Updates self.old self.new name (Some value)) }
        ensures more { OnOk result (live self.new ≡ live self.old + 1) }

        ensures handed_back { IfErr result (λ full. full.0 ≡ value) }
        ensures refused { OnErr result (self.new ≡ self.old) }
    {
        let slot = self.free;
        touch(&mut self.entries, self.slots, slot);
        let Some(entry) = self.entries.get_mut(slot as usize) else {
            return Err(Full(value));
        };
        let generation = entry.generation;
        self.free = entry.hold(value);
        self.live += 1;
        Ok(Name { slot, generation })
    }

    /// Hands out the value of a name. Its slot is then empty and of the next generation. A name that finds no value is
    /// refused, and the pool stays.
    pub fn give(&mut self, name: Name) -> Result<T, Stale>
        // it hands out what `get` finds, and is refused exactly if that finds nothing
        ensures given { IfOk result (λ value. get self.old name ≡ Some value) }
        ensures stale { IsErr result ↔ (get self.old name ≡ None) }
        ensures generation { IfErr result (λ stale. stale.0 ≡ generation_of self.old name.slot) }

        // the slot is empty from now on and its generation one greater, modulo 2 ^ 32, and all else stays
        ensures removed { OnOk result (self.new ≡ without_value self.old name) }
        ensures names { OnOk result (Updates self.old self.new name None) }
        ensures fewer { OnOk result (live self.new + 1 ≡ live self.old) }

        ensures refused { OnErr result (self.new ≡ self.old) }
    {
        if self.get(name).is_none() {
            return Err(Stale(self.generation_of(name.slot)));
        }
        let value = self.entries[name.slot as usize].free(self.free);
        self.free = name.slot;
        self.live -= 1;
        Ok(value)
    }

    fn generation_of(&self, slot: u32) -> u32
        ensures { result ≡ generation_of self.now slot }
    {
        match self.entries.get(slot as usize) {
            Some(entry) => entry.generation,
            None => 0,
        }
    }
}
