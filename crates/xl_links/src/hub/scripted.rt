ghost use Rattle.std.specs.Prelude.{◌≡◌, IfNone};
ghost use Rattle.xl_links.specs.Hubs.{IsPlaceFor, first_for, without_first};

use crate::door::memory::MemDoor;
use crate::hub::{Hub, Spare, Way};
use crate::link::Link;
use crate::told::Told;
use std::alloc::Global;
use xl_base::{Bytes, NodeNo, OutOfMemory};
use xl_io::Failed;

/// A link that was asked for: to whom, and how the member is reached.
#[derive(Drop)]
pub struct Asked {
    pub member: NodeNo,
    pub way: Way,
}

/// A hub in memory with links of its own, and the calls that are to fail. A member's links are given in the order in
/// which they stand here; if none is left for it, the call fails too. It gives the door that was put there last, once.
/// The hub tells what it was asked for while there is room for that.
#[derive(Drop)]
pub struct MemHub<L> {
    spares: Vec<Spare<L>>,
    failing: Vec<u64>,
    asked: Told<Asked>,
    door: Option<MemDoor>,
    doors: Told<Bytes>,
    calls: u64,
    faults: u64,
}

impl<L: Drop> MemHub<L> {
    ghost use Rattle.std.specs.Prelude.{None, Some, map, option_map, IfOk};
    ghost use Rattle.xl_links.specs.Hubs.{
      door_of,
      hub_calls,
      hub_failing,
      hub_faults,
      list_of_asked,
      list_of_doors,
      spares_of,
      target_of,
      targets_of,
      with_door,
    };
    ghost use Rattle.xl_links.specs.Tellings.{nothing_told};

    /// A hub with these links, whose calls of these numbers, from 1, fail, and with room to tell so many calls.
    pub fn new(
        alloc: Global,
        spares: Vec<Spare<L>>,
        failing: Vec<u64>,
        room: usize,
    ) -> Result<Self, OutOfMemory>
        ensures spares { IfOk result (λ hub. spares_of hub ≡ spares.items) }
        ensures failing { IfOk result (λ hub. hub_failing hub ≡ failing.items) }
        ensures asked { IfOk result (λ hub. list_of_asked hub ≡ nothing_told room) }
        ensures door { IfOk result (λ hub. door_of hub ≡ None) }
        ensures doors { IfOk result (λ hub. list_of_doors hub ≡ nothing_told room) }
        ensures calls { IfOk result (λ hub. hub_calls hub ≡ 0) }
        ensures faults { IfOk result (λ hub. hub_faults hub ≡ 0) }
    {
        Ok(MemHub {
            spares,
            failing,
            asked: Told::with_room(alloc, room)?,
            door: None,
            doors: Told::with_room(alloc, room)?,
            calls: 0,
            faults: 0,
        })
    }

    /// Puts the door there that it gives.
    pub fn put_door(&mut self, door: MemDoor)
        ensures { self.new ≡ with_door self.old door }
    {
        self.door = Some(door);
    }

    /// What it was asked for, if that is told.
    pub fn asked(&self) -> Option<&[Asked]>
        ensures { option_map (λ asked. map target_of asked.now) result ≡ targets_of self.now }
    {
        self.asked.items()
    }
}

impl<L: Link + Send + Drop> Hub for MemHub<L> {
    ghost use Rattle.std.specs.Prelude.{◌≢◌, ◌≤◌, ℕ, [], ◌∷◌, Some, None, false, IfOk, OnOk, OnErr, option_map};
    ghost use Rattle.xl_base.specs.Counts.{one_more};
    ghost use Rattle.xl_base.specs.Faults.{Rose};
    ghost use Rattle.xl_links.specs.Doors.{doorway_of};
    ghost use Rattle.xl_links.specs.Hubs.{
      door_of,
      doors_of,
      hub_calls,
      hub_failing,
      hub_faults,
      list_of_asked,
      list_of_doors,
      next_link_fails,
      spares_of,
      targets_of,
    };
    ghost use Rattle.xl_links.specs.Requests.{offers, requests};
    ghost use Rattle.xl_links.specs.Tellings.{AddsTold, with_told};
    ghost use Rattle.xl_links.specs.Ways.{target};

    type L = L;

    type D = MemDoor;

    ghost gives = { λ hub. offers (λ member. option_map L.shows (first_for (spares_of hub) member))
        (option_map doorway_of (door_of hub)) };

    ghost asked = { λ hub. requests (targets_of hub) (doors_of hub) };

    ghost faults = { hub_faults };

    fn open_link(&mut self, member: NodeNo, way: Way) -> Result<L, Failed>
        ensures given { IfOk result (λ link. first_for (spares_of self.old) member ≡ Some link) }
        ensures taken { OnOk result (spares_of self.new ≡ without_first (spares_of self.old) member) }
        ensures kept { OnErr result (spares_of self.new ≡ spares_of self.old) }
        ensures others { (other : ℕ) → other ≢ member
            → first_for (spares_of self.new) other ≡ first_for (spares_of self.old) other }
        ensures door { door_of self.new ≡ door_of self.old }
        ensures asked { AddsTold (targets_of self.old) (targets_of self.new) (target member way ∷ []) }
        ensures doors { list_of_doors self.new ≡ list_of_doors self.old }
        ensures later { hub_faults self.old ≤ hub_faults self.new }
        ensures failed { OnErr result (Rose (hub_faults self.old) (hub_faults self.new)) }
        ensures exact { OnOk result (hub_faults self.new ≡ hub_faults self.old) }

        // What the script makes of it.
        ensures scripted { OnOk result (next_link_fails self.old ≡ false) }
        ensures none { OnErr result (next_link_fails self.old ≡ false → first_for (spares_of self.old) member ≡ None) }
        ensures calls { hub_calls self.new ≡ one_more (hub_calls self.old) }
        ensures failing { hub_failing self.new ≡ hub_failing self.old }
        ensures list { list_of_asked self.new ≡ with_told (list_of_asked self.old) (record { member = member; way = way }) }
    {
        self.asked.push(Asked { member, way });
        self.calls = self.calls.saturating_add(1);
        if self.failing.contains(&self.calls) {
            self.faults = self.faults.saturating_add(1);
            return Err(Failed);
        }
        match take_for(&mut self.spares, member) {
            Some(link) => Ok(link),
            None => {
                self.faults = self.faults.saturating_add(1);
                Err(Failed)
            }
        }
    }

    fn open_door(&mut self, address: Bytes) -> Result<MemDoor, Failed>
        ensures given { IfOk result (λ door. door_of self.old ≡ Some door) }
        ensures none { OnErr result (door_of self.old ≡ None) }
        ensures taken { door_of self.new ≡ None }
        ensures spares { spares_of self.new ≡ spares_of self.old }
        ensures asked { AddsTold (doors_of self.old) (doors_of self.new) (address ∷ []) }
        ensures links { list_of_asked self.new ≡ list_of_asked self.old }
        ensures list { list_of_doors self.new ≡ with_told (list_of_doors self.old) address }
        ensures later { hub_faults self.old ≤ hub_faults self.new }
        ensures failed { OnErr result (Rose (hub_faults self.old) (hub_faults self.new)) }
        ensures exact { OnOk result (hub_faults self.new ≡ hub_faults self.old) }
    {
        self.doors.push(address);
        match self.door.take() {
            Some(door) => Ok(door),
            None => {
                self.faults = self.faults.saturating_add(1);
                Err(Failed)
            }
        }
    }
}

/// Takes out the first link to the member.
fn take_for<L: Drop>(spares: &mut Vec<Spare<L>>, member: NodeNo) -> Option<L>
    ensures first { result ≡ first_for spares.old.items member }
    ensures others { spares.new.items ≡ without_first spares.old.items member }
    ensures none { IfNone result (spares.new.items ≡ spares.old.items) }
{
    let place = place_for(spares, member)?;
    Some(spares.remove(place).link)
}

/// Where the first link to the member stands.
fn place_for<L>(spares: &[Spare<L>], member: NodeNo) -> Option<usize>
    ensures { IsPlaceFor spares.now member result }
{
    for (place, spare) in spares.iter().enumerate() {
        if spare.member == member {
            return Some(place);
        }
    }
    None
}
