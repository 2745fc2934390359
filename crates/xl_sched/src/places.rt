ghost use Rattle.std.specs.Prelude.{◌≡◌, List, ℕ, Some, None, true, false, cond, OnOk, OnErr};

use std::alloc::{AllocError, Global};
use std::collections::BTreeMap;
use xl_base::{LedgerId, OutOfMemory};

/// If each name, and the first name of each id, stands in the order of declaration.
#[derive(Drop)]
pub struct Places {
    by_name: BTreeMap<Vec<u8>, usize>,
    /// Ids of sets and transactions too. Those of ledgers are compared eight bytes at a time.
    by_id: BTreeMap<LedgerId, usize>,
}

impl Places {
    ghost use Rattle.std.specs.Str.{bytes_eq};
    ghost use Rattle.xl_sched.specs.Places.{place_of_name, place_of_id, with_place, HasPlaceMore, HasSamePlaces};

    pub fn new(alloc: Global) -> Self
        ensures names { (name : List ℕ) → place_of_name result name ≡ None }
        ensures ids { (id : List ℕ) → place_of_id result id ≡ None }
    {
        Places {
            by_name: BTreeMap::new(alloc),
            by_id: BTreeMap::new(alloc),
        }
    }

    pub fn of_name(&self, name: &[u8]) -> Option<usize>
        ensures { result ≡ place_of_name self.now name.now }
    {
        self.by_name.get(name).copied()
    }

    pub fn of_id(&self, id: &[u8; 32]) -> Option<usize>
        ensures { result ≡ place_of_id self.now id.now }
    {
        self.by_id.get(&LedgerId(*id)).copied()
    }

    /// Keeps the place of a new name, and of its id unless that has one.
    pub fn insert(
        &mut self,
        name: &[u8],
        id: &[u8; 32],
        place: usize,
        alloc: Global,
    ) -> Result<(), OutOfMemory>
        requires { place_of_name self.old name.now ≡ None }
        ensures more { OnOk result (HasPlaceMore self.old self.new name.now id.now place) }
        ensures kept { OnErr result (HasSamePlaces self.old self.new) }
    {
        self.insert_name(name, place, alloc)?;
        match self.insert_id(id, place) {
            Ok(()) => Ok(()),
            Err(_) => {
                self.remove_name(name);
                Err(OutOfMemory)
            }
        }
    }

    fn insert_name(&mut self, name: &[u8], place: usize, alloc: Global) -> Result<(), AllocError>
        ensures names { OnOk result ((other : List ℕ) →
            place_of_name self.new other ≡ cond (bytes_eq other name.now) (Some place) (place_of_name self.old other)) }
        ensures kept { OnErr result (HasSamePlaces self.old self.new) }
        ensures ids { (other : List ℕ) → place_of_id self.new other ≡ place_of_id self.old other }
    {
        self.by_name.insert(Vec::from_slice(alloc, name)?, place)?;
        Ok(())
    }

    fn insert_id(&mut self, id: &[u8; 32], place: usize) -> Result<(), AllocError>
        ensures ids { OnOk result ((other : List ℕ) →
            place_of_id self.new other ≡ with_place (place_of_id self.old other) (bytes_eq other id.now) place) }
        ensures kept { OnErr result (HasSamePlaces self.old self.new) }
        ensures names { (other : List ℕ) → place_of_name self.new other ≡ place_of_name self.old other }
    {
        // Most ids are new, so one search decides.
        if let Some(first) = self.by_id.insert(LedgerId(*id), place)? {
            self.by_id.insert(LedgerId(*id), first)?;
        }
        Ok(())
    }

    fn remove_name(&mut self, name: &[u8])
        ensures absent { (other : List ℕ) → bytes_eq other name.now ≡ true → place_of_name self.new other ≡ None }
        ensures others { (other : List ℕ) → bytes_eq other name.now ≡ false →
            place_of_name self.new other ≡ place_of_name self.old other }
        ensures ids { (other : List ℕ) → place_of_id self.new other ≡ place_of_id self.old other }
    {
        self.by_name.remove(name);
    }
}
