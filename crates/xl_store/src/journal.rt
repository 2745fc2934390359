ghost use Rattle.std.specs.Prelude.{◌≡◌, [], ◌∷◌, length, IfSome, IfNone};

use crate::entry::Entry;
use std::collections::LinkedList;
use std::marker::Model;

/// The entries of a store, oldest first, which only contracts see: it takes no memory.
pub type Journal = xl_turns::Journal<Entry>;

/// Entries that were kept, seen as the list of those that are left, oldest first. Letting it go is a loop over them,
/// however many they are.
#[derive(Drop)]
pub struct Entries {
    pub(crate) rest: LinkedList<Entry>,
}

impl Model for Entries {
    ghost use Rattle.std.specs.Prelude.{List};
    ghost use Rattle.xl_store.specs.declared.entry.Entry.{Entry};

    ghost Value = { List Entry };

    ghost view = { λ entries. entries.rest };
}

impl Entries {
    /// How many are left.
    pub fn len(&self) -> u64
        ensures { result ≡ length self.now }
    {
        self.rest.len() as u64
    }

    /// The oldest entry that is left, and None exactly after the last. It takes no memory.
    pub fn next(&mut self) -> Option<Entry>
        ensures next { IfSome result (λ entry. self.old ≡ entry ∷ self.new) }
        ensures last { IfNone result ((self.old ≡ []) × (self.new ≡ [])) }
    {
        self.rest.pop_front()
    }
}
