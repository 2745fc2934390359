ghost use Rattle.std.specs.Prelude.{◌≡◌, ◌+◌, ◌%◌, ◌^◌, Some, IsSome, option_copied};
ghost use Rattle.std.specs.Borrow.{Lends, sem};
ghost use Rattle.xl_pool.specs.Entries.{value_of, next_of, holding, freed};

use std::mem;

/// A slot as it lies in memory.
#[derive(Drop)]
pub(crate) struct Entry<T> {
    pub(crate) generation: u32,
    pub(crate) content: Content<T>,
}

/// What a slot has: a value, or the free slot after it, which is the number of slots after the last.
#[derive(Drop)]
pub(crate) enum Content<T> {
    Free(u32),
    Held(T),
}

impl<T> Content<T> {
    ghost use Rattle.xl_pool.specs.contracts.entry.Content.{the_row};

    pub(crate) fn value(&self) -> Option<&T>
        ensures { option_copied result ≡ value_of self.now }
    {
        match self {
            Content::Held(value) => Some(value),
            Content::Free(_) => None,
        }
    }

    pub(crate) fn value_mut(&mut self) -> &mut T
        requires held { IsSome (value_of self.old) }
        ensures* lends { sem 𝓛 (Lends (the_row T.row) T.row self.entry result Content.Held) }
        ensures value { value_of self.old ≡ Some result.now }
    {
        match self {
            Content::Held(value) => value,
            Content::Free(_) => unreachable!(),
        }
    }
}

impl<T> Entry<T> {
    /// Holds the value from now on, and tells the free slot that came after.
    pub(crate) fn hold(&mut self, value: T) -> u32
        requires free { IsSome (next_of self.old.content) }
        ensures next { next_of self.old.content ≡ Some result }
        ensures held { self.new ≡ holding value self.old }
    {
        match mem::replace(&mut self.content, Content::Held(value)) {
            Content::Free(next) => next,
            Content::Held(_) => unreachable!(),
        }
    }

    /// Hands out the value. The slot is then free, with another one after it, and of the next generation.
    pub(crate) fn free(&mut self, next: u32) -> T
        requires held { IsSome (value_of self.old.content) }
        ensures value { value_of self.old.content ≡ Some result }
        ensures freed { self.new ≡ freed next self.old }
    {
        self.generation = self.generation.wrapping_add(1);
        match mem::replace(&mut self.content, Content::Free(next)) {
            Content::Held(value) => value,
            Content::Free(_) => unreachable!(),
        }
    }
}
