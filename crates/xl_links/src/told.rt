ghost use Rattle.std.specs.Prelude.{◌≡◌, IfOk, option_map};
ghost use Rattle.xl_links.specs.Tellings.{nothing_told, telling_of, with_told};

use std::alloc::Global;
use xl_base::OutOfMemory;

/// What is told of calls, first to last. From the first one on for which there is no room, none is told.
#[derive(Drop)]
pub struct Told<T> {
    items: Vec<T>,
    whole: bool,
}

impl<T: Drop> Told<T> {
    pub(crate) fn with_room(alloc: Global, room: usize) -> Result<Self, OutOfMemory>
        ensures { IfOk result (λ told. telling_of told ≡ nothing_told room) }
    {
        Ok(Told {
            items: Vec::with_capacity(alloc, room)?,
            whole: true,
        })
    }

    /// Tells one more. It takes no memory.
    pub(crate) fn push(&mut self, item: T)
        ensures { telling_of self.new ≡ with_told (telling_of self.old) item }
    {
        if self.items.len() < self.items.capacity() {
            self.items.push_reserved(item);
        } else {
            self.whole = false;
        }
    }

    /// All of them, if they are told.
    pub(crate) fn items(&self) -> Option<&[T]>
        ensures { option_map (λ items. items.now) result ≡ (telling_of self.now).told }
    {
        self.whole.then_some(self.items.as_slice())
    }
}
