ghost use Rattle.std.specs.Prelude.{◌≡◌, ◌+◌, ◌-◌, ◌≤◌, ◌<◌, ◌^◌, [], ◌∷◌, min, length, slice_get, replicate, map, IfOk};
ghost use Rattle.std.specs.Prelude.{option_copied, option_to_list};
ghost use Rattle.xl_queues.specs.Broadcasts.{queue_of, at_reader, pushed_to_all, left_with, counted_anew};
ghost use Rattle.xl_queues.specs.Broadcasts.{AccountsForAll, AreAccounted, no_reader, one_reader};
ghost use Rattle.xl_queues.specs.Queues.{no_items, passed_over, without_first};

use circular_buffer::HeapCircularBuffer;
use std::alloc::Global;
use std::marker::Model;
use xl_base::OutOfMemory;

/// How far a reader is.
#[derive(Clone, Copy)]
pub struct Reader {
    /// How many of the pushed items are behind it: it took them, passed them over or lost them.
    read: u64,
    /// How many of them it lost, besides those that it was overrun by since it read last.
    lost: u64,
}

/// The last items that were pushed, at most `N`, until each of `R` readers has taken them. A push is one write: a
/// reader that falls behind by more than `N` items has lost the oldest, as if it had `N` places of its own. No call
/// after `open` takes memory.
#[derive(Drop)]
pub struct Broadcast<T, const N: usize, const R: usize> {
    items: HeapCircularBuffer<T>,
    /// How many items were pushed, less some that all readers have behind them.
    pushed: u64,
    readers: [Reader; R],
}

impl<T, const N: usize, const R: usize> Model for Broadcast<T, N, R> {
    ghost use Rattle.std.specs.Prelude.{◌≡◌, ◌≤◌, List, All, length, map};
    ghost use Rattle.std.specs.Coded.{coded_list};
    ghost use Rattle.xl_queues.specs.Queues.{Backlog, backlog_code};
    ghost use Rattle.xl_queues.specs.Broadcasts.{waiting_for, KeepsUp};

    ghost Value = { List (Backlog T) };

    ghost coded = { coded_list (backlog_code T.code) };

    ghost view = { λ b. map (waiting_for N b.items.items b.pushed) b.readers };

    ghost invariant = { λ b. (b.items.capacity ≡ N) × (length b.items.items ≤ N)
        × All (KeepsUp N (length b.items.items) b.pushed) b.readers };
}

impl<T: Copy + Drop, const N: usize, const R: usize> Broadcast<T, N, R> {
    pub fn open(alloc: Global) -> Result<Self, OutOfMemory>
        ensures empty { IfOk result (λ queues. queues ≡ replicate R no_items) }
        ensures accounted { IfOk result AreAccounted }
    {
        Ok(Broadcast {
            items: HeapCircularBuffer::with_capacity(alloc, N)?,
            pushed: 0,
            readers: [Reader { read: 0, lost: 0 }; R],
        })
    }

    /// Forgets what was pushed and what was lost, as when it was opened. It takes no memory.
    pub fn reset(&mut self)
        ensures empty { self.new ≡ replicate R no_items }
        ensures accounted { AreAccounted self.new }
    {
        let readers = [Reader { read: 0, lost: 0 }; R];
        self.items.clear();
        self.pushed = 0;
        self.readers = readers;
    }

    /// Puts the item last for every reader. One for which `N` items wait already loses its oldest.
    pub fn push(&mut self, item: T)
        ensures pushed { self.new ≡ pushed_to_all N self.old item }
        ensures accounted { AccountsForAll self.old self.new (item ∷ []) no_reader }
    {
        if self.pushed == u64::MAX {
            let held = self.items.capacity() as u64;
            count_anew(&mut self.readers, self.pushed, held);
            self.pushed = held;
        }
        self.items.push_back(item);
        self.pushed += 1;
    }

    /// How many items wait for a reader.
    pub fn len(&self, reader: usize) -> usize
        requires { reader < R }
        ensures len { result ≡ length (queue_of self.now reader).items }
        ensures limit { result ≤ N }
    {
        let behind = self.pushed.saturating_sub(self.readers[reader].read);
        self.items.len().min(behind as usize)
    }

    /// How many items a reader lost, up to the greatest `u64`.
    pub fn lost(&self, reader: usize) -> u64
        requires { reader < R }
        ensures { result ≡ (queue_of self.now reader).lost }
    {
        let held = self.items.capacity() as u64;
        self.readers[reader].lost_of(self.pushed, held)
    }

    /// The oldest item that waits for a reader.
    pub fn first(&self, reader: usize) -> Option<&T>
        requires { reader < R }
        ensures oldest { option_copied result ≡ slice_get (queue_of self.now reader).items 0 }
        ensures readers { length self.now ≡ R }
    {
        self.items.get(self.items.len() - self.len(reader))
    }

    /// Takes the oldest item that waits for a reader.
    pub fn pop(&mut self, reader: usize) -> Option<T>
        requires { reader < R }
        ensures oldest { result ≡ slice_get (queue_of self.old reader).items 0 }
        ensures taken { self.new ≡ at_reader self.old reader without_first }
        ensures accounted { AccountsForAll self.old self.new [] (one_reader reader (option_to_list result)) }
    {
        let oldest = self.first(reader).copied();
        let left = self.len(reader).saturating_sub(1);
        self.leave(reader, left, self.lost(reader));
        oldest
    }

    /// Drops the oldest item that waits for a reader, if there is one, and counts it as lost.
    pub fn pass_over(&mut self, reader: usize)
        requires { reader < R }
        ensures passed { self.new ≡ at_reader self.old reader passed_over }
        ensures accounted { AccountsForAll self.old self.new [] no_reader }
    {
        let waiting = self.len(reader);
        if waiting > 0 {
            let lost = self.lost(reader).saturating_add(1);
            self.leave(reader, waiting - 1, lost);
        }
    }

    /// Leaves a reader this many of its last items, with this count of lost ones.
    fn leave(&mut self, reader: usize, left: usize, lost: u64)
        requires reader { reader < R }
        requires left { left ≤ length (queue_of self.old reader).items }
        ensures { self.new ≡ at_reader self.old reader (left_with left lost) }
    {
        let read = self.pushed - left as u64;
        self.readers[reader] = Reader { read, lost };
    }
}

impl Reader {
    /// How many items it lost when so many were pushed, of which so many are held at most.
    fn lost_of(&self, pushed: u64, held: u64) -> u64
        ensures { result ≡ min (self.now.lost + (pushed - self.now.read - held)) (2 ^ 64 - 1) }
    {
        let behind = pushed.saturating_sub(self.read);
        self.lost.saturating_add(behind.saturating_sub(held))
    }

    /// The reader when only the held items count as pushed.
    fn counted_anew(&self, pushed: u64, held: u64) -> Reader
        ensures { result ≡ counted_anew held pushed self.now }
    {
        Reader {
            read: held - held.min(pushed.saturating_sub(self.read)),
            lost: self.lost_of(pushed, held),
        }
    }
}

/// Counts the pushed items from the held ones on.
fn count_anew(readers: &mut [Reader], pushed: u64, held: u64)
    ensures { readers.new ≡ map (counted_anew held pushed) readers.old }
{
    for reader in readers.iter_mut() {
        *reader = reader.counted_anew(pushed, held);
    }
}
