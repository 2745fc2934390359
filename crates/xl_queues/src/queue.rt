ghost use Rattle.std.specs.Prelude.{◌≡◌, ◌≤◌, ◌==◌, [], ◌∷◌, length, slice_get, option_copied, option_to_list, is_some, if◌then◌else◌, IfOk};
ghost use Rattle.xl_queues.specs.Accounts.{IsAccounted, Accounts};
ghost use Rattle.xl_base.specs.Counts.{one_more};
ghost use Rattle.xl_queues.specs.Queues.{no_items, passed_over, with_item, without_first};

use circular_buffer::HeapCircularBuffer;
use std::alloc::Global;
use std::marker::Model;
use xl_base::OutOfMemory;

/// The last items that were pushed, at most `N`, until they are taken. No call after `open` takes memory.
#[derive(Drop)]
pub struct Queue<T, const N: usize> {
    items: HeapCircularBuffer<T>,
    lost: u64,
}

impl<T, const N: usize> Model for Queue<T, N> {
    ghost use Rattle.std.specs.Prelude.{◌≡◌, ◌≤◌, length};
    ghost use Rattle.xl_queues.specs.Queues.{Backlog, backlog_code};

    ghost Value = { Backlog T };

    ghost coded = { backlog_code T.code };

    ghost view = { λ q. record { items = q.items.items; lost = q.lost } };

    ghost invariant = { λ q. (q.items.capacity ≡ N) × (length q.items.items ≤ N) };
}

impl<T: Drop, const N: usize> Queue<T, N> {
    pub fn open(alloc: Global) -> Result<Self, OutOfMemory>
        ensures empty { IfOk result (λ queue. queue ≡ no_items) }
        ensures accounted { IfOk result (λ queue. IsAccounted [] [] queue) }
    {
        Ok(Queue {
            items: HeapCircularBuffer::with_capacity(alloc, N)?,
            lost: 0,
        })
    }

    /// Forgets what was pushed and what was lost, as when it was opened. It takes no memory.
    pub fn reset(&mut self)
        ensures empty { self.new ≡ no_items }
        ensures accounted { IsAccounted [] [] self.new }
    {
        self.items.clear();
        self.lost = 0;
    }

    /// Puts the item last. A full queue drops its oldest item and counts it.
    pub fn push(&mut self, item: T)
        ensures pushed { self.new ≡ with_item N self.old item }
        ensures accounted { Accounts self.old self.new (item ∷ []) [] }
    {
        let dropped = self.items.push_back(item);
        self.count(dropped);
    }

    /// Takes the oldest item.
    pub fn pop(&mut self) -> Option<T>
        ensures oldest { result ≡ slice_get self.old.items 0 }
        ensures taken { self.new ≡ without_first self.old }
        ensures accounted { Accounts self.old self.new [] (option_to_list result) }
    {
        self.items.pop_front()
    }

    /// Drops the oldest item, if there is one, and counts it as a full queue does.
    pub fn pass_over(&mut self)
        ensures passed { self.new ≡ passed_over self.old }
        ensures accounted { Accounts self.old self.new [] [] }
    {
        let dropped = self.items.pop_front();
        self.count(dropped);
    }

    /// Counts the item as lost, if there is one.
    fn count(&mut self, dropped: Option<T>)
        ensures items { self.new.items ≡ self.old.items }
        ensures lost { self.new.lost ≡ (if is_some dropped then one_more self.old.lost else self.old.lost) }
    {
        if dropped.is_some() {
            self.lost = self.lost.saturating_add(1);
        }
    }

    /// The oldest item.
    pub fn first(&self) -> Option<&T>
        ensures { option_copied result ≡ slice_get self.now.items 0 }
    {
        self.items.front()
    }

    pub fn len(&self) -> usize
        ensures len { result ≡ length self.now.items }
        ensures limit { result ≤ N }
    {
        self.items.len()
    }

    pub fn is_empty(&self) -> bool
        ensures { result ≡ (length self.now.items == 0) }
    {
        self.items.is_empty()
    }

    /// How many items were dropped, up to the greatest `u64`.
    pub fn lost(&self) -> u64
        ensures { result ≡ self.now.lost }
    {
        self.lost
    }
}
