// What waits for a member, item by item, for whoever sends it without bytes.
ghost use Rattle.std.specs.Prelude.{◌≡◌, is_some, option_copied, slice_get, length};
ghost use Rattle.xl_queues.specs.Queues.{passed_over, without_first};
ghost use Rattle.xl_core.specs.Greetings.{greeting_at};
ghost use Rattle.xl_core.specs.Queues.{at_number, waiting_at};

use super::Core;
use super::greeting::has_greeting;
use super::marks::{is_idle, noted};
use super::outgoing::reader_of;
use crate::Item;
use xl_base::NodeNo;
use xl_ledger::Branch;

impl<B: Branch + Drop> Core<B> {
    /// Whether a member was greeted since the core opened.
    pub fn was_greeted(&self, member: NodeNo) -> bool
        ensures { result ≡ is_some (greeting_at self.now.greetings member) }
    {
        has_greeting(&self.greetings, member)
    }

    /// The oldest item that waits for a member, or None if none waits.
    pub fn first(&self, member: NodeNo) -> Option<&Item>
        ensures value { option_copied result ≡ slice_get (waiting_at self.now.waiting member).items 0 }
        ensures numbers { length self.now.waiting ≡ 64 }
    {
        self.waiting.first(reader_of(member))
    }

    /// The oldest item that waits for a member, if one does, is taken out, as one that was sent.
    pub fn take_first(&mut self, member: NodeNo)
        ensures { self.new ≡ record self.old { waiting = at_number self.old.waiting member without_first } }
    {
        self.waiting.pop(reader_of(member));
        let idle = is_idle(&self.greetings, &self.waiting, member);
        self.marks = noted(self.marks, member, idle);
    }

    /// The oldest item that waits for a member, if one does, is taken out, and counts as lost.
    pub fn pass_over_first(&mut self, member: NodeNo)
        ensures { self.new ≡ record self.old { waiting = at_number self.old.waiting member passed_over } }
    {
        self.waiting.pass_over(reader_of(member));
        let idle = is_idle(&self.greetings, &self.waiting, member);
        self.marks = noted(self.marks, member, idle);
    }
}
