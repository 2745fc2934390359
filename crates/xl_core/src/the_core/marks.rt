// For which members something is left, as the bits of a word: from the lowest on, one for each number from 1 on.
ghost use Rattle.std.specs.Prelude.{◌≡◌, ◌≢◌, ◌==◌, ◌<◌, ◌^◌, ℕ, List, suc};
ghost use Rattle.std.specs.Int.{bit_at};
ghost use Rattle.xl_queues.specs.Broadcasts.{pushed_to_all};
ghost use Rattle.xl_core.specs.Core.{is_idle_among};
ghost use Rattle.xl_queues.specs.Queues.{Backlog};
ghost use Rattle.xl_core.specs.Greetings.{none_greeted};
ghost use Rattle.xl_core.specs.Marks.{mark, AreMarks, StayMarks};
ghost use Rattle.xl_core.specs.Queues.{most_waiting};
ghost use Rattle.xl_core.specs.declared.item.Item.{Item};

use super::greeting::{Greetings, has_greeting};
use super::outgoing::{Waiting, count_for, reader_of};
use crate::Item;
use xl_base::{MOST_MEMBERS, NodeNo};

/// Whether nothing is left for a member.
pub fn is_idle(greetings: &Greetings, waiting: &Waiting, member: NodeNo) -> bool
    ensures { result ≡ is_idle_among greetings.now waiting.now member }
{
    if has_greeting(greetings, member) {
        return false;
    }
    count_for(waiting, member) == 0
}

/// Whether something is left for a member.
pub fn is_marked(marks: u64, member: NodeNo) -> bool
    ensures { (place : ℕ) → member ≡ suc place → result ≡ (bit_at marks place == 1) }
{
    (marks >> reader_of(member)) & 1 == 1
}

/// The marks, with that of a member as it is now.
pub fn noted(marks: u64, member: NodeNo, idle: bool) -> u64
    ensures own { (place : ℕ) → member ≡ suc place → bit_at result place ≡ mark idle }
    ensures others { (place : ℕ) → place < 64 → member ≢ suc place → bit_at result place ≡ bit_at marks place }
{
    let bit = 1 << reader_of(member);
    if idle { marks & !bit } else { marks | bit }
}

/// No member is greeted any more. If nothing is left for any, none was.
pub fn forget(greetings: &mut Greetings, marks: u64)
    requires { (waiting : List (Backlog Item)) × AreMarks marks greetings.old waiting }
    ensures { greetings.new ≡ none_greeted }
{
    if marks == 0 {
        return;
    }
    *greetings = [None; MOST_MEMBERS];
}

/// An item waits for every number.
pub fn push(waiting: &mut Waiting, marks: &mut u64, item: Item)
    ensures pushed { waiting.new ≡ pushed_to_all most_waiting waiting.old item }
    ensures marks { StayMarks marks.old marks.new waiting.old waiting.new }
{
    waiting.push(item);
    *marks = u64::MAX;
}
