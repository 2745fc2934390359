ghost use Rattle.std.specs.Prelude.{◌≡◌, ◌-◌, ◌<◌};
ghost use Rattle.xl_status.specs.Hearings.{unheard_since, after_status, is_heard_in, last_heard, heard_at};

use xl_base::{MOST_MEMBERS, Millis, NodeNo};
use xl_store::NodeStatus;

/// When each number was last heard, from 1 on, as statuses tell.
#[derive(Clone, Copy)]
pub struct Hearing {
    at: [Millis; MOST_MEMBERS],
}

impl Hearing {
    /// Before the first status it is one moment for all.
    pub fn new(moment: Millis) -> Hearing
        ensures { result ≡ unheard_since moment }
    {
        Hearing {
            at: [moment; MOST_MEMBERS],
        }
    }

    /// Who is heard by a status was last heard at its moment.
    pub fn note(&mut self, status: &NodeStatus)
        ensures { self.new ≡ after_status self.old status.now }
    {
        let mut at = [0; MOST_MEMBERS];
        for place in 0..MOST_MEMBERS {
            at[place] = last_heard(status.heard[place], status.time, self.at[place]);
        }
        self.at = at;
    }

    /// When a member was last heard.
    pub fn last(&self, member: NodeNo) -> Millis
        ensures { result ≡ heard_at self.now member }
    {
        self.at[place_of(member)]
    }
}

/// When a number was last heard, by whether it is heard now.
fn last_heard(heard: bool, now: Millis, before: Millis) -> Millis
    ensures { result ≡ last_heard heard now before }
{
    if heard { now } else { before }
}

/// Whether a member is heard, as a status tells.
pub(crate) fn is_heard(status: &NodeStatus, member: NodeNo) -> bool
    ensures { result ≡ is_heard_in status.now member }
{
    status.heard[place_of(member)]
}

/// The place of a member among all numbers.
fn place_of(member: NodeNo) -> usize
    ensures place { result ≡ member - 1 }
    ensures within { result < 64 }
{
    member.get() as usize - 1
}
