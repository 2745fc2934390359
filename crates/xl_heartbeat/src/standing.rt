ghost use Rattle.std.specs.Prelude.{◌≡◌};
ghost use Rattle.xl_heartbeat.specs.Looks.{standing_of};

use crate::Pulse;
use xl_base::Millis;
use xl_lists::List;
use xl_publish::Publishing;

/// What a heartbeat has come to: which list is set, and what makes the next one.
#[derive(Drop)]
pub struct Standing {
    /// The list that was set last.
    pub set: List,
    /// The publishers, with the rolls that they have by now.
    pub publishing: Option<Publishing>,
    /// The moment from which on the next look at the text of rolls is due.
    pub due: Millis,
}

impl Standing {
    /// Before the first beat.
    pub(crate) fn of(pulse: &Pulse) -> Standing
        ensures { result ≡ standing_of pulse.now }
    {
        Standing {
            set: pulse.list.copy(),
            publishing: copy_of(&pulse.publishing),
            due: pulse.timing.opened,
        }
    }
}

fn copy_of(publishing: &Option<Publishing>) -> Option<Publishing>
    ensures { result ≡ publishing.now }
{
    match publishing {
        Some(publishing) => Some(publishing.copy()),
        None => None,
    }
}
