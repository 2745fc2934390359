// How a save was answered, as the answer of the call tells that asked it.
ghost use Rattle.std.specs.Prelude.{◌≡◌};
ghost use Rattle.xl_store.specs.Outcomes.{outcome_as, outcome_at, outcome_in, outcome_told};

use crate::entry::Saved;
use xl_core::{Issued, Refusal, TimerAnswer};

/// Of a call that issues.
pub(crate) fn of_issue(answer: &Result<(), Refusal>) -> Option<Saved>
    ensures { result ≡ outcome_in answer.now }
{
    match answer {
        Ok(()) => Some(Saved::Ok),
        Err(why) => of_refusal(why),
    }
}

/// Of a timer.
pub(crate) fn of_beat(beat: &TimerAnswer) -> Option<Saved>
    ensures { result ≡ outcome_at beat.now }
{
    match beat {
        TimerAnswer::Built { issued, .. } => of_built(issued),
        _ => None,
    }
}

/// Of a ledger that was built and validated so.
fn of_built(issued: &Issued) -> Option<Saved>
    ensures { result ≡ outcome_as issued.now }
{
    match issued {
        Issued::Full | Issued::Partial => Some(Saved::Ok),
        Issued::Silent => None,
        Issued::Refused(why) => of_refusal(why),
    }
}

/// Of a validation that was refused so.
fn of_refusal(why: &Refusal) -> Option<Saved>
    ensures { result ≡ outcome_told why.now }
{
    match why {
        Refusal::KeepFault(count) => Some(Saved::Failed(*count)),
        _ => None,
    }
}
