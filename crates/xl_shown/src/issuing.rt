// What a node issues.
ghost use Rattle.std.specs.Prelude.{◌≡◌};
ghost use Rattle.xl_core.specs.Deeds.{answer_of};
ghost use Rattle.xl_shown.specs.Showing.{issued_by_beat as issued_by_beat_of, issued_in};

use xl_base::NodeNo;
use xl_core::{CoreAnswer, CoreEvent, Issued, TimerAnswer};
use xl_lists::SaidLedger;

/// The validation of a ledger that a timer built, if the node issued one.
fn issued_by_beat(me: NodeNo, beat: &TimerAnswer) -> Option<SaidLedger>
    ensures { result ≡ issued_by_beat_of me beat.now }
{
    match beat {
        TimerAnswer::Built {
            seq,
            id,
            issued: Issued::Full | Issued::Partial,
            ..
        } => Some(SaidLedger {
            member: me,
            seq: *seq,
            id: *id,
        }),
        _ => None,
    }
}

/// The validation that a node issued, by what happened at it and what it answered.
pub fn issued(me: NodeNo, event: &CoreEvent, answer: &CoreAnswer) -> Option<SaidLedger>
    ensures { result ≡ issued_in me event.now (answer_of answer.now) }
{
    match (event, answer) {
        (CoreEvent::Issue { seq, id, .. }, CoreAnswer::Done) => Some(SaidLedger {
            member: me,
            seq: *seq,
            id: *id,
        }),
        (CoreEvent::Timer { .. }, CoreAnswer::Beats(beat)) => issued_by_beat(me, beat),
        _ => None,
    }
}
