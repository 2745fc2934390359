ghost use Rattle.std.specs.Prelude.{◌≡◌, IfOk, IfSome, OnOk};
ghost use Rattle.xl_audit.specs.Laws.{written_with};
ghost use Rattle.xl_audit.specs.Saves.{IsCounted};
ghost use Rattle.xl_shown.specs.Showing.{shown_if_right};
ghost use Rattle.xl_store.specs.Entries.{IsAllowed, reply_of};

use crate::giving::given_in;
use crate::hearing::{Heard, frame_in, heard_by_answer, heard_if_sealed};
use crate::issuing::issued;
use crate::reporting::arisen;
use std::alloc::Global;
use xl_audit::Auditor;
use xl_base::{Bytes, NodeNo, OutOfMemory};
use xl_core::{CoreAnswer, Report};
use xl_lists::SaidLedger;
use xl_store::Entry;

/// What a right entry shows.
#[derive(Drop)]
pub struct Shown {
    /// Whose journal it is.
    pub me: NodeNo,
    /// The bytes that come, if any do.
    pub frame: Bytes,
    /// The frame that the node hears in it.
    pub heard: Option<Heard>,
    /// The validation that the node issues.
    pub issued: Option<SaidLedger>,
    /// The report that arises, under the list that is then in force.
    pub report: Option<Report>,
    /// The frames that a drain gave, one behind the other.
    pub given: Bytes,
}

/// Judges an entry with this reply. If it is right, the answer is what it shows.
pub fn follow(
    alloc: Global,
    auditor: &mut Auditor,
    entry: Entry,
    reply: &[u8],
) -> Result<Option<Shown>, OutOfMemory>
    requires allowed { IsAllowed auditor.old entry.event }
    requires counted { IsCounted entry.outcome }
    ensures shown { IfOk result (λ shown. shown ≡ shown_if_right auditor.old (written_with entry reply.now)) }
    ensures core { IfOk result (λ shown. IfSome shown (λ _. auditor.new ≡ (reply_of auditor.old entry).core)) }
    ensures keys { OnOk result (auditor.new.node.keys ≡ auditor.old.node.keys) }
{
    let me = auditor.core().node().me();
    let before = auditor.core().node().last().report;
    let may_hear = heard_if_sealed(auditor.core(), &entry.event);
    let mut answer = CoreAnswer::Done;
    if !auditor.judge(&entry, reply, &mut answer)? {
        return Ok(None);
    }
    Ok(Some(Shown {
        me,
        heard: heard_by_answer(may_hear, &answer),
        issued: issued(me, &entry.event, &answer),
        report: arisen(&before, &auditor.core().node().last().report),
        given: given_in(alloc, &entry.event, reply)?,
        frame: frame_in(alloc, entry.event),
    }))
}
