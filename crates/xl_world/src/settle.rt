// What came of what happened at a node, taken into the lists of a world.
ghost use Rattle.std.specs.Prelude.{◌≡◌, ◌++◌, [], ◌∷◌, map, option_map, option_to_list, OnOk};
ghost use Rattle.xl_world.specs.Schedule.{hearsay, hearsay_of, told_of_answer, told_of_beat, told_of_issued};
ghost use Rattle.xl_core.specs.Deeds.{answer_of};
ghost use Rattle.xl_world.specs.World.{place_at};
ghost use Rattle.xl_world.specs.Ends.{IsLonger};
ghost use Rattle.xl_world.specs.Seen.{list_noted, outcomes_told, report_noted};

use crate::act::{NodeAnswer, core_at};
use crate::place::{NodeCore, Place};
use crate::{InForce, Outcome, WorldReport};
use xl_base::{LedgerId, NodeNo, OutOfMemory, Seq};
use xl_core::{CoreAnswer, Issued, Refusal, Report, TimerAnswer};
use xl_ledger::AddRefusal;

/// Adds an element if there is one.
pub fn push_some<T: Drop>(list: &mut Vec<T>, element: Option<T>) -> Result<(), OutOfMemory>
    ensures pushed { OnOk result (list.new.items ≡ list.old.items ++ option_to_list element) }
    ensures longer { IsLonger list.old.items list.new.items }
{
    if let Some(element) = element {
        list.push(element)?;
    }
    Ok(())
}

// Each of these is large, so that whoever only chooses among them has none of its own.

/// Why a node refused what happened.
fn tell_refused(told: &mut Vec<Outcome>, node: NodeNo, refusal: &Refusal) -> Result<(), OutOfMemory>
    ensures { OnOk result (told.new.items ≡ told.old.items ++ Outcome.Refused node refusal.now ∷ []) }
{
    told.push(Outcome::Refused {
        node,
        refusal: *refusal,
    })?;
    Ok(())
}

/// The ledger to which a node switched.
fn tell_switched(
    told: &mut Vec<Outcome>,
    node: NodeNo,
    seq: Seq,
    id: &LedgerId,
) -> Result<(), OutOfMemory>
    ensures { OnOk result (told.new.items ≡ told.old.items ++ Outcome.Switched node seq id.now ∷ []) }
{
    told.push(Outcome::Switched { node, seq, id: *id })?;
    Ok(())
}

/// A node knows as many ledgers as it may.
fn tell_no_room(told: &mut Vec<Outcome>, node: NodeNo, limit: u32) -> Result<(), OutOfMemory>
    ensures { OnOk result (told.new.items
        ≡ told.old.items ++ Outcome.Refused node (Refusal.Header (AddRefusal.Full limit)) ∷ []) }
{
    tell_refused(told, node, &Refusal::Header(AddRefusal::Full(limit)))
}

/// The ledger that a node built, and that its validation of it was refused, if it was.
fn tell_built(
    told: &mut Vec<Outcome>,
    node: NodeNo,
    seq: Seq,
    id: &LedgerId,
    issued: &Issued,
) -> Result<(), OutOfMemory>
    ensures { OnOk result (told.new.items
        ≡ told.old.items ++ Outcome.Built node seq id.now issued.now ∷ told_of_issued node issued.now) }
{
    told.push(Outcome::Built {
        node,
        seq,
        id: *id,
        issued: *issued,
    })?;
    match issued {
        Issued::Refused(refusal) => tell_refused(told, node, refusal),
        _ => Ok(()),
    }
}

/// What came of a node's timer.
fn tell_beat(told: &mut Vec<Outcome>, node: NodeNo, beat: &TimerAnswer) -> Result<(), OutOfMemory>
    ensures { OnOk result (told.new.items ≡ told.old.items ++ told_of_beat node beat.now) }
{
    match beat {
        TimerAnswer::Nothing | TimerAnswer::Closed | TimerAnswer::Updated => Ok(()),
        TimerAnswer::Switched(seq, id) => tell_switched(told, node, *seq, id),
        TimerAnswer::NoRoom(limit) => tell_no_room(told, node, *limit),
        TimerAnswer::Built {
            seq,
            id,
            issued,
            ..
        } => tell_built(told, node, *seq, id, issued),
    }
}

/// What a node says of what happened at it.
fn tell_answer(
    told: &mut Vec<Outcome>,
    node: NodeNo,
    answer: &CoreAnswer,
) -> Result<(), OutOfMemory>
    ensures { OnOk result (told.new.items ≡ told.old.items ++ told_of_answer node (answer_of answer.now)) }
{
    match answer {
        CoreAnswer::Done | CoreAnswer::Took(_) | CoreAnswer::Told(_) => Ok(()),
        CoreAnswer::Refused(refusal) => tell_refused(told, node, refusal),
        CoreAnswer::Beats(beat) => tell_beat(told, node, beat),
    }
}

/// The ledger that a node reports.
fn tell_full(told: &mut Vec<Outcome>, node: NodeNo, report: &Report) -> Result<(), OutOfMemory>
    ensures { OnOk result (told.new.items
        ≡ told.old.items ++ Outcome.Full node report.now.seq report.now.id ∷ []) }
{
    told.push(Outcome::Full {
        node,
        seq: report.seq,
        id: report.id,
    })?;
    Ok(())
}

/// The report of a node, if there is one.
fn tell_report(
    told: &mut Vec<Outcome>,
    node: NodeNo,
    report: &Option<Report>,
) -> Result<(), OutOfMemory>
    ensures { OnOk result (told.new.items
        ≡ told.old.items ++ option_to_list (option_map (λ r. Outcome.Full node r.seq r.id) report.now)) }
{
    match report {
        Some(report) => tell_full(told, node, report),
        None => Ok(()),
    }
}

/// What is told of an answer.
pub fn tell(told: &mut Vec<Outcome>, node: NodeNo, answer: &NodeAnswer) -> Result<(), OutOfMemory>
    ensures { OnOk result (told.new.items ≡ told.old.items ++ outcomes_told node answer.now) }
{
    tell_answer(told, node, &answer.told)?;
    tell_report(told, node, &answer.report)
}

/// Notes a report of the node of a number, if there is one, under the list that is in force there.
pub fn note_report(
    reports: &mut Vec<WorldReport>,
    places: &[Place],
    i: NodeNo,
    report: &Option<Report>,
) -> Result<(), OutOfMemory>
    ensures noted { OnOk result
        (reports.new.items ≡ reports.old.items ++ option_to_list (report_noted report.now (place_at i places.now))) }
    ensures longer { IsLonger reports.old.items reports.new.items }
{
    let Some(Report { seq, id }) = *report else {
        return Ok(());
    };
    if let Some(core) = core_at(places, i) {
        reports.push(WorldReport {
            node: core.node().me(),
            list: core.list().copy(),
            seq,
            id,
        })?;
    }
    Ok(())
}

/// Notes the list in force at the node of a number, if it was set by what happened.
pub fn note_list(
    lists: &mut Vec<InForce>,
    places: &[Place],
    i: NodeNo,
    relisted: bool,
) -> Result<(), OutOfMemory>
    ensures noted { OnOk result
        (lists.new.items ≡ lists.old.items ++ option_to_list (list_noted relisted (place_at i places.now))) }
    ensures longer { IsLonger lists.old.items lists.new.items }
{
    if !relisted {
        return Ok(());
    }
    if let Some(core) = core_at(places, i) {
        lists.push(InForce {
            node: core.node().me(),
            list: core.list().copy(),
        })?;
    }
    Ok(())
}

/// What a node heard of the ledger that each member of its list last reported.
fn tell_heard(told: &mut Vec<Outcome>, core: &NodeCore) -> Result<(), OutOfMemory>
    ensures { OnOk result (told.new.items ≡ told.old.items ++ map (hearsay_of core.now) core.now.node.list.members) }
{
    for member in core.list().members() {
        told.push(Outcome::Heard {
            node: core.node().me(),
            member: *member,
            id: core.heard(*member),
        })?;
    }
    Ok(())
}

/// The same of the node of a number, if there is one.
pub fn tell_heard_at(
    told: &mut Vec<Outcome>,
    places: &[Place],
    i: NodeNo,
) -> Result<(), OutOfMemory>
    ensures { OnOk result (told.new.items ≡ told.old.items ++ hearsay i (place_at i places.now)) }
{
    match core_at(places, i) {
        Some(core) => tell_heard(told, core),
        None => Ok(()),
    }
}
