// What happens at one place, and what comes of it.
ghost use Rattle.std.specs.Prelude.{◌≡◌, ◌≤◌, ◌==◌, Some, None, length, option_copied, option_map, option_to_list, position};
ghost use Rattle.xl_core.specs.Deeds.{answer_of};
ghost use Rattle.xl_core.specs.Node.{preferred};
ghost use Rattle.xl_world.specs.declared.outcome.Outcome.TheVariants.{Preferred};
ghost use Rattle.xl_world.specs.World.{place_at};
ghost use Rattle.xl_world.specs.Emptying.{handed_out};
ghost use Rattle.xl_world.specs.Rested.{IsRested};
ghost use Rattle.xl_world.specs.Seen.{IsAnswer, MayDo, deed_event, is_relisted, no_answer, place_after, said_by_beat, said_in};

use crate::Outcome;
use crate::place::{Fate, NodeCore, Place};
use crate::saving::Fated;
use xl_base::{LedgerId, NodeNo, Seq};
use xl_core::{CoreAnswer, Deed, Hashes, Issued, Report, TimerAnswer};
use xl_lists::{List, SaidLedger};

/// What came of what happened at a node.
#[derive(Clone, Copy)]
pub struct NodeAnswer {
    /// What the node says of it.
    pub told: CoreAnswer,
    /// The number that it asked to be saved.
    pub asked: Option<Seq>,
    /// The validation that it issued.
    pub said: Option<SaidLedger>,
    /// The ledger that it reports, under the list that is now in force.
    pub report: Option<Report>,
    /// Whether that list is one that was set by this.
    pub relisted: bool,
}

impl NodeAnswer {
    /// What comes of nothing.
    pub fn nothing() -> NodeAnswer
        ensures { result ≡ no_answer }
    {
        NodeAnswer {
            told: CoreAnswer::Done,
            asked: None,
            said: None,
            report: None,
            relisted: false,
        }
    }
}

/// Notes a validation that a node issued.
fn put_said(said: &mut Option<SaidLedger>, member: NodeNo, seq: Seq, id: &LedgerId)
    ensures { said.new ≡ Some (record { member = member; seq = seq; id = id.now }) }
{
    *said = Some(SaidLedger {
        member,
        seq,
        id: *id,
    });
}

/// Notes the validation of a ledger that a timer built, if the node issued one.
fn note_beat(member: NodeNo, beat: &TimerAnswer, said: &mut Option<SaidLedger>)
    requires { said.old ≡ None }
    ensures { said.new ≡ said_by_beat member beat.now }
{
    if let TimerAnswer::Built {
        seq,
        id,
        issued: Issued::Full | Issued::Partial,
        ..
    } = beat
    {
        put_said(said, member, *seq, id);
    }
}

/// Notes the validation that a node issued by what happened at it, if it did.
fn note_said(member: NodeNo, deed: &Deed<'_>, answer: &CoreAnswer, said: &mut Option<SaidLedger>)
    requires { said.old ≡ None }
    ensures { said.new ≡ said_in member deed.now (answer_of answer.now) }
{
    match (deed, answer) {
        (Deed::Issue { seq, id, .. }, CoreAnswer::Done) => put_said(said, member, *seq, id),
        (Deed::Timer { .. }, CoreAnswer::Beats(beat)) => note_beat(member, beat, said),
        _ => {}
    }
}

/// Whether a node went over to another list.
fn is_relisted(deed: &Deed<'_>, answer: &CoreAnswer) -> bool
    ensures { result ≡ is_relisted deed.now (answer_of answer.now) }
{
    match *deed {
        Deed::Relist { .. } => !matches!(answer, CoreAnswer::Refused(_)),
        _ => false,
    }
}

/// Takes the report that waits to be taken, if there is one.
pub fn take_report(core: &mut NodeCore, report: &mut Option<Report>)
    requires few { length core.old.untaken.items ≤ 1 }
    requires fresh { report.old ≡ None }
    ensures core { core.new ≡ handed_out core.old }
    ensures report { option_to_list report.new ≡ core.old.untaken.items }
{
    let mut room = [Report {
        seq: 0,
        id: LedgerId([0; 32]),
    }];
    if core.reports(&mut room) != 0 {
        *report = Some(room[0]);
    }
}

impl Place {
    /// Something happens at the core, and the save that it asks, if any, meets a fate. The report that arises is taken.
    /// What comes of it is put into its last place at once, over what came before: an answer is large, and each call on
    /// its way would copy it.
    // Its values are many, and in the caller's they would be moved about.
    #[inline(never)]
    pub fn happens(
        &mut self,
        deed: &Deed<'_>,
        fate: Fate,
        hashes: &mut Hashes,
        answer: &mut NodeAnswer,
    )
        requires rested { IsRested self.old.core }
        requires may { MayDo self.old.core.node.me deed.now }
        ensures place { self.new ≡ place_after self.old (deed_event self.old.core.node.me deed.now) fate }
        ensures answer { IsAnswer self.old (deed_event self.old.core.node.me deed.now) fate answer.new }
    {
        answer.said = None;
        answer.report = None;
        let me = self.core.node().me();
        let mut fated = Fated {
            disk: self.disk,
            fate,
            asked: None,
        };
        self.core.happen(deed, &mut fated, hashes, &mut answer.told);
        self.disk = fated.disk;
        answer.asked = fated.asked;
        note_said(me, deed, &answer.told, &mut answer.said);
        take_report(&mut self.core, &mut answer.report);
        answer.relisted = is_relisted(deed, &answer.told);
    }
}

/// A number, and the place at which its node stands. It is looked up once for each event, and handed on.
#[derive(Clone, Copy)]
pub struct Seat {
    pub number: NodeNo,
    pub place: usize,
}

/// Where the node of a number stands.
pub fn position_of(places: &[Place], i: NodeNo) -> Option<usize>
    ensures { result ≡ position (λ p. p.core.node.me == i) places.now }
{
    places.iter().position(|place| place.core.node().me() == i)
}

/// The list of the node of a number, if there is one.
pub fn list_at(places: &[Place], i: NodeNo) -> Option<&List>
    ensures { option_copied result ≡ option_map (λ p. p.core.node.list) (place_at i places.now) }
{
    match position_of(places, i) {
        Some(k) => {
            let place = &places[k];
            Some(place.core.node().list())
        }
        None => None,
    }
}

/// The core of a number, if there is one.
pub fn core_at(places: &[Place], i: NodeNo) -> Option<&NodeCore>
    ensures { option_copied result ≡ option_map (λ p. p.core) (place_at i places.now) }
{
    match position_of(places, i) {
        Some(k) => {
            let place = &places[k];
            Some(&place.core)
        }
        None => None,
    }
}

/// The ledger that the node of a number prefers, if there is such a node.
pub fn preferred_at(places: &[Place], i: NodeNo) -> Option<Outcome>
    ensures { result ≡ option_map (λ p. Preferred i (preferred p.core.node)) (place_at i places.now) }
{
    match position_of(places, i) {
        Some(k) => {
            let place = &places[k];
            Some(Outcome::Preferred {
                node: i,
                at: place.core.preferred(),
            })
        }
        None => None,
    }
}
