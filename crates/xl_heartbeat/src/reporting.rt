ghost use Rattle.std.specs.Prelude.{◌≤◌};
ghost use Rattle.std.specs.declared.option.Option.{Option};
ghost use Rattle.xl_base.specs.Moments.{greatest_millis};
ghost use Rattle.xl_turns.specs.Passes.{known};
ghost use Rattle.xl_store.specs.Stores.{start_of, turns_of, retention_of, IsOf};
ghost use Rattle.xl_heartbeat.specs.Outputs.{output};
ghost use Rattle.xl_heartbeat.specs.declared.bulletin.Bulletin.{Bulletin as TheBulletin};
ghost use Rattle.xl_heartbeat.specs.Beats.{TakesReports};
ghost use Rattle.xl_heartbeat.specs.Bulletins.{Told, ToldIf};
ghost use Rattle.xl_heartbeat.specs.Recording.{Recorded};

use crate::ends::{Ending, ending_of};
use crate::handing::hand_on;
use crate::lines::write_reports;
use crate::room::ROOM;
use crate::{Bulletin, Outlets};
use std::sync::Wait;
use xl_base::{LedgerId, Millis};
use xl_board::Board;
use xl_core::Report;
use xl_io::{Keeper, Sink};
use xl_ledger::Branch;
use xl_store::{Handed, Pass, Recorder, Store};

/// What stands in the room before reports come.
const BLANK: Report = Report {
    seq: 0,
    id: LedgerId([0; 32]),
};

/// Takes the reports that no one has taken, up to 1,024, and writes a line for each: `full SEQ ID`, the id as 64
/// lower-case digits. So does each beat, and so a run ends once all its workers have ended. What the store hands on of its
/// journal is recorded before, whatever then becomes of the lines.
///
/// It ends with Done where all lines were written, with WriteFault where a write failed, and with OutOfMemory or
/// StoreFull where the store gave no turn; nothing was taken then, and nothing written.
pub fn take_reports<W: Wait, B: Branch + Drop, K: Keeper + Drop, O: Sink, R: Recorder>(
    rt: &W,
    store: &Store<B, K>,
    sink: &mut O,
    recorder: &mut Option<R>,
    pass: &mut Pass,
) -> Ending
    requires pass { IsOf store.now pass.old }
    ensures pass { IsOf store.now pass.new }
    ensures takes { TakesReports (start_of store.now) (turns_of store.now)
        (known pass.old) (output (O.held sink.old) (O.faults sink.old)) result
        (known pass.new) (output (O.held sink.new) (O.faults sink.new)) }
    ensures recorded { Recorded R.records (retention_of store.now) (start_of store.now)
        (known pass.old) (known pass.new) recorder.old recorder.new }
{
    let mut room = [BLANK; ROOM];
    match store.reports(rt, pass, &mut room) {
        Ok(handed) => {
            let Handed { count, batch } = handed;
            hand_on(recorder, batch);
            match write_reports(sink, &room[..count]) {
                Ok(()) => Ending::Done,
                Err(_) => Ending::WriteFault,
            }
        }
        Err(end) => ending_of(end),
    }
}

/// Takes the reports as `take_reports` does, and tells how the node is then, if that is due.
pub(crate) fn take_and_tell<
    W: Wait,
    B: Branch + Drop,
    K: Keeper + Drop,
    O: Sink,
    D: Board,
    R: Recorder,
>(
    rt: &W,
    store: &Store<B, K>,
    sink: &mut O,
    outlets: &mut Outlets<D, R>,
    now: Millis,
    pass: &mut Pass,
) -> Ending
    requires pass { IsOf store.now pass.old }
    requires moment { now ≤ greatest_millis }
    ensures pass { IsOf store.now pass.new }
    ensures takes { TakesReports (start_of store.now) (turns_of store.now)
        (known pass.old) (output (O.held sink.old) (O.faults sink.old)) result
        (known pass.new) (output (O.held sink.new) (O.faults sink.new)) }
    ensures told { (first : Option (TheBulletin D))
        → ToldIf D.show_gives (start_of store.now) first (known pass.old).seen outlets.old.bulletin
        → ToldIf D.show_gives (start_of store.now) first (known pass.new).seen outlets.new.bulletin }
    ensures recorded { Recorded R.records (retention_of store.now) (start_of store.now)
        (known pass.old) (known pass.new) outlets.old.recorder outlets.new.recorder }
{
    match &mut outlets.bulletin {
        Some(bulletin) => tell_too(rt, store, sink, bulletin, &mut outlets.recorder, now, pass),
        None => take_reports(rt, store, sink, &mut outlets.recorder, pass),
    }
}

/// The same on a bulletin. Without a turn nothing is told.
fn tell_too<W: Wait, B: Branch + Drop, K: Keeper + Drop, O: Sink, D: Board, R: Recorder>(
    rt: &W,
    store: &Store<B, K>,
    sink: &mut O,
    bulletin: &mut Bulletin<D>,
    recorder: &mut Option<R>,
    now: Millis,
    pass: &mut Pass,
) -> Ending
    requires pass { IsOf store.now pass.old }
    requires moment { now ≤ greatest_millis }
    ensures pass { IsOf store.now pass.new }
    ensures takes { TakesReports (start_of store.now) (turns_of store.now)
        (known pass.old) (output (O.held sink.old) (O.faults sink.old)) result
        (known pass.new) (output (O.held sink.new) (O.faults sink.new)) }
    ensures told { (first : TheBulletin D)
        → Told D.show_gives (start_of store.now) first (known pass.old).seen bulletin.old
        → Told D.show_gives (start_of store.now) first (known pass.new).seen bulletin.new }
    ensures recorded { Recorded R.records (retention_of store.now) (start_of store.now)
        (known pass.old) (known pass.new) recorder.old recorder.new }
{
    if !bulletin.is_due(now) {
        return take_reports(rt, store, sink, recorder, pass);
    }
    let mut room = [BLANK; ROOM];
    match store.reports_and_status(rt, pass, &mut room) {
        Ok((handed, status)) => {
            let Handed { count, batch } = handed;
            hand_on(recorder, batch);
            bulletin.tell(&status, now);
            match write_reports(sink, &room[..count]) {
                Ok(()) => Ending::Done,
                Err(_) => Ending::WriteFault,
            }
        }
        Err(end) => ending_of(end),
    }
}
