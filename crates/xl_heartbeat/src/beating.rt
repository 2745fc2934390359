ghost use Rattle.std.specs.declared.option.Option.{Option};
ghost use Rattle.xl_turns.specs.declared.view.Knowledge.{Knowledge};
ghost use Rattle.xl_turns.specs.Passes.{known};
ghost use Rattle.xl_store.specs.declared.entry.Entry.{Entry};
ghost use Rattle.xl_store.specs.Stores.{start_of, turns_of, retention_of, IsOf};
ghost use Rattle.xl_heartbeat.specs.Outputs.{Output, output};
ghost use Rattle.xl_heartbeat.specs.declared.bulletin.Bulletin.{Bulletin as TheBulletin};
ghost use Rattle.xl_heartbeat.specs.Bulletins.{ToldIf};
ghost use Rattle.xl_heartbeat.specs.Recording.{Recorded};
ghost use Rattle.xl_heartbeat.specs.Beats.{Heartbeat};
ghost use Rattle.xl_heartbeat.specs.Beats.Phase.{Beats};
ghost use Rattle.xl_heartbeat.specs.Going.{Beating, Follows, Stops};

use crate::Outlets;
use crate::bulletin::note_look;
use crate::ends::{BeatEnd, Ending, Stopping, after_reports, ending_of};
use crate::looking::look_at;
use crate::pulse::Pulse;
use crate::relisting::relist_at;
use crate::reporting::take_and_tell;
use crate::standing::Standing;
use std::fs::Files;
use std::sync::Wait;
use xl_board::Board;
use xl_io::{Keeper, Sink};
use xl_ledger::Branch;
use xl_links::Clock;
use xl_store::{Pass, Recorder, Store, StoreEnd};

/// How long to wait before the store is told again that the node is to stop, in milliseconds.
const PAUSE: u32 = 1000;

/// What a heartbeat leaves.
#[derive(Drop)]
pub struct BeatLeft<D, R> {
    pub end: BeatEnd,
    pub outlets: Outlets<D, R>,
}

/// What goes along with the beats: the list that was set last and what makes the next one, and the outlets.
#[derive(Drop)]
struct Progress<D, R> {
    standing: Standing,
    outlets: Outlets<D, R>,
}

/// Beats until the time of the run is over, and then tells the store that the node is to stop.
///
/// Each beat waits and takes the clock's moment. It looks at the text of rolls, if there is one and that is due, and
/// takes the rolls of it that aren't refused. It sets the publishers' list of that second, if it is another than the one
/// last set, tells the store the moment, takes the reports and writes a line for each. The first beat at whose moment
/// the time is over is the last. A write's fault, memory that runs out and a full store end the beats too. The store is
/// told to stop whatever ended them, and again a second later if memory ran out; if it is full it isn't told.
///
/// On the bulletin, if there is one, it tells each ten seconds how the node is. That takes no turn more: the core is
/// looked at in the turn in which reports are taken. In that turn a store may hand on entries of its journal: the
/// recorder, if there is one, has them before the lines of the reports are written.
pub fn beat<
    W: Wait + Files,
    B: Branch + Drop,
    K: Keeper + Drop,
    O: Sink,
    C: Clock,
    D: Board + Drop,
    R: Recorder + Drop,
>(
    rt: &W,
    store: &Store<B, K>,
    clock: &C,
    sink: &mut O,
    pulse: &Pulse,
    outlets: Outlets<D, R>,
    pass: &mut Pass,
) -> BeatLeft<D, R>
    requires pass { IsOf store.now pass.old }
    ensures pass { IsOf store.now pass.new }
    ensures heartbeat { Heartbeat (start_of store.now) (turns_of store.now) (C.may_give clock.now) pulse.now
        (known pass.old) (output (O.held sink.old) (O.faults sink.old)) result.end
        (known pass.new) (output (O.held sink.new) (O.faults sink.new)) }
    // What the board was handed is the texts of how the core was, at places of the history, and nothing else.
    ensures told { ToldIf D.show_gives (start_of store.now) outlets.bulletin (known pass.new).seen result.outlets.bulletin }
    // What the recorder was handed is what the entries of these calls hand on, and nothing else.
    ensures recorded { Recorded R.records (retention_of store.now) (start_of store.now)
        (known pass.old) (known pass.new) outlets.recorder result.outlets.recorder }
{
    let mut progress = Progress {
        standing: Standing::of(pulse),
        outlets,
    };
    for _ in rt.forever() {
        if let Some(run) = beat_once(rt, store, clock, sink, pulse, &mut progress, pass) {
            let stop = tell_to_stop(rt, store, clock, pass);
            let Progress {
                standing: _,
                outlets,
            } = progress;
            return BeatLeft {
                end: BeatEnd { run, stop },
                outlets,
            };
        }
    }
    unreachable!()
}

/// One beat, and why it was the last, if it was. The text of rolls is looked at before the publishers' list is set, and
/// that is set before the timer, which counts by it.
fn beat_once<
    W: Wait + Files,
    B: Branch + Drop,
    K: Keeper + Drop,
    O: Sink,
    C: Clock,
    D: Board + Drop,
    R: Recorder + Drop,
>(
    rt: &W,
    store: &Store<B, K>,
    clock: &C,
    sink: &mut O,
    pulse: &Pulse,
    progress: &mut Progress<D, R>,
    pass: &mut Pass,
) -> Option<Ending>
    requires pass { IsOf store.now pass.old }
    ensures pass { IsOf store.now pass.new }
    ensures follows { (k : Knowledge Entry) (o : Output)
        → Beating (start_of store.now) (C.may_give clock.now) pulse.now k o (Beats progress.old.standing)
        (known pass.old) (output (O.held sink.old) (O.faults sink.old))
        → Follows (start_of store.now) (turns_of store.now) (C.may_give clock.now) pulse.now k o
        progress.new.standing result (known pass.new) (output (O.held sink.new) (O.faults sink.new)) }
    ensures told { (first : Option (TheBulletin D))
        → ToldIf D.show_gives (start_of store.now) first (known pass.old).seen progress.old.outlets.bulletin
        → ToldIf D.show_gives (start_of store.now) first (known pass.new).seen progress.new.outlets.bulletin }
    ensures recorded { Recorded R.records (retention_of store.now) (start_of store.now)
        (known pass.old) (known pass.new) progress.old.outlets.recorder progress.new.outlets.recorder }
{
    clock.wait(pulse.timing.every);
    let now = clock.now();
    let look = look_at(rt, &pulse.rolls, &mut progress.standing, now);
    note_look(&mut progress.outlets.bulletin, look);
    match relist_at(rt, store, &mut progress.standing, now, pass) {
        Ok(()) => {}
        Err(end) => return Some(ending_of(end)),
    }
    match store.timer(rt, pass, now) {
        Ok(_) => {}
        Err(end) => return Some(ending_of(end)),
    }
    let taken = take_and_tell(rt, store, sink, &mut progress.outlets, now, pass);
    after_reports(taken, pulse.timing.is_over(now))
}

/// Tells the store that the node is to stop, again while there is no memory.
fn tell_to_stop<W: Wait, B: Branch + Drop, K: Keeper + Drop, C: Clock>(
    rt: &W,
    store: &Store<B, K>,
    clock: &C,
    pass: &mut Pass,
) -> Stopping
    requires pass { IsOf store.now pass.old }
    ensures pass { IsOf store.now pass.new }
    ensures stops { Stops (start_of store.now) (turns_of store.now) (known pass.old) result (known pass.new) }
{
    for _ in rt.forever() {
        match store.stop(rt, pass) {
            Ok(()) => return Stopping::Done,
            Err(StoreEnd::OutOfMemory) => clock.wait(PAUSE),
            Err(StoreEnd::StoreFull(limit)) => return Stopping::StoreFull(limit),
        }
    }
    unreachable!()
}
