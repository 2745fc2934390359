ghost use Rattle.std.specs.Prelude.{◌≡◌, ◌≢◌, ◌≤◌, ◌⊎◌, Some, None, false, IfSome, MatchResult};
ghost use Rattle.std.specs.declared.option.Option.{Option};
ghost use Rattle.xl_base.specs.declared.status.Status.{Status as TheStatus};
ghost use Rattle.xl_base.specs.Faults.{Rose};
ghost use Rattle.xl_base.specs.Moments.{greatest_millis};
ghost use Rattle.xl_heartbeat.specs.declared.bulletin.Bulletin.{Bulletin as TheBulletin};
ghost use Rattle.xl_settings.specs.Lines.{refusal_line};
ghost use Rattle.xl_settings.specs.Runnable.{AreRunnable};
ghost use Rattle.xl_status.specs.Texts.{end_at};
ghost use Rattle.xl_workers.specs.Linking.{hub_seen};
ghost use Rattle.xl_workers.specs.Runs.{status_of_end};
ghost use Rattle.xl_validator.specs.Ends.{AreSubmits, CompletesAt, EndsByTime, EndsFull, HasBeats, HasRunSo, IsQuiet};
ghost use Rattle.xl_validator.specs.Following.{EndsWith, Follows, HasFailed, IsFile, Writes, end_by, status_with};
ghost use Rattle.xl_validator.specs.Recordings.{is_written};
ghost use Rattle.xl_validator.specs.Tellings.{IsPathRefused, Tells, TellsOfEnd, TellsSo, unmade_of};
ghost use Rattle.xl_validator.specs.Validators.{HasRecorded, HasRun, IsRefused, Judges, between};
ghost use Rattle.xl_validator.specs.Validators.{IsKnown, IsOfNode, IsUnopened};

use crate::ended::Ended;
use crate::following::{record_left, recorder_of};
use crate::preparing::{Judged, Prepared, prepare};
use crate::reaching::{Reached, Unreached, reach_all};
use crate::recording::{recorded, recording_of};
use crate::run::{Run, unmade_of};
use crate::started::{Started, finish};
use crate::telling::status_left;
use std::fs::Files;
use std::sync::Wait;
use std::thread::Threads;
use xl_base::Status;
use xl_board::{Board, Boards};
use xl_heartbeat::Outlets;
use xl_io::{Keeper, Sink, Source};
use xl_links::{Clock, Gate, Hub};
use xl_peers::Host;
use xl_settings::{SettingsFault, SettingsRefusal, settings_from, write_refusal};
use xl_store::{Batch, Closed, Spared};
use xl_trie::Trie;
use xl_workers::{Ran, node};

/// Tells why settings are refused.
fn refuse<O: Sink>(output: &mut O, refusal: &SettingsRefusal) -> Status
    ensures refused { IsRefused (refusal_line refusal.now) result (O.held output.old) (O.held output.new) }
    ensures told { (result ≡ Status.InputRefused) ⊎ (result ≡ Status.WriteFault) }
    ensures write { result ≡ Status.WriteFault → Rose (O.faults output.old) (O.faults output.new) }
    ensures later { O.faults output.old ≤ O.faults output.new }
{
    match write_refusal(output, refusal) {
        Ok(()) => Status::InputRefused,
        Err(_) => Status::WriteFault,
    }
}

/// What a run leaves, without its core, and what is left of the entries that it kept. If there was no memory for the run's
/// store, that is the keeper alone.
fn left_by<K: Drop>(ran: Result<Ran<Trie, K>, Spared<Trie, K>>) -> (Run<K>, Option<Batch>)
    ensures status { MatchResult ran (λ r. result.0.status ≡ status_of_end r.end)
        (λ _. result.0.status ≡ Status.OutOfMemory) }
    ensures unmade { MatchResult ran (λ r. result.0.unmade ≡ unmade_of r.end) (λ _. result.0.unmade ≡ None) }
    ensures keeper { MatchResult ran (λ r. result.0.keeper ≡ r.closed.keeper) (λ s. result.0.keeper ≡ s.keeper) }
    ensures journal { MatchResult ran (λ r. result.0.journal ≡ Some r.closed.journal) (λ _. result.0.journal ≡ None) }
    ensures left { MatchResult ran (λ r. result.1 ≡ r.closed.left) (λ _. result.1 ≡ None) }
{
    match ran {
        Ok(ran) => {
            let Ran { end, closed } = ran;
            let Closed {
                core: _,
                keeper,
                journal,
                left,
            } = closed;
            let unmade = unmade_of(&end);
            let ended = Run {
                status: end.status(),
                unmade,
                keeper,
                journal: Some(journal),
            };
            (ended, left)
        }
        Err(spared) => {
            let Spared { core: _, keeper } = spared;
            (Run::unopened(Status::OutOfMemory, keeper), None)
        }
    }
}

/// Opens a node by its settings, at the moment at which they were judged, and runs it. How it ended isn't told yet.
fn start<
    W: Threads + Wait + Files + Sync,
    O: Sink + Send,
    K: Keeper + Drop + Send,
    H: Hub,
    G: Gate + Sync,
    C: Clock + Sync,
    D: Board + Drop + Send,
    J: Sink + Drop + Send,
>(
    host: &Host<'_, W, G, C>,
    judged: Judged,
    output: &mut O,
    keeper: K,
    hub: &mut H,
    reached: Reached<D, J>,
) -> Started<K, D, J>
    requires runnable { AreRunnable judged.settings }
    requires moment { judged.now ≤ greatest_millis }
    requires file { IsFile J.held judged.settings.journal_file reached.file }
    ensures ran { IfSome result.run.journal (λ history. (is_written judged.settings.journal result.run.status ≡ false)
        × HasRun K.held K.saves K.faults K.load_gives K.save_gives
        judged.settings judged.now (C.may_give host.now.clock.now) (H.gives hub.old)
        (between (hub_seen (H.faults hub.old) (H.asked hub.old)) (hub_seen (H.faults hub.new) (H.asked hub.new))
        (O.held output.old) (O.faults output.old) (O.held output.new) (O.faults output.new))
        keeper result.run.keeper result.run.status history) }
    ensures unopened { result.run.journal ≡ None
        → (IsUnopened result.run.status × (K.saves result.run.keeper ≡ K.saves keeper)
        × (hub_seen (H.faults hub.new) (H.asked hub.new) ≡ hub_seen (H.faults hub.old) (H.asked hub.old))
        × (output.new ≡ output.old))
        ⊎ HasRecorded K.held K.saves K.faults K.load_gives K.save_gives
        judged.settings judged.now (C.may_give host.now.clock.now) (H.gives hub.old)
        (between (hub_seen (H.faults hub.old) (H.asked hub.old)) (hub_seen (H.faults hub.new) (H.asked hub.new))
        (O.held output.old) (O.faults output.old) (O.held output.new) (O.faults output.new))
        keeper result.run.keeper result.run.status }
    ensures known { IsOfNode result.run.status }
    ensures write { result.run.status ≡ Status.WriteFault → Rose (O.faults output.old) (O.faults output.new) }
    ensures keeper { result.run.status ≡ Status.KeepFault → Rose (K.faults keeper) (K.faults result.run.keeper) }
    ensures net { result.run.status ≡ Status.NetFault → Rose (H.faults hub.old) (H.faults hub.new) }
    ensures told { (end : TheStatus) (last : Option (TheBulletin D))
        → end ≡ status_with (end_by result.outlets.recorder) result.run.status
        → TellsOfEnd D.show_gives result.last (end_at end result.run.unmade) result.outlets.bulletin last
        → TellsSo D.show_gives (hub_seen (H.faults hub.old) (H.asked hub.old)) (hub_seen (H.faults hub.new) (H.asked hub.new))
        judged.settings judged.now result.run.journal end reached.bulletin last }
    ensures follows { Follows J.held J.faults judged.settings judged.now
        result.run.journal reached.file result.outlets.recorder }
{
    let Reached { bulletin, file } = reached;
    let mut keeper = keeper;
    let Ok(kept) = keeper.load() else {
        return Started {
            run: Run::unopened(Status::KeepFault, keeper),
            last: None,
            outlets: Outlets {
                bulletin,
                recorder: None,
            },
        };
    };
    let recording = recording_of(&judged.settings, judged.now, kept);
    let recorder = recorder_of(host.alloc, &judged.settings, judged.now, kept, file);
    let mut outlets = Outlets { bulletin, recorder };
    match prepare(host.alloc, judged, kept) {
        Ok(Prepared { core, plan }) => {
            let ran = node(host, core, keeper, plan, hub, output, &mut outlets);
            let last = status_left(&ran);
            let (left, rest) = left_by(ran);
            let entries = record_left(&mut outlets.recorder, rest);
            let run = recorded(host.alloc, recording, left, entries, output);
            Started { run, last, outlets }
        }
        Err(_) => Started {
            run: Run::unopened(Status::OutOfMemory, keeper),
            last: None,
            outlets,
        },
    }
}

/// Runs a validator by the settings that the input holds.
///
/// It asks the clock for the moment of the opening, reads the settings as they are at that moment, loads the kept number
/// and opens the core at it. It submits the ids, opens a link to each peer, and serves all peers beside the heartbeat
/// until the run is over. The keeper comes back, and so does the journal of the node's store, which only contracts see,
/// if one was opened.
///
/// If the settings name a board, it is opened before anything else is done, and the node tells there each ten seconds how
/// it is, and at its end how that came. A board that can't be opened refuses the settings with the line of its key.
///
/// If they name a file for the journal, that is opened behind the board, and refuses them as well if it can't be. The
/// journal is written there as it comes, and at the end what is left of it, whatever the status is. A fault of that
/// writing ends no run: at the end it gives the status of a run that met no other, `WriteFault` or `OutOfMemory`.
///
/// If the settings ask for it, the journal of a run that ended by its time, or since its store had no turn left, isn't
/// handed back: it is written behind the reports. A write that fails there ends the command with `WriteFault`, and
/// memory that runs out with `OutOfMemory`.
///
/// Refused settings end it with `InputRefused` and the one line that names the key.
pub fn validator<
    W: Threads + Wait + Files + Sync,
    I: Source,
    O: Sink + Send,
    K: Keeper + Drop + Send,
    H: Hub,
    G: Gate + Sync,
    C: Clock + Sync,
    P: Boards,
>(
    host: &Host<'_, W, G, C>,
    input: &mut I,
    output: &mut O,
    keeper: K,
    hub: &mut H,
    boards: &mut P,
) -> Ended<K, P::D, P::J>
    // Settings are judged at one moment that the clock may give. If they are refused no store is opened, keeper and hub
    // are asked nothing, and of their line a front is written. Others run a node that is opened at that moment, or nothing
    // is written, and no save and no link is asked. The journal of the node is handed back, or written behind what the
    // node wrote. The status is the one of that, if no recorder met a fault.
    ensures judged { EndsWith (λ ended. Judges K.held K.saves K.faults K.load_gives K.save_gives
        (I.left input.old) (C.may_give host.now.clock.now) (H.gives hub.old)
        (between (hub_seen (H.faults hub.old) (H.asked hub.old)) (hub_seen (H.faults hub.new) (H.asked hub.new))
        (O.held output.old) (O.faults output.old) (O.held output.new) (O.faults output.new))
        output.old output.new keeper result.keeper ended result.journal
        ⊎ IsPathRefused (I.left input.old) (C.may_give host.now.clock.now)
        (Rose (P.faults boards.old) (P.faults boards.new))
        ((result.keeper ≡ keeper) × (hub.new ≡ hub.old))
        result.journal ended (O.held output.old) (O.held output.new)) result.recorder result.status }
    // What stands in the file that the settings name: the text of the history of the node's store, or, if the recorder has
    // ended, a front of it. Without one nothing is opened.
    ensures recorded { Writes P.J.Sink.held P.J.Sink.faults
        (I.left input.old) (C.may_give host.now.clock.now) result.journal result.recorder }
    // What was told on the board that the settings name: how the core was at places of the history, as it was due, and at
    // the end how that came, and what the hub couldn't make if that is why. Without one nothing is opened.
    ensures told { Tells P.D.Board.show_gives P.D.Board.stands (P.stands boards.old)
        (Rose (P.faults boards.old) (P.faults boards.new)) (boards.new ≡ boards.old)
        (hub_seen (H.faults hub.old) (H.asked hub.old)) (hub_seen (H.faults hub.new) (H.asked hub.new))
        (I.left input.old) (C.may_give host.now.clock.now) result.journal result.status result.bulletin }
    // Each status has its cause. An end by time, a failed network and a spent store are those of a node that ran.
    ensures known { IsKnown result.status }
    ensures read { result.status ≡ Status.ReadFault → Rose (I.faults input.old) (I.faults input.new) }
    ensures write { result.status ≡ Status.WriteFault
        → Rose (O.faults output.old) (O.faults output.new) ⊎ HasFailed result.recorder }
    ensures keeper { result.status ≡ Status.KeepFault → Rose (K.faults keeper) (K.faults result.keeper) }
    ensures net { result.status ≡ Status.NetFault → Rose (H.faults hub.old) (H.faults hub.new) }
    // A run ends by time only if it has an end, which its last timer reached.
    ensures done { result.status ≡ Status.Done
        → HasRunSo EndsByTime (I.left input.old) (C.may_give host.now.clock.now) result.journal }
    // A store has no turn left only if the history has as many entries as the settings allow.
    ensures full { result.status ≡ Status.StoreFull
        → HasRunSo EndsFull (I.left input.old) (C.may_give host.now.clock.now) result.journal }
    // If the hub failed, all ids were submitted, and nothing else happened.
    ensures submits { result.status ≡ Status.NetFault
        → HasRunSo (AreSubmits (C.may_give host.now.clock.now)) (I.left input.old) (C.may_give host.now.clock.now)
        result.journal }
    // Its timers are those of whole beats, of which only the last may be cut short.
    ensures beats { IfSome result.journal (λ _.
        HasRunSo HasBeats (I.left input.old) (C.may_give host.now.clock.now) result.journal) }
    // If nothing fails and turns are left, refused settings end it so, and others by time, unless memory runs out.
    ensures complete { IsQuiet (I.faults input.old) (I.faults input.new)
        → IsQuiet (O.faults output.old) (O.faults output.new) → IsQuiet (K.faults keeper) (K.faults result.keeper)
        → IsQuiet (H.faults hub.old) (H.faults hub.new) → IsQuiet (P.faults boards.old) (P.faults boards.new)
        → (HasFailed result.recorder → ⊥)
        → result.status ≢ Status.StoreFull
        → CompletesAt (I.left input.old) (C.may_give host.now.clock.now) result.status }
{
    let now = host.clock.now();
    match settings_from(host.alloc, input, now) {
        Err(SettingsFault::Refused(refusal)) => {
            Ended::unopened(refuse(output, &refusal), keeper)
        }
        Err(SettingsFault::Read) => Ended::unopened(Status::ReadFault, keeper),
        Err(SettingsFault::OutOfMemory) => Ended::unopened(Status::OutOfMemory, keeper),
        Ok(settings) => match reach_all(host.alloc, boards, &settings, now) {
            Ok(reached) => {
                let judged = Judged { settings, now };
                finish(start(host, judged, output, keeper, hub, reached))
            }
            Err(Unreached::Refused(name)) => {
                let refusal = SettingsRefusal::Known(name);
                Ended::unopened(refuse(output, &refusal), keeper)
            }
            Err(Unreached::OutOfMemory) => Ended::unopened(Status::OutOfMemory, keeper),
        },
    }
}
