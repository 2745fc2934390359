// What a node is opened with, and what it is to do.
ghost use Rattle.std.specs.Prelude.{◌≡◌, ◌≤◌, IfOk, option_map};
ghost use Rattle.xl_base.specs.Moments.{greatest_millis};
ghost use Rattle.xl_settings.specs.Runnable.{AreRunnable};
ghost use Rattle.xl_validator.specs.Following.{retention_of};
ghost use Rattle.xl_validator.specs.ListsSet.{AreEverKeyed};
ghost use Rattle.xl_validator.specs.Openings.{opening_core, rolls_at, rolls_of, task_of, timing_of};
ghost use Rattle.xl_validator.specs.Preparing.{IsPlan, IsReady, task_in};

use crate::contacts::contacts_of;
use crate::keys::keys_of;
use crate::naming::nameable;
use std::alloc::Global;
use xl_base::{Bytes, Millis, NodeNo, OutOfMemory, Seq, TxIds};
use xl_board::FilePath;
use xl_core::Core;
use xl_heartbeat::{Pulse, RollsText, Timing};
use xl_settings::{Peers, Settings};
use xl_store::Retention;
use xl_trie::Trie;
use xl_workers::Plan;

/// Settings, and the moment of the opening, at which they were judged.
#[derive(Drop)]
pub(crate) struct Judged {
    pub settings: Settings,
    pub now: Millis,
}

/// A core at its opening, and what is run with it.
#[derive(Drop)]
pub(crate) struct Prepared {
    pub core: Core<Trie>,
    pub plan: Plan,
}

/// Opens the core of the settings at their moment, with the number that was kept. Its store keeps entries only if the
/// journal is to be written, behind the run or as it comes.
pub(crate) fn prepare(alloc: Global, judged: Judged, kept: Seq) -> Result<Prepared, OutOfMemory>
    requires runnable { AreRunnable judged.settings }
    requires moment { judged.now ≤ greatest_millis }
    ensures core { IfOk result (λ prepared. prepared.core ≡ opening_core judged.settings judged.now kept) }
    ensures task { IfOk result (λ prepared. task_in prepared.plan ≡ task_of judged.settings judged.now) }
    ensures ready { IfOk result IsReady }
    ensures keeps { IfOk result (λ prepared. prepared.plan.retention ≡ retention_of judged.settings) }
    ensures keyed { IfOk result (λ prepared.
        AreEverKeyed (rolls_of judged.settings) judged.settings.publishing prepared.core) }
{
    let Judged { settings, now } = judged;
    let timing = timing_of(&settings, now);
    let retention = retention_of(&settings);
    let Settings {
        me,
        list,
        validating,
        limit,
        turns,
        submit,
        peers,
        speak,
        publishing,
        rolls,
        submit_at,
        ..
    } = settings;
    let pulse = Pulse {
        timing,
        publishing,
        list: list.copy(),
        rolls: rolls_text_of(me, &peers, rolls),
    };
    let settings = xl_core::Settings {
        me,
        list,
        keys: keys_of(me, peers.as_slice()),
        limit,
        validating,
        speak,
    };
    let plan = plan_of(alloc, turns, retention, submit, peers, submit_at, pulse)?;
    match Core::open(alloc, settings, now, kept) {
        Ok(core) => Ok(Prepared { core, plan }),
        Err(_) => Err(OutOfMemory),
    }
}

/// When the beats of its run come.
fn timing_of(settings: &Settings, opened: Millis) -> Timing
    requires { AreRunnable settings.now }
    ensures { result ≡ timing_of settings.now opened }
{
    Timing {
        opened,
        every: settings.heartbeat_ms as u32,
        run: settings.run_ms,
    }
}

/// Which entries its store keeps.
fn retention_of(settings: &Settings) -> Retention
    ensures { result ≡ retention_of settings.now }
{
    match (settings.journal, &settings.journal_file) {
        (true, _) => Retention::Whole,
        (false, Some(_)) => Retention::Passing,
        (false, None) => Retention::Nothing,
    }
}

/// The text of rolls that is looked at, if one is named.
fn rolls_text_of(me: NodeNo, peers: &Peers, path: Option<FilePath>) -> Option<RollsText>
    ensures { result ≡ option_map (rolls_at me peers.now) path }
{
    match path {
        Some(path) => Some(RollsText {
            path,
            members: nameable(me, peers),
        }),
        None => None,
    }
}

/// What a node is to do.
fn plan_of(
    alloc: Global,
    turns: u64,
    retention: Retention,
    submit: TxIds,
    peers: Peers,
    door: Option<Bytes>,
    pulse: Pulse,
) -> Result<Plan, OutOfMemory>
    ensures plan { IfOk result (IsPlan turns submit peers door pulse) }
    ensures keeps { IfOk result (λ plan. plan.retention ≡ retention) }
{
    let submits = match Vec::from_slice(alloc, submit.as_slice()) {
        Ok(submits) => submits,
        Err(_) => return Err(OutOfMemory),
    };
    match contacts_of(alloc, peers.into_vec()) {
        Ok(contacts) => Ok(Plan {
            turns,
            retention,
            submits,
            contacts,
            door,
            pulse,
        }),
        Err(_) => Err(OutOfMemory),
    }
}
