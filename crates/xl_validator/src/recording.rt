// The journal that is written behind a run.
ghost use Rattle.std.specs.Prelude.{◌≡◌, ◌≤◌, None, Some, true, false, length, IsErrOf, IsSome, IfSome, OnOk, is_some};
ghost use Rattle.std.specs.Io.KnownBytes.{append_known};
ghost use Rattle.xl_base.specs.Moments.{greatest_millis};
ghost use Rattle.xl_io.specs.Sinks.{GrewByFront, GrewByLess};
ghost use Rattle.xl_lines.specs.Causes.{HasCause};
ghost use Rattle.xl_ledger.specs.Limits.{greatest_limit, least_limit};
ghost use Rattle.xl_turns.specs.Histories.{IsLegal};
ghost use Rattle.xl_core.specs.Rest.{IsKeyed};
ghost use Rattle.xl_store.specs.Entries.{Leads};
ghost use Rattle.xl_heartbeat.specs.Outputs.{output};
ghost use Rattle.xl_audit.specs.Journals.{start_of};
ghost use Rattle.xl_audit.specs.Rereading.{SaysYes};
ghost use Rattle.xl_settings.specs.Limits.{greatest_speak, usual_speak};
ghost use Rattle.xl_settings.specs.Runnable.{AreRunnable};
ghost use Rattle.xl_validator.specs.Openings.{core_settings};
ghost use Rattle.xl_validator.specs.Recordings.{IsWritten, is_over, is_written, text_by};
ghost use Rattle.xl_validator.specs.Validators.{IsUnopened};

use crate::keys::keys_of;
use crate::run::Run;
use std::alloc::Global;
use xl_audit::{write_journal, write_untagged_journal};
use xl_base::{Millis, Seq, Status};
use xl_io::Sink;
use xl_lines::Fault;
use xl_settings::Settings;
use xl_store::Entries;

/// What a written journal begins with: the settings of the core, the moment of its opening, and the number that was
/// kept; and whether it has keys and tags.
#[derive(Drop)]
pub(crate) struct Recording {
    pub settings: xl_core::Settings,
    pub now: Millis,
    pub kept: Seq,
    pub with_keys: bool,
    ghost keyed: { IsKeyed settings.me settings.list.members settings.keys },
    ghost limited: { (least_limit ≤ settings.limit) × (settings.limit ≤ greatest_limit) },
    ghost spoken: { (usual_speak ≤ settings.speak) × (settings.speak ≤ greatest_speak) },
    ghost timely: { now ≤ greatest_millis },
}

/// What a journal of these settings begins with.
pub(crate) fn head_of(settings: &Settings, now: Millis, kept: Seq) -> Recording
    requires runnable { AreRunnable settings.now }
    requires moment { now ≤ greatest_millis }
    ensures settings { result.settings ≡ core_settings settings.now }
    ensures now { result.now ≡ now }
    ensures kept { result.kept ≡ kept }
    ensures with_keys { result.with_keys ≡ settings.now.journal_keys }
{
    Recording {
        settings: xl_core::Settings {
            me: settings.me,
            list: settings.list.copy(),
            keys: keys_of(settings.me, settings.peers.as_slice()),
            limit: settings.limit,
            validating: settings.validating,
            speak: settings.speak,
        },
        now,
        kept,
        with_keys: settings.journal_keys,
    }
}

/// What the journal of a run begins with, if the settings ask for it to be written behind the run.
pub(crate) fn recording_of(settings: &Settings, now: Millis, kept: Seq) -> Option<Recording>
    requires runnable { AreRunnable settings.now }
    requires moment { now ≤ greatest_millis }
    ensures asked { is_some result ≡ settings.now.journal }
    ensures settings { IfSome result (λ recording. recording.settings ≡ core_settings settings.now) }
    ensures now { IfSome result (λ recording. recording.now ≡ now) }
    ensures kept { IfSome result (λ recording. recording.kept ≡ kept) }
    ensures with_keys { IfSome result (λ recording. recording.with_keys ≡ settings.now.journal_keys) }
{
    if !settings.journal {
        return None;
    }
    Some(head_of(settings, now, kept))
}

/// Whether a run ended by its time, or since all turns of its store were drawn.
pub(crate) fn is_over(ended: Status) -> bool
    ensures { result ≡ is_over ended }
{
    matches!(ended, Status::Done | Status::StoreFull)
}

/// Writes a journal, with keys and tags or without.
fn write_text<O: Sink>(
    alloc: Global,
    recording: Recording,
    journal: Entries,
    sink: &mut O,
) -> Result<(), Fault>
    requires legal { IsLegal Leads (start_of recording.settings recording.now recording.kept) journal }
    ensures whole { OnOk result (O.held sink.new ≡ append_known (O.held sink.old)
        (text_by recording.with_keys recording.settings recording.now recording.kept journal)) }
    ensures front { GrewByFront (O.held sink.old) (O.held sink.new)
        (text_by recording.with_keys recording.settings recording.now recording.kept journal) }
    ensures less { IsErrOf result Fault.Write → GrewByLess (O.held sink.old) (O.held sink.new)
        (text_by recording.with_keys recording.settings recording.now recording.kept journal) }
    ensures cause { HasCause (O.faults sink.old) (O.faults sink.new) result }
    ensures yes { OnOk result (recording.with_keys ≡ true → SaysYes
        (text_by recording.with_keys recording.settings recording.now recording.kept journal) (length journal)) }
{
    let Recording {
        settings,
        now,
        kept,
        with_keys,
    } = recording;
    if with_keys {
        write_journal(alloc, settings, now, kept, journal, sink)
    } else {
        write_untagged_journal(alloc, settings, now, kept, journal, sink)
    }
}

/// Writes the journal of a run that is over, and answers the status that the command then has.
pub(crate) fn write_behind<O: Sink>(
    alloc: Global,
    recording: Recording,
    journal: Entries,
    ended: Status,
    sink: &mut O,
) -> Status
    requires over { is_over ended ≡ true }
    requires legal { IsLegal Leads (start_of recording.settings recording.now recording.kept) journal }
    ensures written { IsWritten (text_by recording.with_keys recording.settings recording.now recording.kept journal)
        ended result
        (output (O.held sink.old) (O.faults sink.old)) (output (O.held sink.new) (O.faults sink.new)) }
    ensures yes { recording.with_keys ≡ true → is_over result ≡ true → SaysYes
        (text_by recording.with_keys recording.settings recording.now recording.kept journal) (length journal) }
{
    match write_text(alloc, recording, journal, sink) {
        Ok(()) => ended,
        Err(Fault::Write) => Status::WriteFault,
        Err(_) => Status::OutOfMemory,
    }
}

/// Writes the journal of a run that is over behind what the run wrote, if that is asked. All its entries were kept then.
pub(crate) fn recorded<O: Sink, K: Drop>(
    alloc: Global,
    recording: Option<Recording>,
    ended: Run<K>,
    entries: Option<Entries>,
    sink: &mut O,
) -> Run<K>
    requires legal { IfSome recording (λ r. IfSome ended.journal (λ history.
        IsLegal Leads (start_of r.settings r.now r.kept) history)) }
    requires opened { ended.journal ≡ None → IsUnopened ended.status }
    requires kept { is_some recording ≡ true → entries ≡ ended.journal }
    ensures keeper { result.keeper ≡ ended.keeper }
    ensures unmade { result.unmade ≡ ended.unmade }
    ensures left { is_written (is_some recording) ended.status ≡ false
        → (result.status ≡ ended.status) × (result.journal ≡ ended.journal) × (sink.new ≡ sink.old) }
    ensures none { is_written (is_some recording) ended.status ≡ true → result.journal ≡ None }
    ensures some { is_written (is_some recording) ended.status ≡ true → IsSome ended.journal }
    ensures written { is_written (is_some recording) ended.status ≡ true
        → IfSome recording (λ r. IfSome ended.journal (λ history.
        IsWritten (text_by r.with_keys r.settings r.now r.kept history) ended.status result.status
        (output (O.held sink.old) (O.faults sink.old)) (output (O.held sink.new) (O.faults sink.new)))) }
    ensures yes { is_written (is_some recording) ended.status ≡ true → is_over result.status ≡ true
        → IfSome recording (λ r. IfSome ended.journal (λ history. r.with_keys ≡ true
        → SaysYes (text_by r.with_keys r.settings r.now r.kept history) (length history))) }
{
    let Some(recording) = recording else {
        return ended;
    };
    if !is_over(ended.status) {
        return ended;
    }
    let Run {
        status,
        unmade,
        keeper,
        journal: _,
    } = ended;
    let Some(entries) = entries else {
        unreachable!()
    };
    Run {
        status: write_behind(alloc, recording, entries, status, sink),
        unmade,
        keeper,
        journal: None,
    }
}
