// The journal that is written to a file as it comes.
ghost use Rattle.std.specs.Prelude.{◌≡◌, ◌≤◌, None, option_map};
ghost use Rattle.xl_base.specs.Moments.{greatest_millis};
ghost use Rattle.xl_settings.specs.Runnable.{AreRunnable};
ghost use Rattle.xl_validator.specs.Following.{Begins, BeginsAt, RecordsLeft, end_by, gives_way, or_ended, status_with, tagging_of};

use crate::recording::{Recording, head_of};
use std::alloc::Global;
use xl_audit::Tagging;
use xl_base::{Millis, Seq, Status};
use xl_io::Sink;
use xl_recorder::{FileRecorder, RecordEnd};
use xl_settings::Settings;
use xl_store::{Batch, Entries, Recorder};

/// Begins the journal in its file, if there is one.
pub(crate) fn recorder_of<S: Sink>(
    alloc: Global,
    settings: &Settings,
    now: Millis,
    kept: Seq,
    file: Option<S>,
) -> Option<FileRecorder<S>>
    requires runnable { AreRunnable settings.now }
    requires moment { now ≤ greatest_millis }
    ensures { Begins S.held S.faults settings.now now kept file result }
{
    match file {
        Some(sink) => Some(begin(alloc, settings, now, kept, sink)),
        None => None,
    }
}

fn begin<S: Sink>(
    alloc: Global,
    settings: &Settings,
    now: Millis,
    kept: Seq,
    sink: S,
) -> FileRecorder<S>
    requires runnable { AreRunnable settings.now }
    requires moment { now ≤ greatest_millis }
    ensures { BeginsAt S.held S.faults settings.now now kept sink result }
{
    let Recording {
        settings: core,
        now,
        kept,
        with_keys,
    } = head_of(settings, now, kept);
    FileRecorder::open(
        alloc,
        tagging_of(with_keys),
        core,
        now,
        kept,
        settings.journal_bytes,
        sink,
    )
}

fn tagging_of(with_keys: bool) -> Tagging
    ensures { result ≡ tagging_of with_keys }
{
    if with_keys {
        Tagging::Tagged
    } else {
        Tagging::Untagged
    }
}

/// Hands what is left of a journal to the recorder, if there is one, and else its entries back.
pub(crate) fn record_left<R: Recorder>(
    recorder: &mut Option<R>,
    left: Option<Batch>,
) -> Option<Entries>
    ensures recorded { RecordsLeft R.records left recorder.old recorder.new }
    ensures entries { recorder.old ≡ None → result ≡ option_map (λ batch. batch.entries) left }
{
    let Some(batch) = left else {
        return None;
    };
    match recorder {
        Some(recorder) => {
            recorder.record(batch);
            None
        }
        None => Some(batch.entries),
    }
}

/// The status of a command whose run ended so, by how its recorder did.
pub(crate) fn status_with<S: Sink>(recorder: &Option<FileRecorder<S>>, ended: Status) -> Status
    ensures { result ≡ status_with (end_by recorder.now) ended }
{
    match recorder {
        Some(recorder) => status_after(recorder.end(), ended),
        None => ended,
    }
}

fn status_after(why: Option<RecordEnd>, ended: Status) -> Status
    ensures { result ≡ status_with why ended }
{
    match why {
        Some(RecordEnd::Write) => or_ended(Status::WriteFault, ended),
        Some(RecordEnd::Memory) => or_ended(Status::OutOfMemory, ended),
        _ => ended,
    }
}

/// The fault, where the run met none.
fn or_ended(fault: Status, ended: Status) -> Status
    ensures { result ≡ or_ended fault ended }
{
    if gives_way(ended) { fault } else { ended }
}

/// Whether a run that ended so met no fault that its status has to name.
fn gives_way(ended: Status) -> bool
    ensures { result ≡ gives_way ended }
{
    matches!(ended, Status::Done | Status::NetFault | Status::StoreFull)
}
