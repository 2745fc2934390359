ghost use Rattle.std.specs.Prelude.{◌≡◌, ◌≢◌, ◌≤◌, [], length, Err, MatchResult, OnOk, ⊤};
ghost use Rattle.xl_base.specs.Moments.{greatest_millis};
ghost use Rattle.xl_ledger.specs.Limits.{greatest_limit, least_limit};
ghost use Rattle.xl_turns.specs.Histories.{IsLegal};
ghost use Rattle.xl_core.specs.Rest.{IsKeyed};
ghost use Rattle.xl_store.specs.Entries.{Leads};
ghost use Rattle.xl_audit.specs.Journals.{head_text_as, start_of};
ghost use Rattle.xl_audit.specs.Lines.{MayStand, behind, behind_all, line_at, lines_with, text_from};
ghost use Rattle.xl_recorder.specs.Parts.{HasStopped, HasWritten, part};
ghost use Rattle.xl_recorder.specs.Recorders.{HasRecorded, Takes, end_of, seen, settled};

use crate::RecordEnd;
use crate::room::{MOST_ENTRIES, Room, write_text};
use std::alloc::Global;
use xl_audit::{JournalLines, Tagging, journal_head};
use xl_base::{Millis, Seq};
use xl_core::Settings;
use xl_io::Sink;
use xl_store::{Batch, Entries, Entry};

/// Whether a recorder goes on.
#[derive(Drop)]
pub(crate) enum Stage {
    Goes(JournalLines),
    Ended(RecordEnd),
}

/// Writes the text of a journal as it comes. It stops for good if it can't go on.
#[derive(Drop)]
pub struct FileRecorder<S> {
    stage: Stage,
    room: Room,
    sink: S,
}

/// Writes what stands before the entries, and opens the core that steps along.
fn begin<S: Sink>(
    alloc: Global,
    tagging: Tagging,
    settings: Settings,
    now: Millis,
    kept: Seq,
    room: &mut Room,
    sink: &mut S,
) -> Result<JournalLines, RecordEnd>
    requires keyed { IsKeyed settings.me settings.list.members settings.keys }
    requires least { least_limit ≤ settings.limit }
    requires most { settings.limit ≤ greatest_limit }
    requires moment { now ≤ greatest_millis }
    ensures { MatchResult result
        (λ lines. (lines ≡ lines_with tagging (start_of settings now kept))
        × HasWritten (part room.old (S.held sink.old) (S.faults sink.old)) 0 (head_text_as tagging settings now kept)
        (part room.new (S.held sink.new) (S.faults sink.new)))
        (λ why. HasStopped (part room.old (S.held sink.old) (S.faults sink.old)) ⊤ 0
        (head_text_as tagging settings now kept) why (part room.new (S.held sink.new) (S.faults sink.new))) }
{
    let head = journal_head(alloc, tagging, &settings, now, kept)?;
    write_text(head.as_str(), room, sink)?;
    let lines = JournalLines::open(alloc, tagging, settings, now, kept)?;
    Ok(lines)
}

/// Whether a recorder goes on that began so.
fn stage_of(begun: Result<JournalLines, RecordEnd>) -> Stage
    ensures { MatchResult begun (λ lines. result ≡ Stage.Goes lines) (λ why. result ≡ Stage.Ended why) }
{
    match begun {
        Ok(lines) => Stage::Goes(lines),
        Err(why) => Stage::Ended(why),
    }
}

/// Writes the line of the next entry, if that may stand there.
fn write_line<S: Sink>(
    lines: &mut JournalLines,
    entry: &Entry,
    room: &mut Room,
    sink: &mut S,
) -> Result<(), RecordEnd>
    ensures behind { OnOk result (lines.new ≡ behind lines.old entry.now) }
    ensures written { MatchResult result
        (λ _. HasWritten (part room.old (S.held sink.old) (S.faults sink.old)) 1 (line_at lines.old entry.now)
        (part room.new (S.held sink.new) (S.faults sink.new)))
        (λ why. HasStopped (part room.old (S.held sink.old) (S.faults sink.old)) (MayStand lines.old.core entry.now) 1
        (line_at lines.old entry.now) why (part room.new (S.held sink.new) (S.faults sink.new))) }
{
    if room.entries >= MOST_ENTRIES {
        return Err(RecordEnd::Full);
    }
    let Some(text) = lines.next(entry)? else {
        return Err(RecordEnd::Apart);
    };
    write_text(text.as_str(), room, sink)?;
    room.entries += 1;
    Ok(())
}

/// Writes the lines of the entries.
fn write_lines<S: Sink>(
    lines: &mut JournalLines,
    entries: Entries,
    room: &mut Room,
    sink: &mut S,
) -> Result<(), RecordEnd>
    ensures behind { OnOk result (lines.new ≡ behind_all lines.old entries) }
    ensures written { MatchResult result
        (λ _. HasWritten (part room.old (S.held sink.old) (S.faults sink.old)) (length entries)
        (text_from lines.old entries) (part room.new (S.held sink.new) (S.faults sink.new)))
        (λ why. HasStopped (part room.old (S.held sink.old) (S.faults sink.old)) (IsLegal Leads lines.old.core entries)
        (length entries) (text_from lines.old entries) why (part room.new (S.held sink.new) (S.faults sink.new))) }
{
    let mut left = entries;
    while let Some(entry) = left.next() {
        write_line(lines, &entry, room, sink)?;
    }
    Ok(())
}

/// Writes the lines of a batch, if it stands behind the entries that were written.
fn write_batch<S: Sink>(
    lines: &mut JournalLines,
    batch: Batch,
    room: &mut Room,
    sink: &mut S,
) -> Result<(), RecordEnd>
    ensures apart { batch.first ≢ room.old.entries
        → (result ≡ Err RecordEnd.Apart) × (room.new ≡ room.old) × (sink.new ≡ sink.old) }
    ensures behind { batch.first ≡ room.old.entries → OnOk result (lines.new ≡ behind_all lines.old batch.entries) }
    ensures written { batch.first ≡ room.old.entries → MatchResult result
        (λ _. HasWritten (part room.old (S.held sink.old) (S.faults sink.old)) (length batch.entries)
        (text_from lines.old batch.entries) (part room.new (S.held sink.new) (S.faults sink.new)))
        (λ why. HasStopped (part room.old (S.held sink.old) (S.faults sink.old))
        (IsLegal Leads lines.old.core batch.entries) (length batch.entries) (text_from lines.old batch.entries) why
        (part room.new (S.held sink.new) (S.faults sink.new))) }
{
    if batch.first != room.entries {
        return Err(RecordEnd::Apart);
    }
    write_lines(lines, batch.entries, room, sink)
}

impl<S: Sink> FileRecorder<S> {
    /// Writes what stands before the entries of a journal, for a core that is opened with these settings, at a moment,
    /// and with the number that its keeper held. No more than so many bytes are ever written.
    pub fn open(
        alloc: Global,
        tagging: Tagging,
        settings: Settings,
        now: Millis,
        kept: Seq,
        bytes: u64,
        sink: S,
    ) -> FileRecorder<S>
        requires keyed { IsKeyed settings.me settings.list.members settings.keys }
        requires least { least_limit ≤ settings.limit }
        requires most { settings.limit ≤ greatest_limit }
        requires moment { now ≤ greatest_millis }
        ensures { HasRecorded (record {
          tagging = tagging;
          settings = settings;
          now = now;
          kept = kept;
          bytes = bytes;
          held = S.held sink;
          faults = S.faults sink;
        }) [] (seen S.held S.faults result) }
    {
        let mut sink = sink;
        let mut room = Room { entries: 0, bytes };
        let begun = begin(alloc, tagging, settings, now, kept, &mut room, &mut sink);
        let stage = stage_of(begun);
        FileRecorder { stage, room, sink }
    }

    /// Why it writes no more, if it doesn't.
    pub fn end(&self) -> Option<RecordEnd>
        ensures { result ≡ end_of self.now.stage }
    {
        match self.stage {
            Stage::Goes(_) => None,
            Stage::Ended(why) => Some(why),
        }
    }

    /// Where it wrote.
    pub fn into_sink(self) -> S
        ensures { result ≡ self.sink }
    {
        let FileRecorder {
            stage: _,
            room: _,
            sink,
        } = self;
        sink
    }

    /// Writes the lines of a batch, unless it has ended.
    fn write(&mut self, batch: Batch) -> Result<(), RecordEnd>
        ensures { Takes (seen S.held S.faults self.old) batch (settled result (seen S.held S.faults self.new)) }
    {
        match &mut self.stage {
            Stage::Goes(lines) => write_batch(lines, batch, &mut self.room, &mut self.sink),
            Stage::Ended(why) => Err(*why),
        }
    }
}

impl<S: Sink> xl_store::Recorder for FileRecorder<S> {
    ghost use Rattle.xl_recorder.specs.Recorders.{Takes, seen};

    ghost records = { λ old batch new. Takes (seen S.held S.faults old) batch (seen S.held S.faults new) };

    fn record(&mut self, batch: Batch) {
        if let Err(why) = self.write(batch) {
            self.stage = Stage::Ended(why);
        }
    }
}
