// A journal, line by line, up to the first entry that isn't right.
ghost use Rattle.std.specs.Prelude.{◌≡◌, ◌+◌, ◌<◌, ◌≤◌, ◌^◌, IfOk, OnErr, OnOk, length, option_copied, option_map};
ghost use Rattle.xl_audit.specs.Limits.{most_bytes};
ghost use Rattle.xl_shown.specs.Courses.{came_given, course_step, end_of as end_of_course, entries_in, keyed_end as keyed_end_of, step_of_lead, list_in as list_in_course, may_end as may_end_of, ring_of, told_at, turn_given, IsReadyCourse};
ghost use Rattle.xl_audit.specs.Judging.{entries_of, IsReady};
ghost use Rattle.xl_audit.specs.Leading.{lead as lead_of, IsAskedAt};

use crate::shown::{Shown, follow};
use std::alloc::Global;
use xl_audit::{BadLine, KeyRing, Lead, ReadEntry, Stage, ended, lead};
use xl_base::OutOfMemory;
use xl_lists::List;
use xl_sched::SchedRefusal;
use xl_tags::Keys;

/// How a written journal goes.
#[derive(Drop)]
pub enum Course {
    /// Each entry so far is right.
    Goes(Stage),
    /// The entry of this place isn't, and what stands behind it is passed over.
    Failed { keys: KeyRing, place: u64 },
}

/// What a line comes to.
#[derive(Drop)]
pub enum Came {
    /// It shows nothing.
    Passed,
    /// The entry of this place shows this.
    Showed { place: u64, shown: Shown },
    Refused(BadLine),
}

/// How the entries of a journal were judged, as the auditor says it.
#[derive(Clone, Copy, PartialEq, Eq)]
pub enum Judged {
    /// So many are right, and there are no more.
    Yes(u64),
    /// The first that isn't right has this place.
    No(u64),
}

/// A journal that has ended: the keys of its node, and how its entries were judged.
#[derive(Drop)]
pub struct End {
    pub keys: KeyRing,
    pub judged: Judged,
}

/// Whether a header is the next journal's, and no line of this one.
pub fn may_end(course: &Course) -> bool
    ensures { result ≡ may_end_of course.now }
{
    match course {
        Course::Goes(Stage::Heading | Stage::Setting) => false,
        _ => true,
    }
}

/// The list in force behind the entries, once there was one.
pub fn list_in(course: &Course) -> Option<&List>
    ensures { option_copied result ≡ list_in_course course.now }
{
    match course {
        Course::Goes(Stage::Judging { auditor, .. }) => Some(auditor.core().node().list()),
        _ => None,
    }
}

/// What a line comes to at a stage.
#[derive(Drop)]
enum Turn {
    Came(Came),
    /// The entry of this place isn't right, in a journal with these keys.
    Failed { keys: KeyRing, place: u64 },
}

/// The entry that was read is judged.
fn judge(alloc: Global, stage: &mut Stage, read: ReadEntry<'_>) -> Result<Turn, OutOfMemory>
    requires asked { IsAskedAt stage.old read }
    requires few { entries_of stage.old + 1 < 2 ^ 64 }
    ensures step { IfOk result (λ turn. turn_given turn stage.new ≡ told_at stage.old read.entry) }
    ensures ready { IsReady stage.old → IsReady stage.new }
    ensures more { IfOk result (λ _. entries_of stage.new ≤ entries_of stage.old + 1) }
    ensures none { OnErr result (entries_of stage.new ≤ entries_of stage.old) }
{
    let Stage::Judging { auditor, entries } = stage else {
        return Ok(Turn::Came(Came::Passed));
    };
    let place = *entries + 1;
    match follow(alloc, auditor, read.entry, read.reply)? {
        Some(shown) => {
            *entries = place;
            Ok(Turn::Came(Came::Showed { place, shown }))
        }
        None => {
            let keys = KeyRing::copy_of(alloc, auditor.keys())?;
            Ok(Turn::Failed { keys, place })
        }
    }
}

/// What a line comes to at a stage, before the course is known.
fn come_at(alloc: Global, stage: &mut Stage, line: &[u8]) -> Result<Turn, OutOfMemory>
    requires ready { IsReady stage.old }
    requires few { entries_of stage.old + 1 < 2 ^ 64 }
    requires short { length line.now ≤ most_bytes }
    ensures step { IfOk result (λ turn. turn_given turn stage.new ≡ step_of_lead (lead_of stage.old line.now)) }
    ensures ready { IsReady stage.new }
    ensures more { IfOk result (λ _. entries_of stage.new ≤ entries_of stage.old + 1) }
    ensures none { OnErr result (entries_of stage.new ≤ entries_of stage.old) }
{
    match lead(alloc, stage, line)? {
        Lead::GoesOn => Ok(Turn::Came(Came::Passed)),
        Lead::Refused(why) => Ok(Turn::Came(Came::Refused(why))),
        Lead::Tells(read) => judge(alloc, stage, read),
    }
}

/// What the next line comes to.
pub fn come(alloc: Global, course: &mut Course, line: &[u8]) -> Result<Came, OutOfMemory>
    requires ready { IsReadyCourse course.old }
    requires few { entries_in course.old + 1 < 2 ^ 64 }
    requires short { length line.now ≤ most_bytes }
    ensures step { IfOk result (λ came. came_given came course.new ≡ course_step course.old line.now) }
    ensures ready { IsReadyCourse course.new }
    ensures more { IfOk result (λ _. entries_in course.new ≤ entries_in course.old + 1) }
    ensures none { OnErr result (entries_in course.new ≤ entries_in course.old) }
{
    match course {
        Course::Goes(stage) => match come_at(alloc, stage, line)? {
            Turn::Came(came) => Ok(came),
            Turn::Failed { keys, place } => {
                *course = Course::Failed { keys, place };
                Ok(Came::Passed)
            }
        },
        Course::Failed { .. } => Ok(Came::Passed),
    }
}

/// The keys of a journal's node, once its settings were read.
fn keys_of(stage: &Stage) -> Option<&Keys>
    ensures { option_copied result ≡ ring_of stage.now }
{
    match stage {
        Stage::Heading | Stage::Setting => None,
        Stage::Keying { keys, .. } => Some(keys.keys()),
        Stage::Judging { auditor, .. } => Some(auditor.keys()),
    }
}

/// A journal ends with these keys, if its settings were read.
fn keyed_end(
    alloc: Global,
    keys: Option<&Keys>,
    judged: Judged,
) -> Result<Result<End, BadLine>, OutOfMemory>
    ensures { IfOk result (λ end. end ≡ keyed_end_of (option_copied keys.entry) judged) }
{
    match keys {
        Some(keys) => Ok(Ok(End {
            keys: KeyRing::copy_of(alloc, keys)?,
            judged,
        })),
        None => Ok(Err(BadLine::Refused(SchedRefusal::missing_header(alloc)))),
    }
}

/// The journal ends here, or it is refused that it does.
pub fn end_of(alloc: Global, course: &Course) -> Result<Result<End, BadLine>, OutOfMemory>
    ensures { IfOk result (λ end. end ≡ end_of_course course.now) }
{
    match course {
        Course::Goes(stage) => match ended(alloc, stage) {
            Ok(entries) => keyed_end(alloc, keys_of(stage), Judged::Yes(entries)),
            Err(why) => Ok(Err(why)),
        },
        Course::Failed { keys, place } => {
            keyed_end(alloc, Some(keys.keys()), Judged::No(*place))
        }
    }
}
