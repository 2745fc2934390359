// The reports that no one has taken.
ghost use Rattle.std.specs.Prelude.{◌≡◌, ◌<◌, ◌++◌, length, min, take, drop, set, get_or};
ghost use Rattle.xl_queues.specs.Queues.{without_first};
ghost use Rattle.xl_core.specs.Queues.{with_report, without};

use crate::Report;
use xl_queues::Queue;

/// How many reports may wait to be taken.
pub const UNTAKEN: usize = 1_024;

/// Puts a report last, if there is one.
pub fn push_report(untaken: &mut Queue<Report, UNTAKEN>, report: &Option<Report>)
    ensures { untaken.new ≡ with_report untaken.old report.now }
{
    if let Some(report) = report {
        untaken.push(*report);
    }
}

/// Takes out the oldest reports, as many as the room holds.
pub fn take_reports(untaken: &mut Queue<Report, UNTAKEN>, room: &mut [Report]) -> usize
    ensures count { result ≡ min (length untaken.old.items) (length room.old) }
    ensures given { room.new ≡ take result untaken.old.items ++ drop result room.old }
    ensures taken { untaken.new ≡ without result untaken.old }
{
    let count = untaken.len().min(room.len());
    for place in 0..count {
        take_report(untaken, place, room);
    }
    count
}

/// Takes out the oldest report, into a place of the room.
fn take_report(untaken: &mut Queue<Report, UNTAKEN>, place: usize, room: &mut [Report])
    requires some { 0 < length untaken.old.items }
    requires within { place < length room.old }
    ensures given { (d : Report) → room.new ≡ set room.old place (get_or untaken.old.items 0 d) }
    ensures taken { untaken.new ≡ without_first untaken.old }
{
    if let Some(report) = untaken.pop() {
        room[place] = report;
    }
}
