// Looks at the text of rolls.
ghost use Rattle.std.specs.Prelude.{◌≡◌, ◌+◌, ◌≤◌, Some};
ghost use Rattle.xl_base.specs.Moments.{greatest_millis};
ghost use Rattle.xl_heartbeat.specs.Looks.{LooksIfDue, LooksAt, Looks, Reads, is_look_due, look_of};

use crate::rolls_text::RollsText;
use crate::standing::Standing;
use std::fs::Files;
use xl_base::Millis;
use xl_keep::read_text;
use xl_publish::{MOST_TEXT, Publishers, Publishing, RefusedLine};
use xl_status::Look;

/// The milliseconds from look to look.
const EVERY: Millis = 60_000;

/// Looks at the text of rolls, if there is one and that is due, and answers what became of it.
pub(crate) fn look_at<R: Files>(
    files: &R,
    rolls: &Option<RollsText>,
    standing: &mut Standing,
    now: Millis,
) -> Option<Look>
    requires moment { now ≤ greatest_millis }
    ensures { LooksAt rolls.now now standing.old result standing.new }
{
    match rolls {
        Some(rolls) => look(files, rolls, standing, now),
        None => None,
    }
}

/// The same of a text that is named.
fn look<R: Files>(
    files: &R,
    rolls: &RollsText,
    standing: &mut Standing,
    now: Millis,
) -> Option<Look>
    requires moment { now ≤ greatest_millis }
    ensures { LooksIfDue rolls.now now standing.old result standing.new }
{
    if !is_due(standing.due, now) {
        return None;
    }
    standing.due = now + EVERY;
    take_for(files, rolls, &mut standing.publishing)
}

/// Takes the rolls of the text, if there are publishers.
fn take_for<R: Files>(
    files: &R,
    rolls: &RollsText,
    publishing: &mut Option<Publishing>,
) -> Option<Look>
    ensures { Looks rolls.now publishing.old result publishing.new }
{
    match publishing {
        Some(publishing) => Some(take_from(files, rolls, &mut publishing.publishers)),
        None => None,
    }
}

/// Whether a look is due at a moment. It is too if its moment lies further ahead than looks lie apart, since the clock
/// was set back then.
fn is_due(due: Millis, now: Millis) -> bool
    requires moment { now ≤ greatest_millis }
    ensures { result ≡ is_look_due due now }
{
    due <= now || now + EVERY < due
}

/// Reads the text, and takes its rolls. One that can't be read changes nothing.
fn take_from<R: Files>(files: &R, rolls: &RollsText, publishers: &mut Publishers) -> Look
    ensures { Reads rolls.now.members publishers.old result publishers.new }
{
    let mut room = [0; MOST_TEXT + 1];
    match read_text(files, rolls.path.as_str(), &mut room) {
        Ok(count) => look_of(publishers.take_text(&rolls.members, &room[..count])),
        Err(_) => Look::Unread,
    }
}

/// What is told of a text of which this line is the first that was refused, if one was.
fn look_of(refused: Option<RefusedLine>) -> Look
    ensures { result ≡ look_of refused }
{
    match refused {
        None => Look::Taken,
        Some(line) => Look::Refused {
            line: line.number,
            code: line.cause.code(),
        },
    }
}
