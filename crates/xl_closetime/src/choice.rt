ghost use Rattle.std.specs.Prelude.{◌≡◌, ◌+◌, ◌≤◌, length, map, take, if◌then◌else◌};
ghost use Rattle.xl_base.specs.Members.{most_members};
ghost use Rattle.xl_closetime.specs.Choices.{
  needed as needed_of,
  occurrences as occurrences_of,
  choose_close as choose_close_of,
  choice_among as choice_among_of,
};
ghost use Rattle.xl_closetime.specs.Rounding.{round_close as round_close_of};
ghost use Rattle.xl_closetime.specs.Resolutions.{IsResolution};
ghost use Rattle.xl_closetime.specs.Frequent.{beats, IsMostFrequent};

use crate::rounding::round_close;
use xl_base::{MOST_MEMBERS, Secs};

/// This many percent of the times make an agreement.
const AGREED_PERCENT: u32 = 75;

/// The close time that a round takes, 0 if none is chosen, and whether the members agree on it.
#[derive(Clone, Copy, Debug, PartialEq, Eq)]
pub struct Choice {
    pub close: Secs,
    pub agreed: bool,
}

/// A time, and how often it occurs.
#[derive(Clone, Copy)]
struct Frequent {
    time: Secs,
    count: u32,
}

impl Frequent {
    /// The other one if it occurs more often, or as often and later; else this one.
    fn or_later(self, other: Frequent) -> Frequent
        ensures { result ≡ (if beats other self then other else self) }
    {
        if other.count > self.count || other.count == self.count && other.time > self.time {
            other
        } else {
            self
        }
    }
}

/// How many of p times are a percent of them, rounded, and at least one.
pub fn needed(p: u32, pct: u32) -> u32
    requires times { p ≤ 65 }
    requires percent { pct ≤ 100 }
    ensures { result ≡ needed_of p pct }
{
    ((p * pct + pct / 2) / 100).max(1)
}

/// The close time for these close times of the members' positions and our own, none of them rounded yet, at a
/// resolution.
///
/// With no positions it is our own time, and agreed on. Else our own counts if we propose. Of the different times,
/// in rising order, the choice is the last that occurs at least as often as `pct` percent of all need and at least as
/// often as every time chosen before it. It is agreed on if it occurs as often as 75 percent of all need.
pub fn choose_close(times: &[Secs], own: Secs, proposing: bool, pct: u32, r: u8) -> Choice
    requires positions { length times.now ≤ most_members }
    requires percent { pct ≤ 100 }
    requires resolution { IsResolution r }
    ensures { result ≡ choose_close_of times.now own proposing pct r }
{
    if times.is_empty() {
        return Choice {
            close: round_close(own, r),
            agreed: true,
        };
    }
    let mut counted = [0; MOST_MEMBERS + 1];
    let mut len = round_all(times, r, &mut counted);
    if proposing {
        counted[len] = round_close(own, r);
        len += 1;
    }
    choice_among(&counted[..len], pct)
}

/// Rounds the times into the front of the room, and tells how many they are.
fn round_all(times: &[Secs], r: u8, room: &mut [Secs]) -> usize
    requires fits { length times.now ≤ length room.old }
    requires resolution { IsResolution r }
    ensures len { result ≡ length times.now }
    ensures rounded { take (length times.now) room.new ≡ map (λ t. round_close_of t r) times.now }
{
    for (place, &time) in times.iter().enumerate() {
        room[place] = round_close(time, r);
    }
    times.len()
}

/// The choice among the counted times.
fn choice_among(times: &[Secs], pct: u32) -> Choice
    requires times { length times.now ≤ most_members + 1 }
    requires percent { pct ≤ 100 }
    ensures { result ≡ choice_among_of times.now pct }
{
    let most = most_frequent(times);
    let p = times.len() as u32;
    if most.count < needed(p, pct) {
        return Choice {
            close: 0,
            agreed: false,
        };
    }
    Choice {
        close: most.time,
        agreed: most.count >= needed(p, AGREED_PERCENT),
    }
}

/// The time that occurs most often, the last of those on a tie.
fn most_frequent(times: &[Secs]) -> Frequent
    requires { length times.now ≤ most_members + 1 }
    ensures { IsMostFrequent times.now times.now result }
{
    let mut most = Frequent { time: 0, count: 0 };
    for &time in times {
        let count = occurrences(times, time);
        most = most.or_later(Frequent { time, count });
    }
    most
}

fn occurrences(times: &[Secs], time: Secs) -> u32
    requires { length times.now ≤ most_members + 1 }
    ensures { result ≡ occurrences_of times.now time }
{
    times.iter().filter(|&&t| t == time).count() as u32
}
