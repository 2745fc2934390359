ghost use Rattle.std.specs.Prelude.{◌≡◌, ◌≤◌, ◌+◌, ◌-◌, min, None, IfSome};
ghost use Rattle.std.specs.Duration.{as_nanos, max_nanos};
ghost use Rattle.xl_tcp.specs.Moments.{moment_at};
ghost use Rattle.xl_tcp.specs.Starts.{is_moment_since};

use std::time::{self, Duration};
use std::{io, thread};
use xl_base::{GREATEST_MILLIS, Millis};
use xl_links::Clock;

/// 2000-01-01 00:00:00 UTC, from which the XRP Ledger counts its seconds, in milliseconds from 1970 on.
const EPOCH_MILLIS: u64 = 946_684_800_000;

/// The system's clock, in milliseconds from 2000-01-01 00:00:00 UTC on. Before that, and if it couldn't be read when this
/// one was made, it gives 0; and it gives no later moment than the greatest, which lies in the year 2126.
///
/// It reads the time of day once, when it is made, and adds how long it has run since by the clock that is never set. So
/// nobody who sets the time of day moves it, and it gives no moment before the one at which it was made.
#[derive(Drop)]
pub struct SystemClock<C> {
    system: C,
    start: Option<Start>,
}

/// What both clocks said when this one was made.
#[derive(Clone, Copy)]
struct Start {
    since_1970: Duration,
    monotonic: Duration,
}

impl<C: time::Clock> SystemClock<C> {
    /// A clock that starts now.
    pub fn new(system: C) -> Self {
        let start = start_of(&system).ok();
        SystemClock { system, start }
    }

    /// How long after 1970 began it is. Where the clock that is never set can't be read now, it is as it was at first.
    fn since_1970(&self) -> Option<Duration>
        ensures later { IfSome result (λ now. IfSome self.now.start (λ start. as_nanos start.since_1970 ≤ as_nanos now)) }
        ensures never { result ≡ None → self.now.start ≡ None }
    {
        let start = self.start?;
        match self.system.monotonic() {
            Ok(now) => Some(since_1970_at(start, now)),
            Err(_) => Some(start.since_1970),
        }
    }
}

/// How long after 1970 began it is, by what the clock that is never set says.
fn since_1970_at(start: Start, now: Duration) -> Duration
    ensures { as_nanos result ≡ min (as_nanos start.since_1970 + (as_nanos now - as_nanos start.monotonic)) max_nanos }
{
    let ran = now.saturating_sub(start.monotonic);
    start.since_1970.saturating_add(ran)
}

fn start_of<C: time::Clock>(system: &C) -> io::Result<Start> {
    Ok(Start {
        since_1970: system.since_1970()?,
        monotonic: system.monotonic()?,
    })
}

impl<C: time::Clock> Clock for SystemClock<C> {
    ghost use Rattle.std.proofs.Common.{rules};

    ghost may_give = { λ clock moment. is_moment_since clock.start moment };

    fn now(&self) -> Millis {
        match self.since_1970() {
            Some(since_1970) => moment_at(since_1970),
            None => 0,
        }
    }

    fn wait(&self, millis: u32) {
        thread::sleep(&self.system, Duration::from_millis(u64::from(millis)));
    }

    ghost limited = { Prim.search rules };
}

/// The moment at so long after 1970 began.
fn moment_at(since_1970: Duration) -> Millis
    ensures { result ≡ moment_at (as_nanos since_1970) }
{
    let millis = since_1970
        .as_millis()
        .saturating_sub(u128::from(EPOCH_MILLIS));
    u64::try_from(millis)
        .unwrap_or(GREATEST_MILLIS)
        .min(GREATEST_MILLIS)
}
