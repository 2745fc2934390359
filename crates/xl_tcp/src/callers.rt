ghost use Rattle.std.specs.Prelude.{◌≡◌, ◌≤◌, IfOk, length, position};
ghost use Rattle.std.specs.List.{list_any};
ghost use Rattle.xl_tcp.specs.Callers.{
  has_shown,
  is_due,
  is_quiet,
  makes_room,
  may_stay,
  room_at,
  served_at,
  standing_by,
};

use crate::answers::{is_absence, is_late};
use std::alloc::Global;
use std::collections::VecDeque;
use std::net::{OpenListener, OpenStream};
use std::time::{Clock, Duration};
use std::{io, thread};
use xl_base::Millis;
use xl_wire::{LONGEST_FRAME, Parted, split};

/// How many callers wait here at most. Whoever else calls waits in the system's queue. A node has 63 links at most, so
/// all callers that wait at it hold 252 descriptors.
const MOST: usize = 4;

/// How many calls are taken at once.
const AT_ONCE: usize = 256;

/// So many that come at once are a throng. The next ones are awaited for so many milliseconds, and so often: 900
/// milliseconds, as a dial waits.
const THRONG: usize = 8;

const THRONG_WAITS: u64 = 10;

const THRONGS: u32 = 90;

/// How long a caller may wait until it has shown a whole frame, in milliseconds.
const PATIENCE: Millis = 10_000;

/// How long one may wait that has.
const PATIENCE_WHEN_SHOWN: Millis = 60_000;

/// After so long whoever has sent nothing ends the time of a peer that tells nothing either.
const QUIET: Millis = 2000;

/// Callers that aren't served yet, in the order in which they came. Their streams don't wait.
///
/// Those who have shown a whole frame are served first. One that has sent nothing is served while nobody has, since a
/// member may have nothing to say. One is let go if it is gone, if what it has sent begins no frame, if it has shown no
/// frame after ten seconds, and if it wasn't served within a minute. If as many wait as may, whoever calls takes the
/// place of one that has shown no frame: of the first that has sent a part of one, or else of the first that is quiet.
#[derive(Drop)]
pub(crate) struct Callers<S> {
    waiting: VecDeque<Caller<S>>,
}

#[derive(Drop)]
struct Caller<S> {
    stream: S,
    came: Millis,
}

#[derive(Clone, Copy, PartialEq, Eq)]
enum Standing {
    Gone,
    /// It has sent nothing.
    Quiet,
    /// It has sent less than a whole frame.
    Begun,
    /// It has shown a whole frame.
    Shown,
}

/// How a caller stands, and for how many milliseconds it has waited.
#[derive(Clone, Copy)]
struct Seen {
    standing: Standing,
    waited: Millis,
}

/// What is seen at a place at which nobody waits.
const NOBODY: Seen = Seen {
    standing: Standing::Gone,
    waited: 0,
};

impl<S: OpenStream + Drop> Callers<S> {
    /// Nobody yet.
    pub(crate) fn new(alloc: Global) -> Self {
        Callers {
            waiting: VecDeque::new(alloc),
        }
    }

    /// Lets go of some who wait, and takes in who has called since. While a throng comes of whom none shows a frame, it
    /// takes in those who come next too: they would fill the system's queue, and a member would find no place there.
    pub(crate) fn admit_throng<L: OpenListener<Stream = S>, C: Clock>(
        &mut self,
        listener: &L,
        clock: &C,
        now: Millis,
    ) -> io::Result<()> {
        for _ in 0..THRONGS {
            if self.admit(listener, now)? < THRONG || has_any_shown(&self.seen(now)) {
                break;
            }
            thread::sleep(clock, Duration::from_millis(THRONG_WAITS));
        }
        Ok(())
    }

    /// Lets go of some who wait, takes in who has called since, and says how many have.
    pub(crate) fn admit<L: OpenListener<Stream = S>>(
        &mut self,
        listener: &L,
        now: Millis,
    ) -> io::Result<usize> {
        self.waiting.retain(|caller| may_wait(caller, now));
        for came in 0..AT_ONCE {
            if self.is_full(now) {
                return Ok(came);
            }
            match listener.accept() {
                Ok((stream, _)) => self.take_in(stream, now)?,
                Err(error) if is_late(error.kind()) => return Ok(came),
                Err(error) if is_absence(error.kind()) => {}
                Err(error) => return Err(error),
            }
        }
        Ok(AT_ONCE)
    }

    /// As many wait as may, and none makes room.
    fn is_full(&self, now: Millis) -> bool {
        self.waiting.len() >= MOST && room_at(&self.seen(now)).is_none()
    }

    fn take_in(&mut self, stream: S, now: Millis) -> io::Result<()> {
        stream.set_nonblocking(true)?;
        if standing_of(&stream) == Standing::Gone {
            return Ok(());
        }
        if self.waiting.len() >= MOST {
            self.let_one_go(now);
        }
        self.waiting.push_back(Caller { stream, came: now })?;
        Ok(())
    }

    fn let_one_go(&mut self, now: Millis) {
        if let Some(place) = room_at(&self.seen(now)) {
            self.waiting.remove(place);
        }
    }

    /// Whoever is served next. It waits no longer here.
    pub(crate) fn next(&mut self, now: Millis) -> Option<S> {
        let place = served_at(&self.seen(now))?;
        let caller = self.waiting.remove(place)?;
        Some(caller.stream)
    }

    /// One waits for whom a peer that tells nothing makes room.
    pub(crate) fn is_any_due(&self, now: Millis) -> bool {
        is_any_due(&self.seen(now))
    }

    /// How they stand, in their order.
    fn seen(&self, now: Millis) -> [Seen; MOST] {
        let mut seen = [NOBODY; MOST];
        for (place, caller) in seen.iter_mut().zip(self.waiting.iter()) {
            *place = seen_now(caller, now);
        }
        seen
    }
}

fn may_wait<S: OpenStream>(caller: &Caller<S>, now: Millis) -> bool {
    may_stay(seen_now(caller, now))
}

fn seen_now<S: OpenStream>(caller: &Caller<S>, now: Millis) -> Seen {
    Seen {
        standing: standing_of(&caller.stream),
        waited: now.saturating_sub(caller.came),
    }
}

/// The place of whoever is served next: the first that has shown a frame, and if none has, the first that is quiet.
fn served_at(seen: &[Seen]) -> Option<usize>
    ensures { result ≡ served_at seen.now }
{
    first_shown(seen).or(first_quiet(seen))
}

/// The place of whoever is let go if another calls: the first that has shown a part of a frame or is gone, and if none
/// has, the first that is quiet.
fn room_at(seen: &[Seen]) -> Option<usize>
    ensures { result ≡ room_at seen.now }
{
    first_that_makes_room(seen).or(first_quiet(seen))
}

fn first_shown(seen: &[Seen]) -> Option<usize>
    ensures { result ≡ position has_shown seen.now }
{
    seen.iter().position(|it| has_shown(*it))
}

fn first_quiet(seen: &[Seen]) -> Option<usize>
    ensures { result ≡ position is_quiet seen.now }
{
    seen.iter().position(|it| is_quiet(*it))
}

fn first_that_makes_room(seen: &[Seen]) -> Option<usize>
    ensures { result ≡ position makes_room seen.now }
{
    seen.iter().position(|it| makes_room(*it))
}

fn has_any_shown(seen: &[Seen]) -> bool
    ensures { result ≡ list_any has_shown seen.now }
{
    seen.iter().any(|it| has_shown(*it))
}

fn is_any_due(seen: &[Seen]) -> bool
    ensures { result ≡ list_any is_due seen.now }
{
    seen.iter().any(|it| is_due(*it))
}

fn has_shown(seen: Seen) -> bool
    ensures { result ≡ has_shown seen }
{
    match seen.standing {
        Standing::Gone | Standing::Quiet | Standing::Begun => false,
        Standing::Shown => true,
    }
}

fn is_quiet(seen: Seen) -> bool
    ensures { result ≡ is_quiet seen }
{
    match seen.standing {
        Standing::Gone | Standing::Begun | Standing::Shown => false,
        Standing::Quiet => true,
    }
}

/// It is let go before anybody else, if another calls and no place is left.
fn makes_room(seen: Seen) -> bool
    ensures { result ≡ makes_room seen }
{
    match seen.standing {
        Standing::Gone | Standing::Begun => true,
        Standing::Quiet | Standing::Shown => false,
    }
}

/// A peer that tells nothing makes room for it.
fn is_due(seen: Seen) -> bool
    ensures { result ≡ is_due seen }
{
    match seen.standing {
        Standing::Gone | Standing::Begun => false,
        Standing::Quiet => seen.waited >= QUIET,
        Standing::Shown => true,
    }
}

/// It may wait on.
fn may_stay(seen: Seen) -> bool
    ensures { result ≡ may_stay seen }
{
    match seen.standing {
        Standing::Gone => false,
        Standing::Quiet | Standing::Begun => seen.waited < PATIENCE,
        Standing::Shown => seen.waited < PATIENCE_WHEN_SHOWN,
    }
}

/// How a caller stands, by what it has sent so far.
fn standing_of<S: OpenStream>(stream: &S) -> Standing {
    let mut front = [0; LONGEST_FRAME];
    let peeked = stream.peek(&mut front);
    standing_by(peeked, &front)
}

/// The same, by how many bytes can be seen, and which.
fn standing_by(peeked: io::Result<usize>, front: &[u8]) -> Standing
    requires { IfOk peeked (λ count. count ≤ length front.now) }
    ensures { result ≡ standing_by peeked front.now }
{
    match peeked {
        Ok(0) => Standing::Gone,
        Ok(count) => match split(&front[..count]) {
            Parted::Whole(_) => Standing::Shown,
            Parted::Need(_) => Standing::Begun,
            Parted::Refused(_) => Standing::Gone,
        },
        Err(error) if is_late(error.kind()) => Standing::Quiet,
        Err(_) => Standing::Gone,
    }
}
