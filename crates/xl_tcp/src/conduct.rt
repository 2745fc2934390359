ghost use Rattle.std.specs.Prelude.{◌≡◌};
ghost use Rattle.xl_wire.specs.Raws.{raw_frame};
ghost use Rattle.xl_tcp.specs.Conduct.{
  after_frame,
  after_given,
  after_judgement,
  after_payment,
  begun_at,
  cost_of,
  goes_on,
  greetings_at,
  header_in,
  is_in_time,
  is_over,
  is_silent,
  manner_by,
  may_give,
  may_greet,
  patience_of,
  payment_of,
};

use crate::allowance::Allowance;
use xl_base::Millis;
use xl_links::Judgement;
use xl_wire::{HEADER, Raw};

/// What a frame costs besides its bytes.
const EACH_FRAME: u64 = 1000;

/// What a peer's frames may cost at once, and with each millisecond more. A member that was long away says 64 things
/// at once, and later some frames a second.
const FRAMES: u64 = 100_000;

const FRAMES_EACH_MILLI: u64 = 25;

/// What a greeting's header costs. A member may greet with as many headers as a node may know, and with 300 more in
/// each second.
const EACH_HEADER: u64 = 1000;

const HEADERS: u64 = 262_144_000;

const HEADERS_EACH_MILLI: u64 = 300;

/// For how long a peer may send no whole frame, in milliseconds.
const SILENCE: Millis = 60_000;

/// The same until the first one comes: where it was dialled, others may be served before.
const SILENCE_AT_FIRST: Millis = 300_000;

/// For how long it may tell nothing while another is due, once it has told something, and before.
const PATIENCE: Millis = 20_000;

const PATIENCE_AT_FIRST: Millis = 2000;

/// The same behind a greeting that is known, if it has told nothing else. A member that dials again after a cut may have
/// nothing more to say until its next round.
const PATIENCE_WITH_GREETING: Millis = 5000;

/// For how long its frames may be known ones alone while another is due.
const PATIENCE_WITH_KNOWN: Millis = 300_000;

/// What a link's members may greet with, one connection after the other.
pub(crate) fn greetings(now: Millis) -> Allowance
    ensures { result ≡ greetings_at now }
{
    Allowance::full(HEADERS, HEADERS_EACH_MILLI, now)
}

/// What is known of a peer, by how its frames were judged.
#[derive(Clone, Copy, PartialEq, Eq)]
pub(crate) enum Manner {
    /// None was given yet.
    New,
    /// The first was given, and isn't judged yet.
    Shown,
    /// The latest came from nobody on the list.
    Unlisted,
    /// The latest carried a right tag.
    Member,
    /// The latest was for another node, or carried a wrong tag.
    Forger,
}

/// What pays for a frame that is to be given.
#[derive(Clone, Copy, PartialEq, Eq)]
enum Payment {
    /// The first one costs nothing.
    Free,
    Greeting,
    Frame,
    /// It is held back.
    Lacking,
}

/// How a peer behaves. Nobody here can test a tag: whoever hears its frames tells how they were judged.
///
/// A peer shows one frame, and no more of it is given until that is judged. Then its frames are held back if they come
/// faster than a member's do. A member's greeting has an allowance of its own.
#[derive(Clone, Copy)]
pub(crate) struct Conduct {
    manner: Manner,
    /// When the latest whole frame was given, or the connection began.
    latest: Millis,
    /// When it told something: its first frame was given, one was fresh, or its greeting went on.
    told: Millis,
    /// When the latest fresh frame came.
    fresh: Millis,
    /// Whether one did.
    has_told: bool,
    /// Whether its greeting went on with a known header.
    has_greeted: bool,
    /// The latest frame was one with which a greeting goes on.
    greets: bool,
    /// The sequence of the header with which it goes on next.
    next_header: u32,
    greetings: Allowance,
    frames: Allowance,
}

impl Conduct {
    /// Of a peer whose connection begins.
    pub(crate) fn new(greetings: Allowance, now: Millis) -> Self
        ensures { result ≡ begun_at greetings now }
    {
        Conduct {
            manner: Manner::New,
            latest: now,
            told: now,
            fresh: now,
            has_told: false,
            has_greeted: false,
            greets: false,
            next_header: 1,
            greetings,
            frames: Allowance::full(FRAMES, FRAMES_EACH_MILLI, now),
        }
    }

    pub(crate) fn manner(&self) -> Manner
        ensures { result ≡ self.now.manner }
    {
        self.manner
    }

    /// What the link's members may still greet with.
    pub(crate) fn greetings(&self) -> Allowance
        ensures { result ≡ self.now.greetings }
    {
        self.greetings
    }

    /// It has sent no whole frame for a minute, or none at all for five.
    pub(crate) fn is_silent(&self, now: Millis) -> bool
        ensures { result ≡ is_silent self.now now }
    {
        let silence = if self.manner == Manner::New {
            SILENCE_AT_FIRST
        } else {
            SILENCE
        };
        now.saturating_sub(self.latest) >= silence
    }

    /// It has told nothing for so long that it makes room for another.
    pub(crate) fn is_over(&self, now: Millis) -> bool
        ensures { result ≡ is_over self.now now }
    {
        now.saturating_sub(self.told) >= self.patience()
            || now.saturating_sub(self.fresh) >= PATIENCE_WITH_KNOWN
    }

    /// A header with which its greeting goes on comes in time.
    fn is_in_time(&self, now: Millis) -> bool
        ensures { result ≡ is_in_time self.now now }
    {
        let patience = if self.has_told {
            PATIENCE
        } else {
            PATIENCE_AT_FIRST
        };
        now.saturating_sub(self.told) < patience
    }

    /// For how long it may tell nothing more.
    fn patience(&self) -> Millis
        ensures { result ≡ patience_of self.now }
    {
        if self.has_told {
            PATIENCE
        } else if self.has_greeted {
            PATIENCE_WITH_GREETING
        } else {
            PATIENCE_AT_FIRST
        }
    }

    /// Notes how its next frame was judged.
    pub(crate) fn judged(&mut self, judgement: Judgement, now: Millis)
        ensures { self.new ≡ after_judgement self.old judgement now }
    {
        self.manner = manner_by(judgement);
        match judgement {
            Judgement::Fresh => {
                self.told = now;
                self.fresh = now;
                self.has_told = true;
            }
            Judgement::Known if self.greets => {
                self.has_greeted = true;
                if self.is_in_time(now) {
                    self.told = now;
                }
            }
            _ => {}
        }
    }

    /// Whether a whole frame may be given now. One that may is noted.
    pub(crate) fn gives(&mut self, frame: &Raw<'_>, now: Millis) -> bool
        ensures answer { result ≡ may_give self.old (raw_frame frame.now) now }
        ensures noted { self.new ≡ after_frame self.old (raw_frame frame.now) now }
    {
        let payment = self.payment(frame, now);
        if payment == Payment::Lacking {
            return false;
        }
        self.note(frame, now);
        self.pay(payment, frame, now);
        true
    }

    /// What pays for a frame.
    fn payment(&self, frame: &Raw<'_>, now: Millis) -> Payment
        ensures { result ≡ payment_of self.now (raw_frame frame.now) now }
    {
        match self.manner {
            Manner::New => Payment::Free,
            Manner::Shown | Manner::Forger => Payment::Lacking,
            Manner::Member if self.may_greet(frame, now) => Payment::Greeting,
            Manner::Member | Manner::Unlisted if self.frames.has(cost_of(frame), now) => {
                Payment::Frame
            }
            Manner::Member | Manner::Unlisted => Payment::Lacking,
        }
    }

    /// It is the header with which a greeting goes on, and so much is left.
    fn may_greet(&self, frame: &Raw<'_>, now: Millis) -> bool
        ensures { result ≡ may_greet self.now (raw_frame frame.now) now }
    {
        self.is_greeting(frame) && self.greetings.has(EACH_HEADER, now)
    }

    fn pay(&mut self, payment: Payment, frame: &Raw<'_>, now: Millis)
        ensures { self.new ≡ after_payment payment self.old (raw_frame frame.now) now }
    {
        match payment {
            Payment::Greeting => self.greetings.spend(EACH_HEADER, now),
            Payment::Frame => self.frames.spend(cost_of(frame), now),
            Payment::Free | Payment::Lacking => {}
        }
    }

    /// Notes a frame that is given.
    fn note(&mut self, frame: &Raw<'_>, now: Millis)
        ensures { self.new ≡ after_given self.old (raw_frame frame.now) now }
    {
        self.greets = self.is_greeting(frame);
        self.latest = now;
        if self.manner == Manner::New {
            self.manner = Manner::Shown;
            self.told = now;
        }
        if self.greets {
            self.next_header = self.next_header.saturating_add(1);
        }
    }

    /// It is the header with which a greeting goes on.
    fn is_greeting(&self, frame: &Raw<'_>) -> bool
        ensures { result ≡ goes_on self.now (raw_frame frame.now) }
    {
        header_sequence(frame) == Some(self.next_header)
    }
}

/// What a peer is whose latest frame was judged so.
fn manner_by(judgement: Judgement) -> Manner
    ensures { result ≡ manner_by judgement }
{
    match judgement {
        Judgement::Fresh | Judgement::Known => Manner::Member,
        Judgement::Unlisted => Manner::Unlisted,
        Judgement::Forged => Manner::Forger,
    }
}

/// What a frame costs that is no greeting's header.
fn cost_of(frame: &Raw<'_>) -> u64
    ensures { result ≡ cost_of (raw_frame frame.now) }
{
    EACH_FRAME.saturating_add(frame.length as u64)
}

/// The sequence of the header that a frame tells, if it tells one.
fn header_sequence(frame: &Raw<'_>) -> Option<u32>
    ensures { result ≡ header_in (raw_frame frame.now) }
{
    if frame.kind != HEADER {
        return None;
    }
    let front = frame.body.get(..4)?;
    let mut bytes = [0; 4];
    bytes.copy_from_slice(front);
    Some(u32::from_be_bytes(bytes))
}
