ghost use Rattle.std.specs.Prelude.{◌≡◌, ◌≤◌, nat_lt, IfOk, length};
ghost use Rattle.xl_tcp.specs.Conduct.{after_judgement};
ghost use Rattle.xl_tcp.specs.Granting.{granted_of};
ghost use Rattle.xl_tcp.specs.Telling.{may_tell};
ghost use Rattle.xl_tcp.specs.Waits.{most_ahead, most_waits};

use crate::ahead::Ahead;
use crate::answers::is_late;
use crate::conduct::{Conduct, Manner};
use crate::moments::millis_of;
use std::alloc::Global;
use std::io::{self, ErrorKind, Read, Write};
use std::net::OpenStream;
use std::thread;
use std::time::{Clock, Duration};
use xl_base::Millis;
use xl_links::Judgement;
use xl_wire::{Parted, split};

/// How long a read waits for a byte, in milliseconds.
const READ_WAITS: u64 = 1000;

/// How long a read waits for more once some came, in milliseconds.
const GATHERS: u64 = 50;

/// How long a write waits for room before it reads ahead, in milliseconds.
const WRITE_WAITS: u64 = 50;

/// After this many waits in a row, in which no byte went either way, a write fails: 900 milliseconds.
const FRUITLESS_WAITS: u32 = 18;

/// After this many waits a write to a member fails in any case: five minutes.
const MOST_WAITS: u32 = 6000;

/// The same to a peer that has shown no right tag yet: one minute.
const MOST_WAITS_AT_FIRST: u32 = 1200;

/// How long a read waits for a frame that is held back, in milliseconds. Meanwhile the peer's writes go on.
const HOLDS: u64 = 500;

/// How many frames are granted at once.
const MOST_FRAMES: u32 = 64;

/// How many bytes are read ahead at once, and how often between two tries to write.
const PIECE: usize = 16_384;

const PIECES: usize = 64;

/// No more is read ahead if this many bytes wait. They are the greeting of a peer that knows as many ledgers as a node
/// may know, 262,144 frames of 164 bytes each, and what else it says.
const MOST_AHEAD: usize = 48_000_000;

/// The same of a peer on no list, whose frames are all refused, and which is heard slowly.
const MOST_AHEAD_OF_OTHERS: usize = 16_000_000;

/// A connection with a peer. What it gives and takes isn't told.
///
/// What comes is read ahead, and given frame by frame, as its conduct allows. A read waits a second for a byte, and once
/// one came 50 milliseconds for more. If a frame is held back, it waits half a second, and reads ahead meanwhile.
///
/// A write waits until the system takes a byte. While it does, it reads ahead what the peer says, for later reads: two
/// peers that write to each other at once would else wait for each other. It fails if for 900 milliseconds no byte went
/// either way, and in any case after five minutes, or one if the peer has shown no right tag yet.
///
/// A caller may be spoken to once its first frame was judged, or a read came back without one. So whoever forges a frame
/// hears nothing of a session that asks.
#[derive(Drop)]
pub(crate) struct Connection<S> {
    stream: S,
    /// It may be spoken to whatever it is: it was dialled, or a read came back without a frame of it.
    tells: bool,
    ahead: Ahead,
    /// How many of the bytes ahead may be given.
    granted: usize,
    conduct: Conduct,
}

impl<S: Read + Write + OpenStream + Drop> Connection<S> {
    /// With a peer that was dialled.
    pub(crate) fn dialled(alloc: Global, stream: S, conduct: Conduct) -> io::Result<Self> {
        Connection::new(alloc, stream, conduct, true)
    }

    /// With a caller.
    pub(crate) fn called(alloc: Global, stream: S, conduct: Conduct) -> io::Result<Self> {
        Connection::new(alloc, stream, conduct, false)
    }

    fn new(alloc: Global, stream: S, conduct: Conduct, tells: bool) -> io::Result<Self> {
        stream.set_read_timeout(Some(Duration::from_millis(READ_WAITS)))?;
        stream.set_write_timeout(Some(Duration::from_millis(WRITE_WAITS)))?;
        stream.set_nodelay(true)?;
        Ok(Connection {
            stream,
            tells,
            ahead: Ahead::new(alloc),
            granted: 0,
            conduct,
        })
    }

    pub(crate) fn conduct(&self) -> Conduct
        ensures { result ≡ self.now.conduct }
    {
        self.conduct
    }

    pub(crate) fn judged(&mut self, judgement: Judgement, now: Millis)
        ensures { self.new.conduct ≡ after_judgement self.old.conduct judgement now }
    {
        self.conduct.judged(judgement, now);
    }

    /// Some of what was read ahead may be given now.
    pub(crate) fn has_some(&mut self, now: Millis) -> bool
        ensures some { result ≡ nat_lt 0 self.new.granted }
        ensures ahead { self.new.ahead ≡ self.old.ahead }
    {
        if self.granted > 0 {
            return true;
        }
        self.granted = grant(&mut self.conduct, self.ahead.bytes(), MOST_FRAMES, now);
        self.granted > 0
    }

    /// The same, once what has come was read ahead too.
    pub(crate) fn catches_up(&mut self, now: Millis) -> io::Result<bool> {
        self.read_piece_ahead(PIECE)?;
        Ok(self.has_some(now))
    }

    /// It may be spoken to now.
    pub(crate) fn may_tell(&self) -> bool
        ensures { result ≡ may_tell self.now.tells self.now.conduct.manner }
    {
        may_tell(self.tells, self.conduct.manner())
    }

    /// Reads the next bytes, at least one if there is room, or none at the connection's end.
    pub(crate) fn read<C: Clock>(&mut self, clock: &C, room: &mut [u8]) -> io::Result<usize>
        ensures same { length room.new ≡ length room.old }
        ensures fits { IfOk result (λ count. count ≤ length room.new) }
    {
        let answer = self.read_next(clock, room);
        if self.conduct.manner() == Manner::New {
            self.tells = true;
        }
        answer
    }

    fn read_next<C: Clock>(&mut self, clock: &C, room: &mut [u8]) -> io::Result<usize>
        ensures same { length room.new ≡ length room.old }
        ensures fits { IfOk result (λ count. count ≤ length room.new) }
    {
        if !self.has_some(millis_of(clock)?) && !self.fetch(clock)? {
            return Ok(0);
        }
        if self.has_some(millis_of(clock)?) {
            return self.give(room);
        }
        Err(io::Error::from(ErrorKind::WouldBlock))
    }

    /// Gives what may be given. If much is ahead, the peer may still be writing, and is to go on as fast as its bytes are
    /// given.
    fn give(&mut self, room: &mut [u8]) -> io::Result<usize>
        ensures same { length room.new ≡ length room.old }
        ensures fits { IfOk result (λ count. count ≤ length room.new) }
    {
        let most = self.granted.min(room.len());
        let given = self.ahead.give(&mut room[..most]);
        self.granted = self.granted.saturating_sub(given);
        if self.ahead.len() >= PIECE && self.may_read_ahead() {
            self.read_piece_ahead(given)?;
        }
        Ok(given)
    }

    /// Waits for what comes next and reads it ahead, or for what is held back. It says whether more may come.
    fn fetch<C: Clock>(&mut self, clock: &C) -> io::Result<bool> {
        if self.is_held_back() {
            self.read_ahead()?;
            thread::sleep(clock, Duration::from_millis(HOLDS));
            return Ok(true);
        }
        let mut piece = [0; PIECE];
        let count = read_gathering(&mut self.stream, clock, &mut piece)?;
        self.ahead.put(&piece[..count])?;
        Ok(count > 0)
    }

    /// What stands next is a whole frame.
    fn is_held_back(&self) -> bool {
        matches!(split(self.ahead.bytes()), Parted::Whole(_))
    }

    /// Writes some of the piece, and reads ahead while it can't.
    pub(crate) fn write(&mut self, piece: &[u8]) -> io::Result<usize>
        ensures { IfOk result (λ count. count ≤ length piece.now) }
    {
        let mut left = FRUITLESS_WAITS;
        for _ in 0..most_waits(self.conduct.manner()) {
            match write_uninterrupted(&mut self.stream, piece) {
                Err(error) if is_late(error.kind()) => {}
                answer => return answer,
            }
            left = if self.read_ahead()? {
                FRUITLESS_WAITS
            } else {
                left.saturating_sub(1)
            };
            if left == 0 {
                break;
            }
        }
        Err(io::Error::from(ErrorKind::TimedOut))
    }

    fn may_read_ahead(&self) -> bool {
        self.ahead.len() < most_ahead(self.conduct.manner())
    }

    /// Reads ahead what has come, and says whether any has.
    fn read_ahead(&mut self) -> io::Result<bool> {
        let before = self.ahead.len();
        for _ in 0..PIECES {
            if !self.may_read_ahead() || self.read_piece_ahead(PIECE)? == 0 {
                break;
            }
        }
        Ok(self.ahead.len() > before)
    }

    /// Reads ahead what has come, at most this many bytes and no more than a piece, and says how many they are.
    fn read_piece_ahead(&mut self, most: usize) -> io::Result<usize> {
        let mut piece = [0; PIECE];
        let count = read_at_hand(&mut self.stream, &mut piece[..most.min(PIECE)])?;
        self.ahead.put(&piece[..count])?;
        Ok(count)
    }
}

/// A peer of this manner may be spoken to, or one that may be spoken to whatever it is.
fn may_tell(tells: bool, manner: Manner) -> bool
    ensures { result ≡ may_tell tells manner }
{
    match manner {
        Manner::New | Manner::Shown | Manner::Forger => tells,
        Manner::Unlisted | Manner::Member => true,
    }
}

/// After this many waits a write fails in any case.
fn most_waits(manner: Manner) -> u32
    ensures { result ≡ most_waits manner }
{
    match manner {
        Manner::Member => MOST_WAITS,
        Manner::New | Manner::Shown | Manner::Unlisted | Manner::Forger => MOST_WAITS_AT_FIRST,
    }
}

/// How many bytes may be read ahead.
fn most_ahead(manner: Manner) -> usize
    ensures { result ≡ most_ahead manner }
{
    match manner {
        Manner::New | Manner::Shown | Manner::Member => MOST_AHEAD,
        Manner::Unlisted | Manner::Forger => MOST_AHEAD_OF_OTHERS,
    }
}

/// How many of these bytes may be given: the first whole frames, as far as they may, at most so many, and all of what
/// begins no frame, since that ends the session.
fn grant(conduct: &mut Conduct, bytes: &[u8], most: u32, now: Millis) -> usize
    ensures granted { result ≡ (granted_of most conduct.old bytes.now now).count }
    ensures noted { conduct.new ≡ (granted_of most conduct.old bytes.now now).peer }
    ensures within { result ≤ length bytes.now }
{
    if most == 0 {
        return 0;
    }
    let frame = match split(bytes) {
        Parted::Whole(frame) => frame,
        Parted::Need(_) => return 0,
        Parted::Refused(_) => return bytes.len(),
    };
    if !conduct.gives(&frame, now) {
        return 0;
    }
    frame.length + grant(conduct, &bytes[frame.length..], most - 1, now)
}

/// Reads the next bytes, and once some came waits for more.
fn read_gathering<S: Read + OpenStream, C: Clock>(
    stream: &mut S,
    clock: &C,
    room: &mut [u8],
) -> io::Result<usize>
    ensures same { length room.new ≡ length room.old }
    ensures fits { IfOk result (λ count. count ≤ length room.new) }
{
    let first = read_uninterrupted(stream, room)?;
    if first == 0 || first >= room.len() {
        return Ok(first);
    }
    thread::sleep(clock, Duration::from_millis(GATHERS));
    Ok(first + read_at_hand(stream, &mut room[first..])?)
}

/// Reads what has come, without a wait. That the connection ended or broke is left to be told by the next call.
fn read_at_hand<S: Read + OpenStream>(stream: &mut S, room: &mut [u8]) -> io::Result<usize>
    ensures same { length room.new ≡ length room.old }
    ensures fits { IfOk result (λ count. count ≤ length room.new) }
{
    stream.set_nonblocking(true)?;
    let read = read_uninterrupted(stream, room);
    stream.set_nonblocking(false)?;
    Ok(read.unwrap_or(0))
}

/// Reads again after each read that was interrupted.
pub(crate) fn read_uninterrupted<S: Read>(stream: &mut S, room: &mut [u8]) -> io::Result<usize>
    ensures same { length room.new ≡ length room.old }
    ensures fits { IfOk result (λ count. count ≤ length room.new) }
{
    for _ in 0..u64::MAX {
        match stream.read(room) {
            Err(error) if error.kind() == ErrorKind::Interrupted => {}
            answer => return answer,
        }
    }
    Err(io::Error::from(ErrorKind::Interrupted))
}

/// Writes again after each write that was interrupted.
pub(crate) fn write_uninterrupted<S: Write>(stream: &mut S, piece: &[u8]) -> io::Result<usize>
    ensures { IfOk result (λ count. count ≤ length piece.now) }
{
    for _ in 0..u64::MAX {
        match stream.write(piece) {
            Err(error) if error.kind() == ErrorKind::Interrupted => {}
            answer => return answer,
        }
    }
    Err(io::Error::from(ErrorKind::Interrupted))
}
