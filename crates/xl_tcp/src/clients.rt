ghost use Rattle.std.specs.Prelude.{◌≡◌, length, IfOk};
ghost use Rattle.xl_tcp.specs.Answers.{FitsLine};

use crate::answers::{is_absence, is_late};
use crate::connection::{read_uninterrupted, write_uninterrupted};
use std::alloc::{AllocError, Global};
use std::collections::VecDeque;
use std::io::{self, Read, Write};
use std::net::{OpenListener, OpenStream};
use xl_links::Arrival;

/// How many clients are heard at most.
const MOST: usize = 16;

/// How many bytes are read of a client at once.
const PIECE: usize = 512;

/// The clients at a door, in the order in which they spoke last or came in. Their streams don't wait.
///
/// All are heard, so a client that says nothing holds up no other. If as many are here as may be, whoever comes in takes
/// the place of the one that has been silent for longest. A client is let go of if it has gone, and if it doesn't take an
/// answer.
#[derive(Drop)]
pub(crate) struct Clients<S> {
    alloc: Global,
    clients: VecDeque<Client<S>>,
}

impl<S: Read + Write + OpenStream + Drop> Clients<S> {
    /// Nobody yet.
    pub(crate) fn new(alloc: Global) -> Self {
        Clients {
            alloc,
            clients: VecDeque::new(alloc),
        }
    }

    /// Lets go of those who have gone, and takes in who has called since.
    pub(crate) fn admit<L: OpenListener<Stream = S>>(&mut self, listener: &L) -> io::Result<()> {
        self.clients.retain(|client| client.stays());
        for _ in 0..MOST {
            match listener.accept() {
                Ok((stream, _)) => self.take_in(stream)?,
                Err(error) if is_late(error.kind()) => break,
                Err(error) if is_absence(error.kind()) => {}
                Err(error) => return Err(error),
            }
        }
        Ok(())
    }

    fn take_in(&mut self, stream: S) -> io::Result<()> {
        stream.set_nonblocking(true)?;
        stream.set_nodelay(true)?;
        if self.clients.len() >= MOST {
            self.clients.pop_front();
        }
        self.clients.push_back(Client::new(self.alloc, stream))?;
        Ok(())
    }

    /// Hears all of them, and gives the next line if one has ended, at the front of the room. Who said it stands last then.
    pub(crate) fn next_line(&mut self, room: &mut [u8]) -> io::Result<Arrival>
        ensures same { length room.new ≡ length room.old }
        ensures fits { IfOk result (λ arrival. FitsLine arrival room.new) }
    {
        for place in 0..self.clients.len() {
            if let Some(client) = self.clients.get_mut(place) {
                client.hear(room.len());
            }
        }
        let speaker = self.clients.iter().position(|client| client.has_line());
        let Some(mut client) = speaker.and_then(|place| self.clients.remove(place)) else {
            return Ok(Arrival::Idle);
        };
        let arrival = client.give(self.alloc, room)?;
        self.clients.push_back(client)?;
        Ok(arrival)
    }

    /// Answers who stands last, and tells whether all of it was taken. Else that client is let go of.
    pub(crate) fn answer(&mut self, text: &[u8]) -> bool {
        let took = match self.clients.back_mut() {
            Some(client) => client.takes(text),
            None => false,
        };
        if !took {
            self.clients.pop_back();
        }
        took
    }
}

/// A client, and what it has said of lines that weren't given yet.
#[derive(Drop)]
struct Client<S> {
    stream: S,
    said: Vec<u8>,
    /// The line that it is in is longer than may be, and what it had said of it was let go.
    is_long: bool,
    /// It says no more.
    has_ended: bool,
}

impl<S: Read + Write + OpenStream + Drop> Client<S> {
    fn new(alloc: Global, stream: S) -> Self {
        Client {
            stream,
            said: Vec::new(alloc),
            is_long: false,
            has_ended: false,
        }
    }

    fn has_line(&self) -> bool {
        self.said.contains(&b'\n')
    }

    /// It says more, or has said a line.
    fn stays(&self) -> bool {
        !self.has_ended || self.has_line()
    }

    /// Reads what it says, unless a line has ended. Of a line that is longer than this nothing is kept.
    fn hear(&mut self, longest: usize) {
        if self.has_ended || self.has_line() {
            return;
        }
        let mut piece = [0; PIECE];
        let heard = match read_uninterrupted(&mut self.stream, &mut piece) {
            Ok(count) if count > 0 => self.said.extend_from_slice(&piece[..count]).is_ok(),
            Err(error) => is_late(error.kind()),
            _ => false,
        };
        self.has_ended = !heard;
        if self.said.len() > longest && !self.has_line() {
            self.said.clear();
            self.is_long = true;
        }
    }

    /// Gives its next line at the front of the room.
    fn give(&mut self, alloc: Global, room: &mut [u8]) -> Result<Arrival, AllocError>
        ensures same { length room.new ≡ length room.old }
        ensures fits { IfOk result (λ arrival. FitsLine arrival room.new) }
    {
        let end = self.said.iter().position(|byte| *byte == b'\n');
        let end = end.unwrap_or(self.said.len());
        let is_long = self.is_long || end > room.len();
        if !is_long {
            room[..end].copy_from_slice(&self.said[..end]);
        }
        let behind = match self.said.get(end + 1..) {
            Some(behind) => behind.to_vec(alloc)?,
            None => Vec::new(alloc),
        };
        self.said = behind;
        self.is_long = false;
        if is_long {
            Ok(Arrival::Long)
        } else {
            Ok(Arrival::Line(end))
        }
    }

    /// Whether it takes all of an answer at once.
    fn takes(&mut self, text: &[u8]) -> bool {
        match write_uninterrupted(&mut self.stream, text) {
            Ok(count) => count == text.len(),
            Err(_) => false,
        }
    }
}
