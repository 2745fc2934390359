ghost use Rattle.std.specs.Prelude.{◌≡◌};
ghost use Rattle.xl_tcp.specs.Answers.{untold};

use crate::address::Address;
use crate::allowance::Allowance;
use crate::answers::{opening_of, reading_of, writing_of};
use crate::callers::Callers;
use crate::conduct::{Conduct, Manner, greetings};
use crate::connection::Connection;
use crate::moments::millis_of;
use std::alloc::Global;
use std::io::{self, ErrorKind};
use std::net::{Net, OpenListener, OpenStream, SocketAddr};
use std::time::{Clock, Duration};
use xl_base::Millis;
use xl_io::Wrote;
use xl_links::{Judgement, Link, LinkRead, Opening};

/// How long a dial waits for its answer, in milliseconds. With the second that passes before the next opening, a node
/// that is to stop is held for less than two.
const PATIENCE: u64 = 900;

/// A link to one member over TCP, with one connection at a time. What it gives and takes isn't told.
///
/// An opening lets go of the connection before. It dials, and waits 900 milliseconds for the answer. Or it takes one of
/// those who dialled in: the first that has shown a whole frame, or if none has the first that has sent nothing. It
/// doesn't wait for them, unless a throng calls. Whoever else has dialled waits behind the one that was taken. It
/// answers NotYet if nobody is there: the call is refused, isn't answered in time or can't reach the machine, or nobody
/// calls.
///
/// A read waits a second for a byte, and then 50 milliseconds for more. A write waits until the system takes a byte, and
/// reads ahead meanwhile what the peer says, for later reads; it fails if for 900 milliseconds no byte went either way.
/// A read or a write that is interrupted is made again. If no connection was opened, a read answers End and a write
/// fails.
///
/// Anybody can call or answer, and the link knows no key. So it gives one frame of a peer, and waits until that is
/// judged. A caller may not be spoken to before that either, or before a read came back without a frame, and a forger never.
/// The link lets go of whoever forged a frame, and of one that has sent no whole frame for a minute, or none at all for
/// five. While another is due, a peer has 20 seconds from the latest fresh frame on, and two seconds at first, or five
/// with a greeting that is known; its headers count too, for five minutes. A read then says that no more bytes come.
/// Another is due that has shown a frame, or has sent nothing for two seconds. What comes faster than a member says
/// things is held back: a read answers Idle until it may be given.
#[derive(Drop)]
pub struct TcpLink<R: Net> {
    alloc: Global,
    net: R,
    address: Address<R::Listener>,
    callers: Callers<R::Stream>,
    greetings: Option<Allowance>,
    connection: Option<Connection<R::Stream>>,
    faults: u64,
}

impl<R: Net + Drop> TcpLink<R> {
    pub(crate) fn new(alloc: Global, net: R, address: Address<R::Listener>) -> Self {
        TcpLink {
            alloc,
            net,
            address,
            callers: Callers::new(alloc),
            greetings: None,
            connection: None,
            faults: 0,
        }
    }

    /// The address that it listens at, if it does and the system tells it. Where port 0 was asked, it has the port
    /// that the system chose.
    pub fn listens_at(&self) -> Option<SocketAddr> {
        match &self.address {
            Address::Dialled(_) => None,
            Address::Bound(listener) => listener.local_addr().ok(),
        }
    }
}

impl<R: Net + Clock + Drop> TcpLink<R> {
    fn connect(&mut self) -> io::Result<Connection<R::Stream>>
        ensures faults { self.new.faults ≡ self.old.faults }
    {
        let now = millis_of(&self.net)?;
        let conduct = Conduct::new(self.greetings.unwrap_or(greetings(now)), now);
        match &self.address {
            Address::Dialled(addr) => {
                let stream = dial(&self.net, *addr)?;
                Connection::dialled(self.alloc, stream, conduct)
            }
            Address::Bound(listener) => {
                self.callers.admit_throng(listener, &self.net, now)?;
                let stream = next_of(&mut self.callers, now)?;
                Connection::called(self.alloc, stream, conduct)
            }
        }
    }

    /// Lets go of the connection, and keeps what members may still greet with.
    fn leave(&mut self)
        ensures faults { self.new.faults ≡ self.old.faults }
    {
        if let Some(connection) = self.connection.take() {
            self.greetings = Some(connection.conduct().greetings());
        }
    }

    /// The connection is to end: its peer forged a frame, was silent for too long, or makes room for another.
    fn is_over(&mut self) -> io::Result<bool>
        ensures faults { self.new.faults ≡ self.old.faults }
    {
        let now = millis_of(&self.net)?;
        let Some(connection) = &self.connection else {
            return Ok(true);
        };
        let conduct = connection.conduct();
        match conduct.manner() {
            Manner::Forger => Ok(true),
            // What has come while something was written to it counts.
            _ if conduct.is_silent(now) && !self.catches_up(now)? => Ok(true),
            Manner::New => Ok(
                conduct.is_over(now) && self.is_any_due(now)? && !self.catches_up(now)?,
            ),
            _ => Ok(conduct.is_over(now) && self.is_any_due(now)?),
        }
    }

    /// Another has called, and shown a frame or sent nothing for two seconds.
    fn is_any_due(&mut self, now: Millis) -> io::Result<bool>
        ensures faults { self.new.faults ≡ self.old.faults }
    {
        if let Address::Bound(listener) = &self.address {
            self.callers.admit(listener, now)?;
        }
        Ok(self.callers.is_any_due(now))
    }

    /// What has come meanwhile may be given.
    fn catches_up(&mut self, now: Millis) -> io::Result<bool>
        ensures faults { self.new.faults ≡ self.old.faults }
    {
        match &mut self.connection {
            Some(connection) => connection.catches_up(now),
            None => Ok(false),
        }
    }
}

impl<R: Net + Clock + Drop> Link for TcpLink<R> {
    ghost shows = { λ link. untold link.faults };

    fn open(&mut self) -> Opening {
        self.leave();
        let connected = self.connect();
        let answer = opening_of(&connected);
        self.connection = connected.ok();
        if answer == Opening::Failed {
            self.faults = self.faults.saturating_add(1);
        }
        answer
    }

    fn read(&mut self, room: &mut [u8]) -> LinkRead {
        if self.is_over().unwrap_or(false) {
            return LinkRead::End;
        }
        let answer = match &mut self.connection {
            Some(connection) => reading_of(connection.read(&self.net, room)),
            None => LinkRead::End,
        };
        if answer == LinkRead::Failed {
            self.faults = self.faults.saturating_add(1);
        }
        answer
    }

    fn write(&mut self, piece: &[u8]) -> Wrote {
        let answer = match &mut self.connection {
            Some(connection) => writing_of(connection.write(piece)),
            None => Wrote::Failed,
        };
        if answer == Wrote::Failed {
            self.faults = self.faults.saturating_add(1);
        }
        answer
    }

    /// Without a connection nobody may be spoken to.
    fn may_tell(&mut self) -> bool {
        match &self.connection {
            Some(connection) => connection.may_tell(),
            None => false,
        }
    }

    fn judged(&mut self, judgement: Judgement) {
        if let (Some(connection), Ok(now)) = (&mut self.connection, millis_of(&self.net)) {
            connection.judged(judgement, now);
        }
    }
}

/// The next caller's stream, which waits from now on.
fn next_of<S: OpenStream + Drop>(callers: &mut Callers<S>, now: Millis) -> io::Result<S> {
    let Some(stream) = callers.next(now) else {
        return Err(io::Error::from(ErrorKind::WouldBlock));
    };
    stream.set_nonblocking(false)?;
    Ok(stream)
}

/// A call to a port of this machine at which nobody listens may be given that very port, and would answer itself.
fn dial<R: Net>(net: &R, addr: SocketAddr) -> io::Result<R::Stream> {
    let stream = net.connect_timeout(addr, Duration::from_millis(PATIENCE))?;
    if stream.local_addr()? == addr {
        return Err(io::Error::from(ErrorKind::ConnectionRefused));
    }
    Ok(stream)
}
