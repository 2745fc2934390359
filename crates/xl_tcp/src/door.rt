ghost use Rattle.std.specs.Prelude.{◌≡◌, length, IfOk};
ghost use Rattle.xl_tcp.specs.Answers.{FitsLine, untold_door};

use crate::clients::Clients;
use std::alloc::Global;
use std::net::{Net, OpenListener, SocketAddr};
use std::time::{Clock, Duration};
use std::{io, thread};
use xl_io::Failed;
use xl_links::{Arrival, Door};

/// How long to wait before the clients are heard again, in milliseconds, and how often within a second.
const PAUSE: u64 = 50;

const LOOKS: u32 = 20;

/// A door over TCP. What its clients say and take isn't told.
///
/// Several clients may be here at once, and each is heard in its turn: none that says nothing, or takes no answer, holds
/// up the others. A line that isn't ended by a newline is none. `next` fails if the system doesn't tell who calls, if a
/// client's stream can't be set not to wait, or if memory runs out.
#[derive(Drop)]
pub struct TcpDoor<R: Net> {
    net: R,
    /// It never waits.
    listener: R::Listener,
    clients: Clients<R::Stream>,
    faults: u64,
}

impl<R: Net + Drop> TcpDoor<R> {
    pub(crate) fn new(alloc: Global, net: R, listener: R::Listener) -> Self {
        TcpDoor {
            net,
            listener,
            clients: Clients::new(alloc),
            faults: 0,
        }
    }

    /// The address at which clients come in, if the system tells it.
    pub fn listens_at(&self) -> Option<SocketAddr> {
        self.listener.local_addr().ok()
    }
}

impl<R: Net + Clock + Drop> Door for TcpDoor<R> {
    ghost shows = { λ door. untold_door door.faults };

    fn next(&mut self, room: &mut [u8]) -> Arrival {
        match await_line(&self.net, &self.listener, &mut self.clients, room) {
            Ok(arrival) => arrival,
            Err(_) => {
                self.faults = self.faults.saturating_add(1);
                Arrival::Failed
            }
        }
    }

    fn answer(&mut self, text: &[u8]) -> Result<(), Failed> {
        if self.clients.answer(text) {
            return Ok(());
        }
        self.faults = self.faults.saturating_add(1);
        Err(Failed)
    }
}

/// Waits a second for a line.
fn await_line<R: Net + Clock>(
    net: &R,
    listener: &R::Listener,
    clients: &mut Clients<R::Stream>,
    room: &mut [u8],
) -> io::Result<Arrival>
    ensures same { length room.new ≡ length room.old }
    ensures fits { IfOk result (λ arrival. FitsLine arrival room.new) }
{
    for _ in 0..LOOKS {
        clients.admit(listener)?;
        match clients.next_line(room)? {
            Arrival::Idle => thread::sleep(net, Duration::from_millis(PAUSE)),
            arrival => return Ok(arrival),
        }
    }
    Ok(Arrival::Idle)
}
