ghost use Rattle.std.specs.Prelude.{◌≡◌, None};
ghost use Rattle.xl_links.specs.Requests.{offers, requests};

use crate::address::{address_of, listener_at};
use crate::door::TcpDoor;
use crate::link::TcpLink;
use std::alloc::Global;
use std::io;
use std::net::Net;
use std::time::Clock;
use xl_base::{Bytes, NodeNo};
use xl_io::Failed;
use xl_links::{Hub, Way};

/// A hub over the network. What its links and its door will give isn't told, nor which it was asked for.
#[derive(Drop)]
pub struct TcpHub<R> {
    alloc: Global,
    net: R,
    faults: u64,
}

impl<R: Net + Clone + Drop> TcpHub<R> {
    /// A hub over this network, of which nothing has been asked yet.
    pub fn new(alloc: Global, net: R) -> Self {
        TcpHub {
            alloc,
            net,
            faults: 0,
        }
    }

    fn link(&self, way: &Way) -> io::Result<TcpLink<R>> {
        let net = self.net.clone()?;
        let address = address_of(&net, way)?;
        Ok(TcpLink::new(self.alloc, net, address))
    }

    fn door(&self, address: &Bytes) -> io::Result<TcpDoor<R>> {
        let net = self.net.clone()?;
        let listener = listener_at(&net, address)?;
        Ok(TcpDoor::new(self.alloc, net, listener))
    }
}

impl<R: Net + Clock + Clone + Drop + Send> Hub for TcpHub<R>
where
    R::Stream: Send,
    R::Listener: Send,
{
    type L = TcpLink<R>;

    type D = TcpDoor<R>;

    ghost gives = { λ _. offers (λ _. None) None };

    ghost asked = { λ _. requests None None };

    ghost faults = { λ hub. hub.faults };

    /// It fails if the address isn't an IP address and a port, or is one to listen at that can't be bound or whose
    /// listener can't be set not to wait. It also fails if memory runs out for one more handle of the network.
    fn open_link(&mut self, _member: NodeNo, way: Way) -> Result<TcpLink<R>, Failed> {
        match self.link(&way) {
            Ok(link) => Ok(link),
            Err(_) => {
                self.faults = self.faults.saturating_add(1);
                Err(Failed)
            }
        }
    }

    /// It fails if the address isn't one of the loopback and a port, if it can't be bound, or if its listener can't be set
    /// not to wait. It also fails if memory runs out for one more handle of the network.
    fn open_door(&mut self, address: Bytes) -> Result<TcpDoor<R>, Failed> {
        match self.door(&address) {
            Ok(door) => Ok(door),
            Err(_) => {
                self.faults = self.faults.saturating_add(1);
                Err(Failed)
            }
        }
    }
}
