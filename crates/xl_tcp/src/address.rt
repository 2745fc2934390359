use std::io::{self, ErrorKind};
use std::net::{Net, OpenListener, SocketAddr};
use std::str;
use xl_base::Bytes;
use xl_links::Way;

/// Where a link's connections come from.
#[derive(Drop)]
pub(crate) enum Address<L> {
    /// The member is dialled here.
    Dialled(SocketAddr),
    /// The member dials in here. The listener never waits.
    Bound(L),
}

/// The address of a way, bound where it is one to listen at. It is an IP address and a port, as `192.0.2.1:5005` or
/// `[2001:db8::1]:5005`, and no name.
pub(crate) fn address_of<R: Net>(net: &R, way: &Way) -> io::Result<Address<R::Listener>> {
    match way {
        Way::Dial(text) => Ok(Address::Dialled(parsed(text)?)),
        Way::Listen(text) => {
            let listener = net.bind(parsed(text)?)?;
            listener.set_nonblocking(true)?;
            Ok(Address::Bound(listener))
        }
    }
}

/// A listener that never waits, at an address of the loopback: so no other machine reaches it.
pub(crate) fn listener_at<R: Net>(net: &R, address: &Bytes) -> io::Result<R::Listener> {
    let addr = address_in(address.as_slice())?;
    if !addr.ip().is_loopback() {
        return Err(io::Error::from(ErrorKind::InvalidInput));
    }
    let listener = net.bind(addr)?;
    listener.set_nonblocking(true)?;
    Ok(listener)
}

fn address_in(bytes: &[u8]) -> io::Result<SocketAddr> {
    match str::from_utf8(bytes) {
        Ok(text) => text
            .parse::<SocketAddr>()
            .map_err(|_| io::Error::from(ErrorKind::InvalidInput)),
        Err(_) => Err(io::Error::from(ErrorKind::InvalidInput)),
    }
}

fn parsed(text: &String) -> io::Result<SocketAddr> {
    text.parse::<SocketAddr>()
        .map_err(|_| io::Error::from(ErrorKind::InvalidInput))
}
