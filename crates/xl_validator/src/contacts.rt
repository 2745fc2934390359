// The members that are served.
ghost use Rattle.std.specs.Prelude.{◌≡◌, map, IfOk};
ghost use Rattle.std.specs.List.{AllByRecursion};
ghost use Rattle.xl_settings.specs.Peers.{setting_of};
ghost use Rattle.xl_workers.specs.Linking.{target_of};
ghost use Rattle.xl_validator.specs.Contacts.{IsNumber};
ghost use Rattle.xl_validator.specs.Openings.{target_at};

use std::alloc::Global;
use xl_base::OutOfMemory;
use xl_settings::Peer;
use xl_workers::Contact;

/// A contact for each peer, in order.
pub(crate) fn contacts_of(alloc: Global, peers: Vec<Peer>) -> Result<Vec<Contact>, OutOfMemory>
    ensures each { IfOk result (λ contacts. map target_of contacts.items ≡ map target_at (map setting_of peers.items)) }
    ensures numbers { IfOk result (λ contacts. AllByRecursion IsNumber contacts.items) }
{
    let mut contacts = Vec::with_capacity(alloc, peers.len())?;
    let mut rest = peers;
    while !rest.is_empty() {
        let peer = rest.remove(0);
        contacts.push_reserved(contact_of(peer));
    }
    Ok(contacts)
}

/// The contact of a peer.
fn contact_of(peer: Peer) -> Contact
    ensures same { target_of result ≡ target_at (setting_of peer) }
    ensures number { IsNumber result }
{
    let Peer {
        number,
        key: _,
        way,
    } = peer;
    // A member's number, 1 to 64.
    let _number = number.get();
    Contact {
        member: number,
        way,
    }
}
