ghost use Rattle.std.specs.Prelude.{◌≡◌, ◌≤◌, nat_eq, map, IfOk, IfErr, IsSome, OnOk, OnErr};
ghost use Rattle.std.specs.List.{IsDistinct};
ghost use Rattle.xl_base.specs.Faults.{Rose};
ghost use Rattle.xl_links.specs.Tellings.{AddsTold};
ghost use Rattle.xl_workers.specs.Linking.{contact_of, hub_seen, target_of, AreLinked, IsDoor, IsDoorAsked, IsUnlinked};

use crate::plan::Contact;
use std::alloc::Global;
use xl_base::{Bytes, NodeNo};
use xl_io::Failed;
use xl_links::Hub;

/// A member, and the link to it.
#[derive(Drop)]
pub struct Peer<L> {
    pub member: NodeNo,
    pub link: L,
}

/// Why not every link was opened.
#[derive(Clone, Copy, PartialEq, Eq)]
pub(crate) enum NoLinks {
    /// The hub couldn't make the link to this member: its count of faults rose.
    LinkFault(NodeNo),
    OutOfMemory,
}

/// Opens a link to each member, in order, in the way that its contact says. It ends at the first that the hub can't make.
pub(crate) fn open_links<H: Hub>(
    alloc: Global,
    hub: &mut H,
    contacts: Vec<Contact>,
) -> Result<Vec<Peer<H::L>>, NoLinks>
    requires once { IsDistinct nat_eq (map contact_of contacts.items) }
    ensures linked { IfOk result (λ peers.
        AreLinked (H.gives hub.old).links H.L.Link.shows contacts.items peers.items) }
    ensures asked { OnOk result (AddsTold (H.asked hub.old).links (H.asked hub.new).links (map target_of contacts.items)) }
    ensures door { (H.gives hub.new).door ≡ (H.gives hub.old).door }
    ensures doors { (H.asked hub.new).doors ≡ (H.asked hub.old).doors }
    ensures later { H.faults hub.old ≤ H.faults hub.new }
    ensures unlinked { IfErr result (IsUnlinked (hub_seen (H.faults hub.old) (H.asked hub.old)) (map target_of contacts.items)
        (hub_seen (H.faults hub.new) (H.asked hub.new))) }
{
    let Ok(mut peers) = Vec::with_capacity(alloc, contacts.len()) else {
        return Err(NoLinks::OutOfMemory);
    };
    let mut rest = contacts;
    while !rest.is_empty() {
        let Contact { member, way } = rest.remove(0);
        match hub.open_link(member, way) {
            Ok(link) => peers.push_reserved(Peer { member, link }),
            Err(_) => return Err(NoLinks::LinkFault(member)),
        }
    }
    Ok(peers)
}

/// Opens the door, if there is one.
pub(crate) fn open_door<H: Hub>(hub: &mut H, address: Option<Bytes>) -> Result<Option<H::D>, Failed>
    ensures opened { IfOk result (λ door. IsDoor (H.gives hub.old).door H.D.Door.shows address door) }
    ensures asked { IsDoorAsked address (H.asked hub.old).doors (H.asked hub.new).doors }
    ensures links { (H.asked hub.new).links ≡ (H.asked hub.old).links }
    ensures named { OnErr result (IsSome address) }
    ensures later { H.faults hub.old ≤ H.faults hub.new }
    ensures failed { OnErr result (Rose (H.faults hub.old) (H.faults hub.new)) }
{
    match address {
        Some(address) => match hub.open_door(address) {
            Ok(door) => Ok(Some(door)),
            Err(failed) => Err(failed),
        },
        None => Ok(None),
    }
}
