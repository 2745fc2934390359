ghost use Rattle.std.specs.Prelude.{◌≡◌, ◌≢◌, ◌≤◌, ℕ, [], ◌∷◌, IfOk, IfSome, OnOk, OnErr};
ghost use Rattle.xl_base.specs.Faults.{Rose};
ghost use Rattle.xl_links.specs.Requests.{Offers, Requests};
ghost use Rattle.xl_links.specs.Tellings.{AddsTold};
ghost use Rattle.xl_links.specs.Ways.{target};

pub mod plain;
pub mod scripted;

use crate::door::Door;
use crate::link::Link;
use xl_base::{Bytes, NodeNo};
use xl_io::Failed;

/// How a member is reached: it is dialled at an address, or it dials in at one.
#[derive(Drop)]
pub enum Way {
    Dial(String),
    Listen(String),
}

/// A link to a member that a hub in memory still has to give.
#[derive(Drop)]
pub struct Spare<L> {
    pub member: NodeNo,
    pub link: L,
}

/// What makes the links, and the door at which a node's clients come in.
pub trait Hub {
    type L: Link + Send + Drop;

    type D: Door + Send + Drop;

    /// What the next link to a member will show, and the next door, if the hub tells it.
    ghost gives: { Self → Offers };

    /// Which links it was asked for, first to last, and at which addresses for doors, if it tells that.
    ghost asked: { Self → Requests };

    /// How often a call has failed, up to the greatest `u64`.
    ghost faults: { Self → ℕ };

    /// Makes a link to the member. No connection is begun yet.
    fn open_link(&mut self, member: NodeNo, way: Way) -> Result<Self::L, Failed>
        ensures given { IfOk result (λ link.
            IfSome ((gives self.old).links member) (λ wire. Self.L.Link.shows link ≡ wire)) }
        ensures others { (other : ℕ) → other ≢ member → (gives self.new).links other ≡ (gives self.old).links other }
        ensures door { (gives self.new).door ≡ (gives self.old).door }
        ensures asked { AddsTold (asked self.old).links (asked self.new).links (target member way ∷ []) }
        ensures doors { (asked self.new).doors ≡ (asked self.old).doors }
        ensures later { faults self.old ≤ faults self.new }
        ensures failed { OnErr result (Rose (faults self.old) (faults self.new)) }
        ensures exact { OnOk result (faults self.new ≡ faults self.old) };

    /// Makes a door at the address, at which clients may come in from then on.
    fn open_door(&mut self, address: Bytes) -> Result<Self::D, Failed>
        ensures given { IfOk result (λ door.
            IfSome (gives self.old).door (λ doorway. Self.D.Door.shows door ≡ doorway)) }
        ensures asked { AddsTold (asked self.old).doors (asked self.new).doors (address ∷ []) }
        ensures links { (asked self.new).links ≡ (asked self.old).links }
        ensures later { faults self.old ≤ faults self.new }
        ensures failed { OnErr result (Rose (faults self.old) (faults self.new)) }
        ensures exact { OnOk result (faults self.new ≡ faults self.old) };
}
