// How a node is, as its core tells it.
ghost use Rattle.std.specs.Prelude.{◌≡◌, ◌+◌, ◌<◌};
ghost use Rattle.xl_store.specs.Statuses.{status_of, heard_in, is_heard};

use xl_base::{MOST_MEMBERS, Millis, NodeNo, Seq};
use xl_core::{Core, Report};
use xl_ledger::Branch;
use xl_lists::List;

/// How a node is at a moment. No key is in it.
#[derive(Drop)]
pub struct NodeStatus {
    pub me: NodeNo,
    /// The list in force.
    pub list: List,
    /// The greatest moment since it opened.
    pub time: Millis,
    /// How many ledgers it knows, the root among them.
    pub ledgers: u32,
    /// How many it may know.
    pub limit: u32,
    /// The last sequence that was saved.
    pub kept: Seq,
    /// The sequence whose save failed since it opened, if one did. It issues nothing then.
    pub failed_save: Option<Seq>,
    /// What it last reported since it opened.
    pub last: Option<Report>,
    /// The ledger that the members' votes prefer.
    pub preferred: Option<Report>,
    /// How many of its reports were dropped, since too many waited to be taken.
    pub lost_reports: u64,
    /// Whether each number is heard, from 1 on.
    pub heard: [bool; MOST_MEMBERS],
}

impl NodeStatus {
    /// How the node of a core is now. It takes no memory.
    pub fn of<B: Branch + Drop>(core: &Core<B>) -> NodeStatus
        ensures { result ≡ status_of core.now }
    {
        let node = core.node();
        NodeStatus {
            me: node.me(),
            list: node.list().copy(),
            time: node.time(),
            ledgers: node.registry().len(),
            limit: node.limit(),
            kept: node.kept(),
            failed_save: node.failed_save(),
            last: node.last().report,
            preferred: node.preferred(),
            lost_reports: core.lost_reports(),
            heard: heard_in(core),
        }
    }
}

/// Whether each number is heard, from 1 on.
fn heard_in<B: Branch + Drop>(core: &Core<B>) -> [bool; MOST_MEMBERS]
    ensures { result ≡ heard_in core.now.node }
{
    let mut heard = [false; MOST_MEMBERS];
    for place in 0..MOST_MEMBERS {
        heard[place] = is_heard(core, member_at(place));
    }
    heard
}

/// The member at a place of all numbers.
fn member_at(place: usize) -> NodeNo
    requires { place < 64 }
    ensures { result ≡ place + 1 }
{
    NodeNo::new(place as u32 + 1).unwrap()
}

/// Whether a member is heard.
fn is_heard<B: Branch + Drop>(core: &Core<B>, member: NodeNo) -> bool
    ensures { result ≡ is_heard core.now.node member }
{
    core.node().current(member).is_some()
}
