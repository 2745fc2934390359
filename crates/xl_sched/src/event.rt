use xl_base::{Bytes, LedgerId, Millis, NodeNo, Seq, TxId, TxIds};
use xl_ledger::Header;
use xl_lists::List;
use xl_wire::{Proposal, Validation};

/// What happens in a schedule, and the moment in force at its line.
#[derive(Drop)]
pub struct Event {
    pub at: Millis,
    pub what: What,
}

/// What happens.
#[derive(Drop)]
pub enum What {
    /// A declared node does what it is asked.
    Ask(Ask),
    /// A timer comes to each declared node, by rising number.
    Timers,
    /// A transaction is submitted at a declared node.
    Submit {
        node: NodeNo,
        tx: TxId,
    },
    /// A sent frame is handed to its receiver. Places begin at 1.
    Deliver {
        place: u64,
    },
    /// The sent frames after the mark are handed to their receivers, and the mark moves to the end.
    All,
    /// The mark moves to the end.
    Drop,
    /// A declared node greets a peer: another declared number, a node's or a liar's.
    Greet {
        node: NodeNo,
        peer: NodeNo,
    },
    /// A declared node is opened anew.
    Restart {
        node: NodeNo,
    },
    /// What is asked stops at its save, or is done if it saves nothing, and the node is opened anew. After the save
    /// the keeper holds the new number, or the old one.
    Cut {
        new: bool,
        ask: Ask,
    },
    /// The save of what is asked fails, if it saves anything. The keeper then holds the new number, or the old one.
    Fail {
        new: bool,
        ask: Ask,
    },
    /// A declared node goes over to another list.
    List {
        node: NodeNo,
        list: List,
    },
    /// A frame that a declared liar made up is handed to a declared node.
    Lie {
        from: NodeNo,
        to: NodeNo,
        what: Lied,
    },
    /// Bytes, 1 to 8,240, are handed to a declared node.
    Raw {
        to: NodeNo,
        bytes: Bytes,
    },
    /// The ledger that a declared node prefers is told.
    Prefer {
        node: NodeNo,
    },
    /// What a declared node heard of the ledgers that its list's members last reported is told.
    Heard {
        node: NodeNo,
    },
}

/// What a declared node is asked to do, and may save a number for.
#[derive(Clone, Copy, PartialEq, Eq)]
pub enum Ask {
    /// It issues its validation of a ledger.
    Issue {
        node: NodeNo,
        seq: Seq,
        id: LedgerId,
        full: bool,
    },
    /// A timer comes to it.
    Timer {
        node: NodeNo,
    },
}

/// What a liar says.
#[derive(Drop)]
pub enum Lied {
    Proposal(Proposal),
    Validation(Validation),
    /// The header of the ledger that was declared by this name.
    Header { name: Bytes, header: Header },
    /// The ids of a set of transactions, strictly rising and at most 256.
    TxSet(TxIds),
    Tx(TxId),
}
