use crate::event::Event;
use xl_base::{Bytes, Millis, NodeNo};
use xl_ledger::Header;
use xl_lists::List;

/// What a line says, unless it is passed over.
#[derive(Drop)]
pub enum Line {
    /// Each node may know this many ledgers, 2 to 16,384. No such line stood before.
    Limit(u32),
    /// The validations of all nodes are of this version, 1 or 2. No such line stood before.
    Speak(u8),
    /// An honest node is declared, which was declared neither as one nor as a liar.
    Node {
        me: NodeNo,
        list: List,
        validating: bool,
    },
    /// A liar is declared, which was declared neither as one nor as a node.
    Liar(NodeNo),
    /// A name stands for an id from here on, whatever has it. It stood for none before.
    Name {
        name: Bytes,
        id: [u8; 32],
    },
    /// A name stands for a ledger with this header from here on, and for its id. It stood for none before.
    Ledger {
        name: Bytes,
        parent: Bytes,
        header: Header,
    },
    /// This is the moment in force from here on. It may be an earlier one than before.
    At(Millis),
    /// Something happens.
    Event(Event),
}
