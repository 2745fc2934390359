/// How a node takes part in a round.
#[derive(Clone, Copy, PartialEq, Eq)]
pub enum Mode {
    /// It proposes its position to the members.
    Proposing,
    /// It follows the members' positions and proposes none.
    Observing,
    /// It has left the ledger that it was on for the one that the votes prefer, and proposes nothing until the next
    /// round.
    SwitchedLedger,
}

/// How far a round has come.
#[derive(Clone, Copy, PartialEq, Eq)]
pub enum Phase {
    /// Transactions are collected, until the ledger closes.
    Open,
    /// The members come to agree on a set of transactions and a close time.
    Establish,
    /// The next ledger is accepted, until the next round starts.
    Accepted,
}
