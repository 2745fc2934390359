/// What became of a proposal that was taken.
#[derive(Clone, Copy, PartialEq, Eq)]
pub enum Placed {
    /// It is the member's position.
    Position,
    /// It builds on a later or an unknown ledger, and waits for a round on that.
    Later,
    /// The member has left the round.
    Gone,
}
