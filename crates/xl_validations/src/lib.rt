//! What a node remembers of the members' validations: for each member the greatest sequence taken since the node
//! opened, and the current validation. A current validation of a known ledger is the member's vote, and the votes say
//! which ledger to go on with.
//!
//! It stands on xl_lists, xl_wire and xl_ledger. Its one contract: `take` answers as the rows say (stale, a repeat, a
//! conflict, old, or taken) and changes the sender's row alone. Whatever comes, `preferred`, `choose` and `finished`
//! answer as counting the votes of the rows over whole chains does, for whichever `Branch` keeps them.
#![tactic(auto)]

mod counted;
mod refusal;
mod row;
mod rows;
mod table;
mod tally;

pub use refusal::ValRefusal;
pub use row::Row;
pub use rows::Rows;
pub use table::Table;
