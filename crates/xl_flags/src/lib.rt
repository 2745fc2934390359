//! Amendment and fee votes at flag ledgers.
//!
//! Members vote for amendments and a fee. At each flag ledger that a node reports, the votes of the members that
//! validated it are counted. An amendment with more than four fifths of them has a majority. It is enabled if it had
//! one at each report of the node for two weeks. The fee is the one that most of them vote for.
//!
//! It stands on xl_firsts, and on xl_disputes for rising ids. Its one contract: what is answered at a report is read from the list
//! of all votes and reports before it, though one moment alone is kept for each node and amendment.
#![tactic(auto)]

mod amendment;
mod fee;
mod flag_votes;
mod laws;
mod news;
mod refusal;
mod standing;

pub use flag_votes::{FlagVotes, MOST_AMENDMENTS};
pub use laws::law_of_moments;
pub use news::{FlagLine, FlagNews};
pub use refusal::FlagRefusal;
