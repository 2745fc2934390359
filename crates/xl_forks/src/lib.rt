//! Who said two ledgers of one sequence, and which reports differ, by what was read of journals.
//!
//! It stands on xl_base and xl_lists, and reads no journal itself. Its one contract: each pair of reports of one sequence
//! that differ is a fork. With it come the least number of members who must have said both ledgers, and the number of
//! those who are shown to have said two.
#![tactic(auto)]

mod equivocation;
mod fork;
mod laws;
mod reported;
mod said;
mod words;

pub use equivocation::{Equivocation, equivocations};
pub use fork::{Fork, forks};
pub use laws::{law_of_equivocations, law_of_forks};
pub use reported::Reported;
pub use said::Said;
pub use words::{Words, WordsByMember, words_of};
