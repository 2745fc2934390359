//! The text that says how a running node is: what it is run with, what its core tells, which members of its list are
//! heard, and what became of the last look at a text of rolls.
//!
//! It stands on the statuses of xl_store. Its one contract: the text is a function of these alone, so of no key; and the
//! moment since which a member is silent is that of the last status in which it was heard.
#![tactic(auto)]

mod end;
mod hearing;
mod look;
mod profile;
mod text;

pub use end::{End, Unmade};
pub use hearing::Hearing;
pub use look::Look;
pub use profile::Profile;
pub use text::{push_status, push_unopened};
