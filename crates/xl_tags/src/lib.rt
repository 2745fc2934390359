//! Tags: what a member signs its frames with, under a key that it shares with one other member.
//!
//! It stands on xl_base, xl_wire, xl_lists and the kit's `sha2`, and no call takes memory. Its one contract: a frame is
//! opened exactly if it is for me, comes from another listed member, and carries the tag of our key. `has_all` is
//! the test of what `open` requires, for whoever takes keys and a list from outside. `is_same_tag` is for whoever else
//! compares tags.
#![tactic(auto)]

mod comparing;
mod keys;
mod laws;
mod macs;
mod opening;
mod pair_keys;
mod prepared;
mod refusal;
mod sealing;

pub use comparing::is_same_tag;
pub use keys::Keys;
pub use laws::law_of_seals;
pub use macs::hmac;
pub use opening::{is_sealed, open, open_as_sealed, open_raw};
pub use pair_keys::pair_key;
pub use refusal::TagRefusal;
pub use sealing::seal;
