//! The first of some numbers by an order, whatever the order is: who is heard most, or which fee has most votes.
//!
//! It has definitions and lemmas for the crates above, and stands on xl_base and xl_lists. Its one contract: the first
//! is the one that comes before each other.
#![tactic(auto)]

mod laws;

pub use laws::law_of_firsts;
