//! Votes kept as a plain list, and recounted at each question.
//!
//! It stands on xl_ledger. Its one contract is that of `Branch`, which `Plain` meets.
#![tactic(auto)]

mod children;
mod plain;
mod preferring;

pub use plain::Plain;
