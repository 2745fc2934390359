//! The words in which it is told what happens in a schedule and what its nodes send: those of a schedule's line, with
//! ids as a report prints them.
//!
//! It stands on xl_running, which prints ids by their names, and on xl_sched and xl_wire, whose events and bodies it
//! spells. Its one contract: each function puts behind a text exactly what its definition
//! says.
#![tactic(auto)]

mod bodies;
mod events;
mod hashed;
mod leads;
mod words;

pub use bodies::{push_body, push_said};
pub use events::push_event;
pub use hashed::Hashed;
pub use leads::Lead;
pub use words::{
    push_id, push_ids, push_ledger, push_list, push_number, push_numbered, push_of, push_proposal,
    push_validation,
};
