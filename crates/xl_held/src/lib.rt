//! What a node holds, in lines: all of it when the node is opened, and behind an event what the node didn't hold before.
//!
//! It stands on xl_noted, which says what is still the same, and on xl_told, whose words it shares. Its one contract:
//! what `push_changed` adds is exactly `changed_lines` of what was noted and of the node.
#![tactic(auto)]

mod asking;
mod changes;
mod hearing;
mod ledgers;
mod members;
mod reports;
mod rounds;
mod settings;
mod words;

pub use asking::{push_beat_told, push_issue_told};
pub use changes::{push_changed, push_opened};
pub use hearing::{
    push_header_heard, push_proposal_heard, push_set_heard, push_tx_heard, push_vote_heard,
};
