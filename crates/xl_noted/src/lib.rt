//! What a node holds, as it is noted before a part of an event, and whether a part of that is still the same.
//!
//! It stands on xl_core, whose nodes it reads. Its one contract: what is noted is exactly
//! `noted` of the node, and each test answers as its definition says.
#![tactic(auto)]

mod asked;
mod heard;
mod members;
mod noted;
mod same;

pub use asked::{NotedBeat, NotedIssue, is_open, is_still};
pub use heard::{NotedLedgers, NotedPending, NotedPosition, NotedVote};
pub use members::{NotedMember, is_position_kept, is_row_kept};
pub use noted::{Noted, NotedRound};
pub use same::{
    are_same_ids, is_same_last, is_same_list, is_same_mode, is_same_number, is_same_phase,
    is_same_position, is_same_proposal, is_same_report, is_same_row,
};
