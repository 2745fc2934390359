//! The words that all layers share: who a member is, which ledger, which set, which moment, how a run ended, the half
//! hash, and how fields are put into bytes.
//!
//! It stands on the kit's `sha2` and `byteorder`. Its one contract: `half512` is the first half of SHA-512, and
//! `set_id` is that of a set's prefix and ids. `TxIds` has the ids of a set that an event of a schedule names. Ids are
//! ordered by their bytes, and are compared eight bytes at a time.
#![tactic(auto)]

mod bytes;
mod hash;
mod ids;
mod laws;
mod memory;
mod moments;
mod node_no;
mod order;
mod putting;
mod sets;
mod status;
mod steps;
mod tx_ids;

pub use bytes::Bytes;
pub use hash::half512;
pub use ids::{LedgerId, SetId, TxId};
pub use laws::law_of_constants;
pub use memory::OutOfMemory;
pub use moments::{FUTURE_SECS, GREATEST_MILLIS, Millis, PAST_SECS, Secs, Seq, secs_of};
pub use node_no::{GREATEST_NODE_NO, MOST_MEMBERS, NodeNo};
pub use putting::{bytes_at, put, put_field, put_u16, put_u32, put_u64};
pub use sets::{MOST_IDS, empty_set, set_id};
pub use status::Status;
pub use steps::Steps;
pub use tx_ids::TxIds;
