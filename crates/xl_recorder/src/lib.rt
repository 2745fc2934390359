//! A recorder that writes the text of a journal as it comes.
//!
//! A node that is killed leaves what its recorder has written: a front of its journal's text, which an auditor can
//! check. A recorder never fails. If it can't go on, since a write failed, memory ran out or the text would grow beyond
//! its bounds, it stops for good and says why, and the node goes on without it.
//!
//! It stands on xl_audit, whose lines it writes, and on xl_store's recorders. Its one contract: of the batches that a
//! store hands on over a history, and what is left then, it has written the text of the whole history; or, if it
//! stopped, a front of that text.
#![tactic(auto)]

mod file_recorder;
mod laws;
mod record_end;
mod room;

pub use file_recorder::FileRecorder;
pub use laws::law_of_recorders;
pub use record_end::RecordEnd;
pub use room::MOST_ENTRIES;
