//! What an entry of a written journal shows: the frame that is heard in it, the validation that the node issues, and
//! the report that arises.
//!
//! It stands on xl_audit, by which the entry is judged. Its one contract: of a right entry is shown what its core's
//! step says, and of one that isn't right nothing.
#![tactic(auto)]

mod course;
mod giving;
mod hearing;
mod issuing;
mod reporting;
mod shown;

pub use course::{Came, Course, End, Judged, come, end_of, list_in, may_end};
pub use hearing::Heard;
pub use shown::{Shown, follow};
