//! Rolls: the lists of members that publishers sign, which of them is kept of each publisher, and the list in force.
//!
//! A publisher's roll names members from one second until another. Of each publisher the greatest right roll is kept,
//! by its sequence and then by its bytes. A member is in force where enough kept rolls name it. A text of rolls is taken
//! line by line.
//!
//! It stands on xl_base, xl_lists, xl_tags and the kit's `byteorder` and `hex`, and no call takes memory. Its one
//! contract: what is kept, and so the list in force at every second, is a function of the set of rolls that were taken,
//! in whatever order and however often they came.
#![tactic(auto)]

mod kept;
mod laws;
mod line_refusal;
mod members;
mod publishers;
mod publishing;
mod reading;
mod refusal;
mod roll;
mod roll_bytes;
mod texts;
mod writing;

pub use laws::law_of_orders;
pub use line_refusal::{LineRefusal, RefusedLine};
pub use members::RollMembers;
pub use publishers::{Publishers, Took};
pub use publishing::Publishing;
pub use refusal::RollRefusal;
pub use roll::{GREATEST_PUBLISHER, LONGEST_ROLL, Roll};
pub use texts::MOST_TEXT;
pub use writing::write_roll;
