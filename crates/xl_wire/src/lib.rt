//! What members say to each other, as bytes: frames are split off, read, written, and cut out of a stream.
//!
//! It stands on xl_base and on the kit's `byteorder`; only opening a feed takes memory. Its one contract: what is
//! read is exactly what is spelled, each value has one spelling, and no spelling begins another.
//!
//! ```
//! let length = encode(&Frame { from: 1, to: 2, body: Body::Validation(said), tag }, &mut room);
//! let mut feed = Feed::open(alloc)?;
//! assert_eq!(feed.push(&room[..length]), 87);
//! assert!(matches!(feed.next(), Next::Frame(_, frame) if frame == &room[..length]));
//! assert!(matches!(decode(&room), Decoded::Whole(frame, 87) if frame.from == 1));
//! ```
#![tactic(auto)]

mod body;
mod decoding;
mod encoding;
mod feed;
mod frame;
mod ids;
mod kinds;
mod laws;
mod lengths;
mod proposal;
mod raw;
mod refusal;
mod splitting;
mod validation;

pub use body::{Body, read_body};
pub use decoding::{Decoded, decode};
pub use encoding::encode;
pub use feed::{Feed, Next};
pub use frame::Frame;
pub use ids::Ids;
pub use kinds::HEADER;
pub use laws::{cut_anywhere, one_spelling};
pub use lengths::{AROUND, HEAD, LONGEST_FRAME, VALIDATION_FRAME};
pub use proposal::Proposal;
pub use raw::Raw;
pub use refusal::WireRefusal;
pub use splitting::{Parted, split};
pub use validation::Validation;
