use crate::RollMembers;
use xl_base::{MOST_MEMBERS, Secs};

/// The greatest number of a publisher.
pub const GREATEST_PUBLISHER: u32 = 16;

/// How many bytes the longest roll has.
pub const LONGEST_ROLL: usize = 53 + 4 * MOST_MEMBERS;

/// What a publisher says: these are the members from one second until another.
#[derive(Drop)]
pub struct Roll {
    /// The publisher that signs it: any number.
    pub publisher: u32,
    /// A roll takes the place of those with a lesser sequence.
    pub seq: u32,
    /// The first second at which it holds.
    pub from: Secs,
    /// The first second at which it holds no longer.
    pub until: Secs,
    pub members: RollMembers,
}
