use xl_board::FilePath;
use xl_publish::RollMembers;

/// A text of rolls that is looked at each minute.
#[derive(Drop)]
pub struct RollsText {
    pub path: FilePath,
    /// The members that a roll of it may name: each has a key, but the node itself.
    pub members: RollMembers,
}
