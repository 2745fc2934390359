use crate::rolls_text::RollsText;
use crate::timing::Timing;
use xl_lists::List;
use xl_publish::Publishing;

/// What a heartbeat goes by: when its beats come, and which list is set at each of them.
#[derive(Drop)]
pub struct Pulse {
    pub timing: Timing,
    /// The publishers whose list the node goes over to, with the rolls that they have before the first beat. If there
    /// are none, the first list stays.
    pub publishing: Option<Publishing>,
    /// The list that was set last before the first beat.
    pub list: List,
    /// The text of rolls that is looked at, if one is.
    pub rolls: Option<RollsText>,
}
