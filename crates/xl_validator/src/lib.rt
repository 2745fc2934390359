//! The command `node`: a validator by the settings that the input holds.
//!
//! It stands on xl_settings, which reads them, and on xl_workers, which runs a node. Its one contract: settings are judged
//! at one moment that the clock gave. The journal that is handed back is a legal history of the core that they give,
//! opened at that moment with the number that the keeper loaded. Its places are shared out among submits, heartbeat,
//! workers and the last reports. The output is the lines of its reports, or the line of what is refused, and each
//! status has its cause. If the settings ask for it, xl_audit writes that journal behind the reports instead, or
//! xl_recorder writes it to a file as it comes.
//! On the board that they name, it tells how the node is and how it ended.
#![tactic(auto)]

mod command;
mod contacts;
mod ended;
mod following;
mod keys;
mod naming;
mod preparing;
mod reaching;
mod recording;
mod run;
mod started;
mod telling;

pub use command::validator;
pub use ended::Ended;
pub use xl_peers::Host;
