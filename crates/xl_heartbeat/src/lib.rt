//! The heartbeat of a running node: it keeps the node's list that of its publishers, lets the core's time go on, writes
//! what the core reports, and ends the run.
//!
//! Each beat waits and takes the clock's moment. It looks at a text of rolls, if there is one and a minute is over. If
//! the publishers then have another list than the one last set, it is set first. The store then has its timer, and the
//! reports are taken and a line written for each. Beats come until the time of the run is over, a write fails, memory
//! runs out or the store is full; then the heartbeat tells the store that the node is to stop. When all workers have
//! ended, the last reports are taken and written. On a bulletin, if there is one, a heartbeat tells each ten seconds how
//! the node is. What a store hands on of its journal when reports are taken goes to a recorder, if there is one, before
//! their lines are written.
//!
//! It stands on the store of xl_store, the publishers of xl_publish, the clock of xl_links, the sinks of xl_io, the
//! boards of xl_board, the files of xl_keep and the texts of xl_status. Its one contract: the calls, which stand in the
//! store's history at the places that the pass gained, are those of beats and of one stop. What was written is the lines
//! of the reports that they handed out, and each end has its cause. What was told is how the core was at places of that
//! history, and what was recorded is what the entries at those places hand on.
#![tactic(auto)]

mod beating;
mod bulletin;
mod ends;
mod handing;
mod lines;
mod looking;
mod outlets;
mod pulse;
mod relisting;
mod reporting;
mod rolls_text;
mod room;
mod standing;
mod status;
mod timing;

pub use beating::{BeatLeft, beat};
pub use bulletin::Bulletin;
pub use ends::{BeatEnd, Ending, Stopping};
pub use outlets::Outlets;
pub use pulse::Pulse;
pub use reporting::take_reports;
pub use rolls_text::RollsText;
pub use room::ROOM;
pub use standing::Standing;
pub use status::status_of_run;
pub use timing::Timing;
