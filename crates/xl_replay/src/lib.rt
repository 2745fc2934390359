//! `xl replay`: a schedule of deliveries, losses, repeats and restarts is read line by line, and what each node does
//! is written.
//!
//! The replayer is a machine for xl_lines: a line is taken into the schedule that runs, and what came of it is told. At
//! the end it tells whose quorums aren't enough, how many frames were forged, and whether the reports agree.
//!
//! It stands on xl_texts and xl_running. Its one contract: what `Replay` writes is the report of the schedule, a function
//! of the bytes that the source held, and `law_of_reports` says that in that text reports agree wherever quorums are
//! enough.
#![tactic(auto)]

mod command;
mod ends;
mod laws;
mod outcomes;
mod replayer;
mod words;

pub use command::Replay;
pub use ends::push_end;
pub use laws::{law_of_readings, law_of_reports};
pub use outcomes::{push_how, push_outcomes};
