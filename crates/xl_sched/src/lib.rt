//! The reader of schedules: a line of bytes becomes an event, a declaration, or a refusal with its cause.
//!
//! A schedule begins with the line `xl-schedule 1`. Its lines are tokens parted by spaces and tabs, and each begins
//! with a word: `limit`, `speak`, `node`, `liar`, `at`, `name`, `ledger`, `issue`, `submit`, `timer`, `timers`,
//! `deliver`, `all`, `drop`, `greet`, `restart`, `cut`, `fail`, `list`, `lie`, `raw`, `prefer` or `heard`. Empty lines
//! and those that begin with `#` say nothing.
//!
//! Its tokens, numbers, faults and the line of a refusal are there for other readers of lines, as xl_merge.
//!
//! It stands on xl_base, xl_lines, xl_lists, xl_ledger, xl_wire and the kit's `hex`. Its one contract: what `Reader::read_line`
//! answers is the grammar, and a refused line changes nothing.
#![tactic(auto)]

mod bad_lines;
mod choices;
mod event;
mod fault;
mod favor;
mod ledger;
mod limits;
mod line;
mod members;
mod named;
mod names;
mod nodes;
mod numbers;
mod places;
mod printed;
mod reader;
mod refusal;
mod tokens;
mod tx_sets;
mod word;

pub use bad_lines::{beyond, push_bad};
pub use choices::full;
pub use event::{Ask, Event, Lied, What};
pub use fault::{Cause, LineFault};
pub use favor::Favor;
pub use ledger::Ledger;
pub use limits::{MOST_BYTES, MOST_LEDGERS, MOST_LINES, MOST_LISTS, MOST_NAMES, MOST_RAW_BYTES};
pub use line::Line;
pub use members::{member, members as member_numbers, trusted};
pub use named::Named;
pub use numbers::{number, number_within};
pub use printed::printed_token;
pub use reader::Reader;
pub use refusal::SchedRefusal;
pub use tokens::Tokens;
