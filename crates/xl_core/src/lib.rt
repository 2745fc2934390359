//! One node as a function of what happens at it, and its queues.
//!
//! `Node` issues validations, hears what its list's members say, reports a ledger as fully validated once a quorum of
//! the members' current full validations name it, and knows the ledger that their votes prefer. Members say
//! validations, headers of ledgers, proposals, sets of transactions, and transactions. It has a round of consensus on a
//! ledger: a timer lets that go on, or switches to the ledger that the votes choose, and builds the next ledger once
//! the round is ready.
//!
//! `Core` is a node with what waits at it: what it says waits for every peer until it is drained into frames, and what
//! it reports until it is handed out. What waits for the peers is kept once, with a place for each of them: who is
//! overrun loses the oldest items, and they are counted. A peer that is greeted is handed the headers of a chain before
//! them. `CoreEvent` is everything that may happen to a core, drains and handing out included.
//!
//! It stands on xl_validations, xl_rounds and xl_ledger, on xl_queues, on xl_io's keepers, and on xl_wire and xl_tags,
//! by which it reads, opens and seals frames. Its one contract: each call leaves the core and answers as
//! `core_happens` says of its event. So nothing is said before the keeper has saved its sequence. No call after `open`
//! except `reopen` takes memory.
//!
//! Cores of one network may share what they hash, by the calls that are handed `Hashes`: what one of them hashed isn't
//! hashed again by the next, and no call does anything else by what is in there.
//!
//! ```
//! let mut core = Core::open(alloc, settings, now, 0)?;
//! core.timer(now, &mut keeper);
//! let written = core.drain(peer, &mut room); // whole sealed frames, for a link to the peer
//! // and at the peer, with each of them
//! other.frame(now, &room[..length])?;
//! if other.reports(&mut reports) == 1 {
//!     assert_eq!(reports[0].seq, 1);
//! }
//! ```
#![tactic(auto)]

mod core_answer;
mod deed;
mod event;
mod hashes;
mod hearing;
mod item;
mod last;
mod last_built;
mod laws;
mod node;
mod putting;
mod refusal;
mod report;
mod sending;
mod settings;
mod taken;
mod the_core;
mod timer_answer;
mod timer_part;

pub use core_answer::CoreAnswer;
pub use deed::Deed;
pub use event::CoreEvent;
pub use hashes::Hashes;
pub use hearing::{Speech, Spoken};
pub use item::Item;
pub use last::LastReport;
pub use laws::{law_of_constants, law_of_handed_reports, law_of_reports, law_of_saves};
pub use node::Node;
pub use refusal::Refusal;
pub use report::{OwnValidation, Report};
pub use settings::Settings;
pub use taken::Taken;
pub use the_core::{Core, Greeting, OUTGOING, UNTAKEN};
pub use timer_answer::{Issued, TimerAnswer};
