//! One core and its keeper, shared by threads. All calls of all threads stand in one legal history.
//!
//! A store has the calls of the core. Each is one turn of a ticket lock: it waits until those before it are done, and
//! has the core and the keeper for itself. It leaves one entry in the journal, which tells the event and how its save
//! was answered. Only contracts see the journal. A store that was asked to keep its entries has each of them in memory
//! too. The memory of an entry is taken before the turn, and the turn itself moves one pointer. That for a node's end is
//! taken when the store opens. So the body of each call enters, calls the core, and finishes. Each caller has a pass,
//! which has seen a beginning of the journal; a pass may be split for another thread, and two may be joined. Who has the
//! whole share closes the store, and gets core, keeper and journal, and the entries that are kept. A store may be asked
//! to keep entries only until reports are taken, and hands them on then, for a recorder.
//!
//! It stands on the lock of xl_turns and on the core of xl_core. Its one contract: the journal is a legal history of
//! the core that the store was opened with, and each call answers what the core's step answers at its place in it. The
//! entries that are kept are the journal. A status is what the core tells of its node at a place, without the keys.
//!
//! ```
//! let (store, mut pass) = Store::open(alloc, core, keeper, 10)?;
//! assert_eq!(store.issue(rt, &mut pass, 1_000, 1, id, true), Ok(Ok(())));
//! store.reports(rt, &mut pass, &mut room)?;
//! assert_eq!(room[0].seq, 1);
//! let journal = store.close(pass).left;
//! ```
#![tactic(auto)]

mod entry;
mod history;
mod home;
mod journal;
mod outcome;
mod page;
mod recorder;
mod retention;
mod spares;
mod status;
mod store;

pub use entry::{Entry, Saved};
pub use history::Histories;
pub use home::Home;
pub use journal::{Entries, Journal};
pub use recorder::Recorder;
pub use retention::{Batch, Retention};
pub use status::NodeStatus;
pub use store::{Closed, Handed, Pass, Spared, Store, StoreEnd};
