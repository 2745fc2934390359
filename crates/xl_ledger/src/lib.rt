//! Ledgers as a node knows them: their headers, the chain of each, and what a branch that votes prefer is.
//!
//! Headers have one spelling and are named by its half hash. A registry takes a header where it follows a known ledger;
//! so each ledger has a chain, the ledgers from the root to it. Chains are followed by a walk alone, which counts its
//! steps: with each ledger stand its ancestors 1, 2, 4 and so on places up, so each way along a chain is a few jumps.
//!
//! It stands on xl_base and the kit's `byteorder`; only opening a registry takes memory. Its one contract: what a
//! registry and a walk answer is read from the list of headers, and a `Branch` prefers what counting its votes over
//! whole chains does.
//!
//! Two ledgers follow one, whose header is `a`:
//!
//! ```
//! let mut registry = Registry::open(alloc, 4)?;
//! let fork = registry.add(&a)?;
//! let left = registry.add(&b)?;
//! let right = registry.add(&c)?;
//! let mut walk = registry.walk();
//! assert_eq!(walk.common(left, right), fork);
//! assert_eq!(walk.ancestor(right, 0), LedgerNo::root());
//! ```
#![tactic(auto)]

mod branch;
mod header;
mod jumps;
mod laws;
mod ledger;
mod ledger_no;
mod link;
mod refusal;
mod registry;
mod table;
mod vote;
mod walk;

pub use branch::Branch;
pub use header::{Header, build_next, header_bytes, id_of, read_header, root_header};
pub use laws::{law_of_votes, limits};
pub use ledger_no::LedgerNo;
pub use refusal::AddRefusal;
pub use registry::{GREATEST_LIMIT, LEAST_LIMIT, Registry};
pub use vote::Vote;
pub use walk::Walk;
