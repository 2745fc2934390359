//! A region of slots with names. A name is good for one value: once that value is given back, the slot's generation
//! rises, and the name finds nothing.
//!
//! It stands on no other crate. A pool takes its memory once, when it is made, and every later call takes a fixed number
//! of steps. Its one contract: a pool is a finite map from the names of its live values, with one generation a slot.
#![tactic(auto)]

mod entry;
mod name;
mod pool;
mod refusal;

pub use name::Name;
pub use pool::Pool;
pub use refusal::{Full, Stale};
