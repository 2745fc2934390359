//! Two sessions of xl_peers behind one gate, from a crate at the top: while one waits there, it keeps no turn. It runs the example in the
//! head of xl_world, too.
//!
//! It has tests alone, and no call of its own.
#![tactic(auto)]

#[cfg(test)]
mod fixtures;
#[cfg(test)]
mod gates;
#[cfg(test)]
mod worlds;
