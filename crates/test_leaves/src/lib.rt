//! The lowest crates held against what others computed: published vectors, Python's hashlib and hmac, and tables made by hand. And streams
//! of the standard library, as no contract tells them.
//!
//! It has tests alone, and no call of its own. They stand here and not in the crates that they try, each of which would be proved twice.
#![tactic(auto)]

#[cfg(test)]
mod close_times;
#[cfg(test)]
mod frames;
#[cfg(test)]
mod hashes;
#[cfg(test)]
mod headers;
#[cfg(test)]
mod quorums;
#[cfg(test)]
mod streams;
#[cfg(test)]
mod tags;
