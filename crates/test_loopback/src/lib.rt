//! Links over loopback and the system's clock, as no contract tells them: what the system's sockets and clocks are asked for.
//!
//! It has tests alone, and no call of its own. They stand here and not in xl_tcp, which would be proved twice.
#![tactic(auto)]

#[cfg(test)]
mod bytes;
#[cfg(test)]
mod clocks;
#[cfg(test)]
mod peers;
#[cfg(test)]
mod strangers;
