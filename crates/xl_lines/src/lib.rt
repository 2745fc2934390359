//! The driver of every command that reads lines. It cuts what a source gives into lines, hands each to a machine, and
//! writes the machine's answer to a sink as soon as the line was read. With a line it hands on whether its newline has
//! come: a last line may lack it.
//!
//! `drive` does this for any `Teller` over an input in pieces, and `Lines` is one that cuts lines for any `Machine`. It
//! stands on xl_base, xl_io and the kit's `memchr`. Its one contract: the text is a function of the bytes alone, however
//! they come. A run writes the whole text and answers its verdict, or writes a front of it and answers a fault, which it
//! does if the count of that fault rose, and only then. If a read failed, that front is the answers to the lines that
//! had ended. A machine may end its text before the input's end: it refuses a line, or has found what it looks for.
//! Nothing is read behind the piece with that line. Its answers are a text, or bytes whatever they are.
//!
//! ```
//! let mut lines = Lines::new(alloc, limits, machine);
//! match drive(&mut lines, &mut input, &mut output) {
//!     Ok(verdict) => {} // the whole text was written
//!     Err(fault) => {}  // a front of it
//! }
//! ```
#![tactic(auto)]

mod answer;
mod driver;
mod ends;
mod fault;
mod limits;
mod lines;
mod machine;
mod teller;
mod text;

pub use driver::drive;
pub use ends::without_return;
pub use fault::Fault;
pub use limits::{Limits, Overrun, Returns};
pub use lines::Lines;
pub use machine::{Machine, Next, Verdict};
pub use teller::Teller;
pub use text::Text;
