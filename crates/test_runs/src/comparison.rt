ghost use Rattle.std.specs.Prelude.{◌≡◌, ◌↔◌, length, min, take};

use std::fmt;

/// What became of a run.
#[derive(Clone, Copy, PartialEq, Eq)]
pub enum Comparison {
    Same,
    /// It ended with this status.
    OtherStatus(u8),
    /// What it wrote differs, in this line for the first time.
    OtherText(u64),
    /// The line that should tell of a run doesn't.
    NoRun,
}

impl fmt::Display for Comparison {
    fn fmt<W: fmt::Write>(&self, f: &mut fmt::Formatter<W>) -> fmt::Result {
        match self {
            Comparison::Same => write!(f, "same"),
            Comparison::OtherStatus(status) => write!(f, "ended with status {status}"),
            Comparison::OtherText(line) => write!(f, "wrote another line {line}"),
            Comparison::NoRun => write!(f, "is no run"),
        }
    }
}

/// The line, from 1, in which two texts differ for the first time. If one is a front of the other it is the line
/// behind.
fn first_other_line(text: &[u8], wanted: &[u8]) -> u64 {
    let mut line: u64 = 1;
    for (is, should) in text.iter().zip(wanted.iter()) {
        if *is != *should {
            break;
        }
        if *is == b'\n' {
            line = line.saturating_add(1);
        }
    }
    line
}

/// Compares a status and a text with those that they should be.
pub fn compare(status: u8, text: &[u8], wanted_status: u8, wanted: &[u8]) -> Comparison
    ensures { (result ≡ Comparison.Same) ↔ ((status ≡ wanted_status) × (text.now ≡ wanted.now)) }
{
    if status != wanted_status {
        Comparison::OtherStatus(status)
    } else if *text != *wanted {
        Comparison::OtherText(first_other_line(text, wanted))
    } else {
        Comparison::Same
    }
}

/// Compares a status and a text with the status and a front of the text that they should be.
pub fn compare_front(status: u8, text: &[u8], wanted_status: u8, wanted: &[u8]) -> Comparison
    ensures { (result ≡ Comparison.Same) ↔ ((status ≡ wanted_status)
        × (text.now ≡ take (min (length text.now) (length wanted.now)) wanted.now)) }
{
    let count = text.len().min(wanted.len());
    compare(status, text, wanted_status, &wanted[..count])
}
