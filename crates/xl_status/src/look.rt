/// What became of the last look at a text of rolls.
#[derive(Clone, Copy, PartialEq, Eq)]
pub enum Look {
    /// No line was refused.
    Taken,
    /// The text couldn't be read.
    Unread,
    /// The line of this number was refused, as the first, with this code.
    Refused { line: u32, code: u32 },
}
