/// The most lines of an input, the most bytes of a line, its newline left out and a return before it counted, and
/// whether that return belongs to the line.
#[derive(Clone, Copy, PartialEq, Eq)]
pub struct Limits {
    pub lines: usize,
    pub bytes: usize,
    pub returns: Returns,
}

/// What becomes of a return before a newline.
#[derive(Clone, Copy, PartialEq, Eq)]
pub enum Returns {
    /// The machine isn't handed it.
    Dropped,
    /// The machine is handed it, like any other byte.
    Kept,
}

/// Which limit a line goes beyond. The length is tested first, also of the line that is one too many.
#[derive(Clone, Copy, PartialEq, Eq)]
pub enum Overrun {
    /// The line has too many bytes. It is refused at the first byte that is too many.
    LongLine,
    /// The line is one too many. It is refused at its end.
    ManyLines,
}
