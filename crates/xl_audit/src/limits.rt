/// The most bytes of a line of a written journal.
pub const MOST_BYTES: usize = 100_000;

/// The most lines of a written journal.
pub const MOST_LINES: u32 = 20_000_000;
