use xl_wire::LONGEST_FRAME;

/// The most lines of a schedule.
pub const MOST_LINES: u32 = 1_000_000;

/// The most bytes of a line, without the byte that ends it.
pub const MOST_BYTES: usize = 17_000;

/// The most bytes of a frame, and so of raw ones.
pub const MOST_RAW_BYTES: usize = LONGEST_FRAME;

/// The most ledgers that a schedule lets a node know, the root counted.
pub const MOST_LEDGERS: u32 = 16_384;

/// The most lines of a schedule that set a list.
pub const MOST_LISTS: u32 = 1_024;

/// The most names that a schedule declares; `root` isn't counted.
pub const MOST_NAMES: usize = 4_096;
