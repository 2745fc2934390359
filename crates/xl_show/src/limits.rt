/// The most bytes of a stream that is shown.
pub const MOST_BYTES: usize = 268_435_456;
