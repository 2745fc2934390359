/// The most journals of one text.
pub const MOST_JOURNALS: usize = 1_000;
