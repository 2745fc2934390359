use xl_lines::{Limits, Returns};
use xl_sched::{MOST_BYTES, MOST_LINES};

/// The limits of a schedule.
pub const LIMITS: Limits = Limits {
    lines: MOST_LINES as usize,
    bytes: MOST_BYTES,
    returns: Returns::Dropped,
};
