use xl_base::Millis;

/// The most bytes of a text of settings.
pub const MOST_BYTES: usize = 1_048_576;

/// How many ledgers a node may know whose settings don't say.
pub const USUAL_LIMIT: u32 = 16_384;

/// How many turns a node's store may take whose settings don't say.
pub const USUAL_TURNS: u64 = 10_000_000;

/// The most turns that a store may take, 2 to the power of 62.
pub const GREATEST_TURNS: u64 = 1 << 62;

/// The milliseconds from heartbeat to heartbeat where the settings don't say.
pub const USUAL_HEARTBEAT_MS: Millis = 1_000;

/// The fewest milliseconds from heartbeat to heartbeat.
pub const LEAST_HEARTBEAT_MS: Millis = 100;

/// The most milliseconds from heartbeat to heartbeat.
pub const GREATEST_HEARTBEAT_MS: Millis = 10_000;

/// The version of the validations of a node whose settings don't say, which is the least one.
pub const USUAL_SPEAK: u8 = 1;

/// The greatest version of a node's validations.
pub const GREATEST_SPEAK: u8 = 2;

/// How many bytes of a journal are written to its file where the settings don't say.
pub const USUAL_JOURNAL_BYTES: u64 = 1_000_000_000;

/// The most bytes of a journal that may be written to its file.
pub const GREATEST_JOURNAL_BYTES: u64 = 1_000_000_000_000;

/// The most milliseconds that a run with an end may take.
pub const GREATEST_RUN_MS: Millis = 1_000_000_000_000;
