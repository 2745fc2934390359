/// Why a member's vote isn't taken. All stays then.
#[derive(Clone, Copy, PartialEq, Eq)]
pub enum FlagRefusal {
    /// More than 4096 different amendments would be named.
    TooMany,
    OutOfMemory,
}
