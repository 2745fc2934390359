ghost use Rattle.std.specs.Prelude.{◌≡◌};
ghost use Rattle.xl_publish.specs.Codes.{line_code_of};

use crate::RollRefusal;

/// Why a line of a text isn't taken as a roll. The causes are tested in this order, and the first that holds is
/// answered.
#[derive(Clone, Copy, PartialEq, Eq)]
pub enum LineRefusal {
    /// It isn't an even number of hexadecimal digits, or it is more than those of the longest roll.
    Digits,
    /// Its bytes aren't taken as a roll.
    Roll(RollRefusal),
    /// This member is the first that the roll names and may not name.
    Stranger(u32),
}

/// A line of a text that isn't taken. Lines are counted from 1.
#[derive(Clone, Copy, PartialEq, Eq)]
pub struct RefusedLine {
    pub number: u32,
    pub cause: LineRefusal,
}

impl LineRefusal {
    /// The number of the refusal.
    pub fn code(self) -> u32
        ensures { result ≡ line_code_of self }
    {
        match self {
            LineRefusal::Digits => 39,
            LineRefusal::Roll(refusal) => refusal.code(),
            LineRefusal::Stranger(_) => 48,
        }
    }
}
