ghost use Rattle.std.specs.Prelude.{◌≡◌};
ghost use Rattle.xl_publish.specs.Codes.{code_of};

use xl_base::Secs;

/// Why bytes aren't taken as a roll. The causes are tested in this order, and the first that holds is answered.
#[derive(Clone, Copy, PartialEq, Eq)]
pub enum RollRefusal {
    /// The byte at this place, 0 or 1, is the first that isn't the mark's.
    Magic(usize),
    /// Another version than 1.
    Version(u8),
    /// This many members are counted, none or above 64.
    Count(u16),
    /// This many bytes lack: up to the end of the count, and once that is there up to the end of the roll.
    Short(usize),
    /// This many bytes follow the roll.
    Long(usize),
    /// The publisher of this number has no key.
    Unknown(u32),
    /// The roll carries the first tag, and the second is the one under the publisher's key.
    BadTag { read: [u8; 32], computed: [u8; 32] },
    /// The member at this place, counted from 0, is the first outside 1 to 64 or not above the one before.
    Member(usize),
    /// The first second isn't below the second at which the roll ends.
    Dates { from: Secs, until: Secs },
}

impl RollRefusal {
    /// The number of the refusal.
    pub fn code(self) -> u32
        ensures { result ≡ code_of self }
    {
        match self {
            RollRefusal::Magic(_) => 49,
            RollRefusal::Version(_) => 50,
            RollRefusal::Count(_) => 51,
            RollRefusal::Short(_) => 52,
            RollRefusal::Long(_) => 53,
            RollRefusal::Unknown(_) => 54,
            RollRefusal::BadTag { .. } => 55,
            RollRefusal::Member(_) => 56,
            RollRefusal::Dates { .. } => 57,
        }
    }
}
