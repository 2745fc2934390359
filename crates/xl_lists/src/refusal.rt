ghost use Rattle.std.specs.Prelude.{◌≡◌};
ghost use Rattle.xl_lists.specs.Lists.{code_of};

/// Why numbers and a quorum are no list. The causes are tested in this order, and the first that holds is answered.
#[derive(Clone, Copy, Debug, PartialEq, Eq)]
pub enum ListRefusal {
    /// There are no members.
    Empty,
    /// There are this many members, above 64.
    TooMany(usize),
    /// The first number that is no member's, being outside 1 to 64.
    OutOfRange(u32),
    /// The first member that stood before.
    Repeated(u32),
    /// The quorum is above the number of members, or at most half of it.
    Quorum { quorum: u32, members: u32 },
}

impl ListRefusal {
    /// The number of the refusal.
    pub fn code(self) -> u32
        ensures { result ≡ code_of self }
    {
        match self {
            ListRefusal::Empty => 11,
            ListRefusal::TooMany(_) => 12,
            ListRefusal::OutOfRange(_) => 15,
            ListRefusal::Repeated(_) => 13,
            ListRefusal::Quorum { .. } => 14,
        }
    }
}
