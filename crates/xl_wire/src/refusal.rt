ghost use Rattle.std.specs.Prelude.{◌≡◌};
ghost use Rattle.xl_wire.specs.Codes.{code_of};

/// Why bytes are no frame. The causes are tested in this order, a count before an order, and the first that holds is
/// told.
#[derive(Clone, Copy, Debug, PartialEq, Eq)]
pub enum WireRefusal {
    /// The byte at this place, 0 or 1, is the first that isn't the mark's.
    Magic(usize),
    /// Another version than 1.
    Version(u8),
    /// No kind has this number.
    Kind(u8),
    /// A body of this kind can't have this length.
    Length { kind: u8, length: u16 },
    /// The flags of a validation are above 1.
    Flags(u8),
    /// The id at this place of a set, counted from 0, is the first that isn't greater than the one before.
    Order(usize),
    /// A set counts this many ids, and its length is another number's.
    Count(u16),
}

impl WireRefusal {
    /// The number of the refusal.
    pub fn code(self) -> u32
        ensures { result ≡ code_of self }
    {
        match self {
            WireRefusal::Magic(_) => 1,
            WireRefusal::Version(_) => 2,
            WireRefusal::Kind(_) => 3,
            WireRefusal::Length { .. } => 4,
            WireRefusal::Flags(_) => 5,
            WireRefusal::Order(_) => 6,
            WireRefusal::Count(_) => 7,
        }
    }
}
