ghost use Rattle.std.specs.Prelude.{◌≡◌};
ghost use Rattle.xl_tags.specs.Codes.{code_of};

/// Why a frame isn't opened. The causes are tested in this order, and the first that holds is the answer.
#[derive(Clone, Copy, Debug, PartialEq, Eq)]
pub enum TagRefusal {
    /// The frame is for this number, which isn't mine.
    NotForMe(u32),
    /// The frame comes from this number, which is mine or stands on no list of mine.
    Stranger(u32),
    /// The frame carries the first tag, and the second is the one under our key.
    BadTag { read: [u8; 32], computed: [u8; 32] },
}

impl TagRefusal {
    /// The number of the refusal.
    pub fn code(self) -> u32
        ensures { result ≡ code_of self }
    {
        match self {
            TagRefusal::NotForMe(_) => 8,
            TagRefusal::Stranger(_) => 9,
            TagRefusal::BadTag { .. } => 10,
        }
    }
}
