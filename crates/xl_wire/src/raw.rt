ghost use Rattle.std.specs.Prelude.{◌≡◌};
ghost use Rattle.xl_wire.specs.Kinds.{IsLawful, span};

/// A whole frame whose body isn't read yet. It borrows the bytes that it was split off.
#[derive(Clone, Copy)]
pub struct Raw<'a> {
    /// 1 or 2.
    pub version: u8,
    pub kind: u8,
    /// The member that sent it: any number.
    pub from: u32,
    /// The member that it is for: any number.
    pub to: u32,
    pub body: &'a [u8],
    /// The seal over all bytes before it.
    pub tag: [u8; 32],
    /// How many bytes the whole frame has.
    pub length: usize,
    /// A body of the version and the kind can have this length.
    ghost lawful: { IsLawful version kind body.now },
    ghost whole: { length ≡ span body.now },
}
