ghost use Rattle.std.specs.Prelude.{◌≡◌};
ghost use Rattle.xl_base.specs.Statuses.{code_of};

/// How a run of the program ended.
#[derive(Clone, Copy, PartialEq, Eq)]
pub enum Status {
    /// The input was read to its end, all was written, and no fork was found.
    Done,
    /// Two honest nodes reported different ledgers of one sequence.
    Fork,
    /// The words of the command line were refused, and nothing was read or written.
    WordsRefused,
    /// A line of the input was refused, and the output says which.
    InputRefused,
    /// A read of the input failed.
    ReadFault,
    /// A write of the output failed.
    WriteFault,
    OutOfMemory,
    /// The keeper of the last issued sequence failed.
    KeepFault,
    /// A link to a peer could not be opened.
    NetFault,
    /// The store has taken as many turns as it may.
    StoreFull,
}

impl Status {
    /// The exit status of the program, 0 to 9 in the order of the variants.
    pub fn code(self) -> u8
        ensures { result ≡ code_of self }
    {
        self as u8
    }
}
