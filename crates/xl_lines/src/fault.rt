use xl_base::OutOfMemory;
use xl_io::Failed;

/// Why a text wasn't written whole.
#[derive(Clone, Copy, PartialEq, Eq)]
pub enum Fault {
    /// A read of the source failed.
    Read,
    /// A write to the sink failed.
    Write,
    /// Memory ran out.
    Memory,
}

impl From<OutOfMemory> for Fault {
    ghost use Rattle.std.specs.Prelude.{◌≡◌};
    ghost use Rattle.xl_lines.specs.declared.fault.Fault.TheVariants.{Memory};

    ghost from_gives = { λ _ fault. fault ≡ Memory };

    fn from(_: OutOfMemory) -> Self {
        Fault::Memory
    }
}

/// Only a sink answers `Failed` here: a source says it by its piece.
impl From<Failed> for Fault {
    ghost use Rattle.std.specs.Prelude.{◌≡◌};
    ghost use Rattle.xl_lines.specs.declared.fault.Fault.TheVariants.{Write};

    ghost from_gives = { λ _ fault. fault ≡ Write };

    fn from(_: Failed) -> Self {
        Fault::Write
    }
}
