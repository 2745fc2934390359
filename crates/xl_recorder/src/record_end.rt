use xl_base::OutOfMemory;
use xl_io::Failed;

/// Why a recorder writes no more.
#[derive(Clone, Copy, PartialEq, Eq)]
pub enum RecordEnd {
    /// A write failed.
    Write,
    /// Memory ran out.
    Memory,
    /// The text would grow beyond its bytes, or beyond the lines that an auditor takes.
    Full,
    /// What came doesn't stand behind what came before.
    Apart,
}

impl From<OutOfMemory> for RecordEnd {
    ghost use Rattle.std.specs.Prelude.{◌≡◌};
    ghost use Rattle.xl_recorder.specs.declared.record_end.RecordEnd.TheVariants.{Memory};

    ghost from_gives = { λ _ end. end ≡ Memory };

    fn from(_: OutOfMemory) -> Self {
        RecordEnd::Memory
    }
}

impl From<Failed> for RecordEnd {
    ghost use Rattle.std.specs.Prelude.{◌≡◌};
    ghost use Rattle.xl_recorder.specs.declared.record_end.RecordEnd.TheVariants.{Write};

    ghost from_gives = { λ _ end. end ≡ Write };

    fn from(_: Failed) -> Self {
        RecordEnd::Write
    }
}
