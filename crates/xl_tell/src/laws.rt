ghost use Rattle.std.specs.Prelude.{ℕ, List};
ghost use Rattle.xl_tell.specs.OwnLines.{TellsReport};

/// A law, which has no code: without the lines that begin with `event`, `sent` or `held`, what is told of a schedule is
/// its report, to the byte, and it ends as the report does. So it is of what is told soon.
pub fn law_of_telling()
    ensures { (bytes : List ℕ) → TellsReport bytes }
{}
