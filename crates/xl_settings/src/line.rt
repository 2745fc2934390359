ghost use Rattle.std.specs.Prelude.{◌≡◌, ◌≤◌, OnOk, OnErr};
ghost use Rattle.std.specs.Io.KnownBytes.{append_known};
ghost use Rattle.xl_base.specs.Faults.{Rose};
ghost use Rattle.xl_io.specs.Sinks.{GrewByFront, GrewByLess};
ghost use Rattle.xl_settings.specs.Lines.{refusal_line};

use crate::SettingsRefusal;
use xl_io::{Failed, Sink, write_all};

/// Writes the line that tells a refusal: `settings`, and what is refused. It takes no memory.
///
/// It fails if a write of the sink does, and the sink then holds a front of the line, not all.
pub fn write_refusal<O: Sink>(output: &mut O, refusal: &SettingsRefusal) -> Result<(), Failed>
    ensures whole { OnOk result (O.held output.new ≡ append_known (O.held output.old) (refusal_line refusal.now)) }
    ensures front { GrewByFront (O.held output.old) (O.held output.new) (refusal_line refusal.now) }
    ensures less { OnErr result (GrewByLess (O.held output.old) (O.held output.new) (refusal_line refusal.now)) }
    ensures later { O.faults output.old ≤ O.faults output.new }
    ensures failed { OnErr result (Rose (O.faults output.old) (O.faults output.new)) }
{
    write_all(output, b"settings ")?;
    write_all(output, refusal.text())?;
    write_all(output, b"\n")
}
