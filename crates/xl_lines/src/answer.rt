// The answers of a machine, written to an output as soon as they are given.
ghost use Rattle.std.specs.Prelude.{◌≡◌, ◌<◌, IfOk, OnOk, IsErrOf};
ghost use Rattle.std.specs.Io.KnownBytes.{append_known};
ghost use Rattle.xl_io.specs.Sinks.{GrewByFront, GrewByLess};
ghost use Rattle.xl_lines.specs.Causes.{HasCause};
ghost use Rattle.xl_lines.specs.Rules.{step_given};
ghost use Rattle.xl_lines.specs.Told.{step_within};
ghost use Rattle.xl_lines.specs.Running.{TellsAll, step_text};

use crate::{Fault, Machine, Next, Overrun, Text, Verdict};
use xl_io::{Sink, write_all};

/// Writes the last text for a line that goes beyond a limit. `text` holds it then.
pub fn refuse<M: Machine, O: Sink>(
    machine: &mut M,
    output: &mut O,
    overrun: Overrun,
    text: &mut M::Answer,
) -> Result<(), Fault>
    ensures text { OnOk result (M.Answer.bytes text.new ≡ (M.rules).overrun (M.state machine.old) overrun) }
    ensures held { OnOk result (O.held output.new
        ≡ append_known (O.held output.old) ((M.rules).overrun (M.state machine.old) overrun)) }
    ensures front { GrewByFront (O.held output.old) (O.held output.new)
        ((M.rules).overrun (M.state machine.old) overrun) }
    ensures less { IsErrOf result Fault.Write → GrewByLess (O.held output.old) (O.held output.new)
        ((M.rules).overrun (M.state machine.old) overrun) }
    ensures cause { HasCause (O.faults output.old) (O.faults output.new) result }
{
    text.clear();
    machine.overrun(overrun, text)?;
    write_all(output, text.as_bytes())?;
    Ok(())
}

/// Hands a line to the machine if `left` lines may come, refuses it if none may, and writes the answer. `text` holds it
/// then.
pub fn answer<M: Machine, O: Sink>(
    machine: &mut M,
    output: &mut O,
    left: usize,
    line: &[u8],
    ended: bool,
    text: &mut M::Answer,
) -> Result<Next, Fault>
    ensures step { IfOk result (λ next. step_given next (M.Answer.bytes text.new) (M.state machine.new)
        ≡ step_within M.rules left (M.state machine.old) line.now ended) }
    ensures within { IfOk result (λ next. next ≡ Next.Line → 0 < left) }
    ensures held { OnOk result (O.held output.new ≡ append_known (O.held output.old) (M.Answer.bytes text.new)) }
    ensures front { GrewByFront (O.held output.old) (O.held output.new)
        (step_text (step_within M.rules left (M.state machine.old) line.now ended)) }
    ensures less { IsErrOf result Fault.Write → GrewByLess (O.held output.old) (O.held output.new)
        (step_text (step_within M.rules left (M.state machine.old) line.now ended)) }
    ensures cause { HasCause (O.faults output.old) (O.faults output.new) result }
{
    if left == 0 {
        refuse(machine, output, Overrun::ManyLines, text)?;
        return Ok(Next::Refused);
    }
    text.clear();
    let next = machine.line(line, ended, text)?;
    let answer = text.as_bytes();
    if !answer.is_empty() {
        write_all(output, answer)?;
    }
    Ok(next)
}

/// Writes the last text of a whole input. `text` holds it then.
pub fn close<M: Machine, O: Sink>(
    machine: &mut M,
    output: &mut O,
    text: &mut M::Answer,
) -> Result<Verdict, Fault>
    ensures all { IfOk result (λ verdict. TellsAll (O.held output.old) (O.held output.new) verdict
        ((M.rules).closing (M.state machine.old))) }
    ensures front { GrewByFront (O.held output.old) (O.held output.new)
        ((M.rules).closing (M.state machine.old)).text }
    ensures less { IsErrOf result Fault.Write → GrewByLess (O.held output.old) (O.held output.new)
        ((M.rules).closing (M.state machine.old)).text }
    ensures cause { HasCause (O.faults output.old) (O.faults output.new) result }
{
    text.clear();
    let verdict = machine.close(text)?;
    write_all(output, text.as_bytes())?;
    Ok(verdict)
}
