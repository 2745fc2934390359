ghost use Rattle.std.specs.Prelude.{◌≡◌, ◌≢◌, IfErr};
ghost use Rattle.xl_lines.specs.Rules.{closes};
ghost use Rattle.xl_texts.specs.Promises.{at_once};
ghost use Rattle.xl_texts.specs.Streams.{streams};
ghost use Rattle.xl_texts.specs.Keeps.{Keeps, SaysAlone};

use crate::TextCommand;
use std::alloc::Global;
use xl_io::{MemSink, Sink, Source, write_all};
use xl_lines::{Fault, Verdict, drive};

/// Reads the input to its end, or up to what is refused or found, and writes the command's text to the output, each
/// part as soon as it is known.
///
/// A failed read ends it with `Read`, a failed write with `Write`, and lack of memory, at any time, with `Memory`.
pub fn tell<C: TextCommand, I: Source, O: Sink>(
    alloc: Global,
    input: &mut I,
    output: &mut O,
) -> Result<Verdict, Fault>
where
    <C as TextCommand>::By: Drop,
    ensures { Keeps C.promise
        (streams (I.left input.old) (I.faults input.old) (O.held output.old) (O.faults output.old))
        (streams (I.left input.new) (I.faults input.new) (O.held output.new) (O.faults output.new)) result }
{
    let Ok(by) = C::open(alloc) else {
        return Err(Fault::Memory);
    };
    let mut by = by;
    drive(&mut by, input, output)
}

/// The same, but nothing is written before all of the text is known.
pub fn tell_at_once<C: TextCommand, I: Source, O: Sink>(
    alloc: Global,
    input: &mut I,
    output: &mut O,
) -> Result<Verdict, Fault>
where
    <C as TextCommand>::By: Drop,
    ensures keeps { Keeps (at_once C.promise)
        (streams (I.left input.old) (I.faults input.old) (O.held output.old) (O.faults output.old))
        (streams (I.left input.new) (I.faults input.new) (O.held output.new) (O.faults output.new)) result }
    ensures unwritten { IfErr result (λ fault. fault ≢ Fault.Write → output.new ≡ output.old) }
{
    let mut text = MemSink::new(alloc, usize::MAX, Vec::new(alloc));
    match tell::<C, I, MemSink>(alloc, input, &mut text) {
        Ok(verdict) => {
            let Ok(()) = write_all(output, text.held()) else {
                return Err(Fault::Write);
            };
            Ok(verdict)
        }
        Err(Fault::Read) => Err(Fault::Read),
        // The text has no place if memory runs out.
        Err(Fault::Write) => Err(Fault::Memory),
        Err(Fault::Memory) => Err(Fault::Memory),
    }
}

/// Writes a text that needs no input.
pub fn say<O: Sink>(output: &mut O, text: &[u8], verdict: Verdict) -> Result<Verdict, Fault>
    ensures { SaysAlone (closes text.now verdict)
        (O.held output.old) (O.faults output.old) (O.held output.new) (O.faults output.new) result }
{
    let Ok(()) = write_all(output, text) else {
        return Err(Fault::Write);
    };
    Ok(verdict)
}
