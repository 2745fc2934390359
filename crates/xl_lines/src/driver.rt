ghost use Rattle.std.specs.Prelude.{◌≡◌, ◌≢◌, ◌≤◌, true, ℕ, List, [], IfOk, IfSome, IfErr, IsErrOf};
ghost use Rattle.std.specs.Io.KnownBytes.{IsAtEnd, append_known};
ghost use Rattle.xl_base.specs.Faults.{Rose};
ghost use Rattle.xl_io.specs.Sinks.{GrewByFront, GrewByLess};
ghost use Rattle.xl_lines.specs.Causes.{IsAloud};
ghost use Rattle.xl_lines.specs.Running.{TellsAll};
ghost use Rattle.xl_lines.specs.Soon.{silence, WasRead, ReadsNoFurther};
ghost use Rattle.xl_lines.specs.Ends.{ReadsOn};

use crate::{Fault, Next, Teller, Verdict};
use xl_io::{Piece, Sink, Source};

/// The bytes that a read is asked for.
const ROOM: usize = 8192;

/// Reads the input to its end, or up to what is refused or found, and writes what is told about it to the output.
///
/// A failed read ends it with `Read`, a failed write with `Write`, and lack of memory, at any time, with `Memory`.
pub fn drive<T: Teller, I: Source, O: Sink>(
    teller: &mut T,
    input: &mut I,
    output: &mut O,
) -> Result<Verdict, Fault>
    // The whole text is written, and the verdict is its own.
    ensures whole { IfOk result (λ verdict. IfSome (I.left input.old) (λ bytes.
        TellsAll (O.held output.old) (O.held output.new) verdict (T.tells teller.old bytes))) }
    // If the text is told of the whole input, all the bytes were read. So they were if the verdict is `Good`, and
    // if it isn't `Refused`, if nothing else ends the text early.
    ensures closed { IfOk result (λ _. IfSome (I.left input.old) (λ bytes.
        (T.tells teller.old bytes).closed ≡ true → IsAtEnd (I.left input.new))) }
    ensures good { IfOk result (λ verdict. verdict ≡ Verdict.Good → IsAtEnd (I.left input.new)) }
    ensures to_end { ReadsOn T.tells → IfOk result (λ verdict. verdict ≢ Verdict.Refused → IsAtEnd (I.left input.new)) }
    // A front of the text is written, whatever happens.
    ensures front { IfSome (I.left input.old) (λ bytes.
        GrewByFront (O.held output.old) (O.held output.new) (T.tells teller.old bytes).text) }
    // If a read failed, all is written that is told as soon as the bytes that were read have come, and no more, if
    // nothing is told before the first byte.
    ensures soon { T.soon teller.old [] ≡ silence → IsErrOf result Fault.Read → (bytes : List ℕ) →
        WasRead (I.left input.old) (I.left input.new) bytes →
        O.held output.new ≡ append_known (O.held output.old) (T.soon teller.old bytes).text }
    // A failed read isn't answered behind the end of the text.
    ensures unended { T.soon teller.old [] ≡ silence → IsErrOf result Fault.Read → (bytes : List ℕ) →
        WasRead (I.left input.old) (I.left input.new) bytes → (T.soon teller.old bytes).closed ≡ true }
    // However it ends, nothing is read behind the piece in which the text ends.
    ensures further { T.soon teller.old [] ≡ silence → (bytes : List ℕ) →
        WasRead (I.left input.old) (I.left input.new) bytes → ReadsNoFurther (T.soon teller.old) bytes }
    // With a fault of the source or the sink some of the text isn't written, if there is always some to come.
    ensures less { IsAloud T.tells → IfErr result (λ fault. fault ≢ Fault.Memory → IfSome (I.left input.old) (λ bytes.
        GrewByLess (O.held output.old) (O.held output.new) (T.tells teller.old bytes).text)) }
    // With a fault of the sink it always isn't.
    ensures cut { IsErrOf result Fault.Write → IfSome (I.left input.old) (λ bytes.
        GrewByLess (O.held output.old) (O.held output.new) (T.tells teller.old bytes).text) }

    // A fault is answered if its count rose, and only then.
    ensures read { IsErrOf result Fault.Read → Rose (I.faults input.old) (I.faults input.new) }
    ensures write { IsErrOf result Fault.Write → Rose (O.faults output.old) (O.faults output.new) }
    ensures read_exact { ¬ IsErrOf result Fault.Read → I.faults input.new ≡ I.faults input.old }
    ensures write_exact { ¬ IsErrOf result Fault.Write → O.faults output.new ≡ O.faults output.old }
    ensures complete { IfErr result (λ fault. ¬ Rose (I.faults input.old) (I.faults input.new)
        → ¬ Rose (O.faults output.old) (O.faults output.new) → fault ≡ Fault.Memory) }
    ensures later_read { I.faults input.old ≤ I.faults input.new }
    ensures later_write { O.faults output.old ≤ O.faults output.new }
{
    let mut room = [0; ROOM];
    loop {
        match input.read(&mut room) {
            Piece::Got(count) => match teller.feed(output, &room[..count])? {
                Next::Line => {}
                Next::Refused => return Ok(Verdict::Refused),
                Next::Found => return Ok(Verdict::Found),
            },
            Piece::End => return teller.finish(output),
            Piece::Failed => return Err(Fault::Read),
        }
    }
}
