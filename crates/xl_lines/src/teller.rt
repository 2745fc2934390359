ghost use Rattle.std.specs.Prelude.{◌≡◌, ◌+◌, ◌≤◌, true, ℕ, List, [], ◌++◌, length, IfOk, IsErrOf};
ghost use Rattle.std.specs.Io.KnownBytes.{append_known};
ghost use Rattle.xl_io.specs.Sinks.{GrewByFront, GrewByLess};
ghost use Rattle.xl_lines.specs.Causes.{HasCause};
ghost use Rattle.xl_lines.specs.Rules.{Told};
ghost use Rattle.xl_lines.specs.Told.{after};
ghost use Rattle.xl_lines.specs.Running.{Tells, TellsAll, left_unless_ended};

use crate::{Fault, Next, Verdict};
use xl_io::Sink;

/// What tells a text about bytes that come in pieces.
pub trait Teller {
    /// What it tells about all the bytes that are still to come.
    ghost tells: { Self → List ℕ → Told };

    /// What of that it tells as soon as these bytes have come. It is closed unless they end the text.
    ghost soon: { Self → List ℕ → Told };

    /// How many bytes may come at most before it refuses them.
    ghost to_come: { Self → ℕ };

    /// Takes the next bytes, and writes what they make it tell. It isn't used again after another answer than `Line`.
    fn feed<O: Sink>(&mut self, output: &mut O, bytes: &[u8]) -> Result<Next, Fault>
        ensures ok { IfOk result (λ next. (rest : List ℕ) →
            Tells (O.held output.old) (O.held output.new) (tells self.old (bytes.now ++ rest))
            (left_unless_ended next (tells self.new rest))) }
        ensures front { (rest : List ℕ) →
            GrewByFront (O.held output.old) (O.held output.new) (tells self.old (bytes.now ++ rest)).text }
        ensures less { IsErrOf result Fault.Write → (rest : List ℕ) →
            GrewByLess (O.held output.old) (O.held output.new) (tells self.old (bytes.now ++ rest)).text }
        // All that is told as soon as these bytes have come is written, and what is told later comes behind it.
        ensures soon { IfOk result (λ next. next ≡ Next.Line →
            O.held output.new ≡ append_known (O.held output.old) (soon self.old bytes.now).text) }
        ensures later { IfOk result (λ next. next ≡ Next.Line → (rest : List ℕ) →
            soon self.old (bytes.now ++ rest) ≡ after (soon self.old bytes.now).text (soon self.new rest)) }
        // It goes on only if the text does.
        ensures unended { IfOk result (λ next. next ≡ Next.Line → (soon self.old bytes.now).closed ≡ true) }
        ensures fewer { IfOk result (λ next. next ≡ Next.Line →
            to_come self.new + length bytes.now ≤ to_come self.old) }
        ensures cause { HasCause (O.faults output.old) (O.faults output.new) result };

    /// Writes the rest of the text, now that no more bytes come.
    fn finish<O: Sink>(&mut self, output: &mut O) -> Result<Verdict, Fault>
        ensures ok { IfOk result (λ verdict.
            TellsAll (O.held output.old) (O.held output.new) verdict (tells self.old [])) }
        ensures front { GrewByFront (O.held output.old) (O.held output.new) (tells self.old []).text }
        ensures less { IsErrOf result Fault.Write →
            GrewByLess (O.held output.old) (O.held output.new) (tells self.old []).text }
        ensures cause { HasCause (O.faults output.old) (O.faults output.new) result };
}
