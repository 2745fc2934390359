ghost use Rattle.std.specs.Prelude.{◌≡◌, List, ℕ, [], IfOk, OnOk};
ghost use Rattle.xl_lines.specs.Rules.{Rules, step_given, closes};

use crate::{Overrun, Text};
use xl_base::OutOfMemory;

/// Whether a machine goes on to the next line.
#[derive(Clone, Copy, PartialEq, Eq)]
pub enum Next {
    Line,
    /// The line is refused, and the text ends there.
    Refused,
    /// What the command looks for was found, and the text ends there.
    Found,
}

/// What a whole text says.
#[derive(Clone, Copy, PartialEq, Eq)]
pub enum Verdict {
    Good,
    /// What the command looks for was found.
    Found,
    /// A line was refused and the text ends there, or the input as a whole was.
    Refused,
}

/// A machine that answers to lines. Its rules are functions of what its state means.
///
/// Each call is handed an empty text for its answer. After `OutOfMemory` the state and the text may be any.
pub trait Machine {
    /// What it puts its answers into.
    type Answer: Text;

    ghost State: { Type 0 };

    /// What a state means.
    ghost state: { Self → State };

    /// What it does, as functions of that.
    ghost rules: { Rules State };

    /// Takes a line, without its newline and, unless the limits keep it, a return before it. It puts the answer into
    /// `text`. The line has `ended` if its newline has come: the last line may lack it, and then keeps its return.
    fn line(
        &mut self,
        line: &[u8],
        ended: bool,
        text: &mut Self::Answer,
    ) -> Result<Next, OutOfMemory>
        requires { Self.Answer.bytes text.old ≡ [] }
        ensures { IfOk result (λ next. step_given next (Self.Answer.bytes text.new) (state self.new)
            ≡ rules.step (state self.old) line.now ended) };

    /// Puts the last text into `text`, if a line is too long or one too many.
    fn overrun(&mut self, overrun: Overrun, text: &mut Self::Answer) -> Result<(), OutOfMemory>
        requires { Self.Answer.bytes text.old ≡ [] }
        ensures { OnOk result (Self.Answer.bytes text.new ≡ rules.overrun (state self.old) overrun) };

    /// Puts the last text into `text`, after the last line or if there is none.
    fn close(&mut self, text: &mut Self::Answer) -> Result<Verdict, OutOfMemory>
        requires { Self.Answer.bytes text.old ≡ [] }
        ensures { IfOk result (λ verdict. closes (Self.Answer.bytes text.new) verdict ≡ rules.closing (state self.old)) };
}
