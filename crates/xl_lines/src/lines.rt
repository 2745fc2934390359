ghost use Rattle.std.specs.Prelude.{◌≡◌, ◌+◌, ◌<◌, ◌≤◌, ◌==◌, ◌↔◌, ℕ, List, ◌++◌, false, length, vec_len};
ghost use Rattle.std.specs.Prelude.{IfOk, OnOk, IsErrOf, IsTrue};
ghost use Rattle.std.specs.List.{list_any};
ghost use Rattle.xl_io.specs.Sinks.{GrewByFront, GrewByLess};
ghost use Rattle.xl_lines.specs.Causes.{HasCause};
ghost use Rattle.xl_lines.specs.Lines.{whole_line};
ghost use Rattle.xl_lines.specs.Told.{told_of};
ghost use Rattle.xl_lines.specs.Soon.{told_soon};
ghost use Rattle.xl_lines.specs.Running.{Tells, told_at, left_after};
ghost use Rattle.xl_lines.specs.Running.{PutsPart, soon_at};
ghost use Rattle.xl_lines.specs.Running.{TakesSome, bytes_to_come, FewerToCome};

use crate::answer::{answer, close, refuse};
use crate::ends::{before_newline, newline_in, whole_line};
use crate::{Fault, Limits, Machine, Next, Overrun, Teller, Text, Verdict};
use std::alloc::Global;
use xl_base::OutOfMemory;
use xl_io::Sink;

/// What became of the next bytes.
#[derive(Clone, Copy, PartialEq, Eq)]
pub enum Part {
    /// This many of them were taken.
    Taken(usize),
    /// A line was refused, and the last text is written.
    Refused,
    /// What the machine looks for was found, and the last text is written.
    Found,
}

/// Cuts bytes into lines, and hands each to a machine: the bytes of the line that has begun, and how many lines may
/// still come, with it.
#[derive(Drop)]
pub struct Lines<M: Machine> {
    machine: M,
    limits: Limits,
    line: Vec<u8>,
    left: usize,
    text: M::Answer,
    ghost one_line: { list_any (λ byte. byte == 10) line.items ≡ false },
    ghost short: { vec_len line ≤ limits.bytes },
}

impl<M: Machine> Lines<M> {
    /// Before the first byte. It takes no memory.
    pub fn new(alloc: Global, limits: Limits, machine: M) -> Self
        ensures tells { (bytes : List ℕ) →
            ⟦<Lines<M> as Teller>⟧.tells result bytes ≡ told_of limits M.rules (M.state machine) bytes }
        ensures soon { (bytes : List ℕ) →
            ⟦<Lines<M> as Teller>⟧.soon result bytes ≡ told_soon limits M.rules (M.state machine) bytes }
    {
        Lines {
            machine,
            limits,
            line: Vec::new(alloc),
            left: limits.lines,
            text: M::Answer::empty(alloc),
        }
    }

    /// Whether the line is too long with this many bytes more.
    fn is_long_with(&self, more: usize) -> bool
        ensures { IsTrue result ↔ (self.now.limits.bytes < vec_len self.now.line + more) }
    {
        more > self.limits.bytes - self.line.len()
    }

    /// Adds bytes with no newline to the line.
    fn put(&mut self, bytes: &[u8]) -> Result<(), OutOfMemory>
        requires one_line { list_any (λ byte. byte == 10) bytes.now ≡ false }
        requires short { vec_len self.old.line + length bytes.now ≤ self.old.limits.bytes }
        ensures ok { OnOk result (self.new.line.items ≡ self.old.line.items ++ bytes.now) }
        ensures limits { self.new.limits ≡ self.old.limits }
        ensures left { self.new.left ≡ self.old.left }
        ensures machine { self.new.machine ≡ self.old.machine }
    {
        self.line.extend_from_slice(bytes)?;
        Ok(())
    }

    /// Adds the last bytes of a line to it, without its newline, if it had begun, which is answered. Else they are all
    /// of it, and aren't copied.
    fn join(&mut self, bytes: &[u8]) -> Result<bool, OutOfMemory>
        requires one_line { list_any (λ byte. byte == 10) bytes.now ≡ false }
        requires short { vec_len self.old.line + length bytes.now ≤ self.old.limits.bytes }
        ensures ok { IfOk result (λ had_begun.
            whole_line had_begun self.new.line.items bytes.now ≡ self.old.line.items ++ bytes.now) }
        ensures limits { self.new.limits ≡ self.old.limits }
        ensures left { self.new.left ≡ self.old.left }
        ensures machine { self.new.machine ≡ self.old.machine }
    {
        if self.line.is_empty() {
            return Ok(false);
        }
        self.put(bytes)?;
        Ok(true)
    }

    /// Takes the next bytes up to the first newline, and with it.
    fn take_part<O: Sink>(&mut self, output: &mut O, bytes: &[u8]) -> Result<Part, Fault>
        requires { 0 < length bytes.now }
        ensures limits { self.new.limits ≡ self.old.limits }
        ensures some { IfOk result (λ part. TakesSome part bytes.now) }
        ensures fewer { IfOk result (λ part. FewerToCome part
            (bytes_to_come self.old.limits self.old.left (vec_len self.old.line))
            (bytes_to_come self.new.limits self.new.left (vec_len self.new.line))) }
        ensures ok { IfOk result (λ part. (rest : List ℕ) → Tells (O.held output.old) (O.held output.new)
            (⟦<Lines<M> as Teller>⟧.tells self.old (bytes.now ++ rest))
            (left_after part (λ left. ⟦<Lines<M> as Teller>⟧.tells self.new (left ++ rest)) bytes.now)) }
        ensures soon { IfOk result (λ part. PutsPart part (O.held output.old) (O.held output.new)
            (⟦<Lines<M> as Teller>⟧.soon self.old) (⟦<Lines<M> as Teller>⟧.soon self.new) bytes.now) }
        ensures front { (rest : List ℕ) → GrewByFront (O.held output.old) (O.held output.new)
            (⟦<Lines<M> as Teller>⟧.tells self.old (bytes.now ++ rest)).text }
        ensures less { IsErrOf result Fault.Write → (rest : List ℕ) → GrewByLess (O.held output.old) (O.held output.new)
            (⟦<Lines<M> as Teller>⟧.tells self.old (bytes.now ++ rest)).text }
        ensures cause { HasCause (O.faults output.old) (O.faults output.new) result }
    {
        let newline = newline_in(bytes);
        let count = newline.unwrap_or(bytes.len());
        if self.is_long_with(count) {
            refuse(&mut self.machine, output, Overrun::LongLine, &mut self.text)?;
            return Ok(Part::Refused);
        }
        if newline.is_none() {
            self.put(bytes)?;
            return Ok(Part::Taken(count));
        }
        let last = &bytes[..count];
        let had_begun = self.join(last)?;
        let whole = whole_line(had_begun, &self.line, last);
        let line = before_newline(self.limits.returns, whole);
        match answer(
            &mut self.machine,
            output,
            self.left,
            line,
            true,
            &mut self.text,
        )? {
            Next::Line => {
                self.line.clear();
                self.left -= 1;
                Ok(Part::Taken(count + 1))
            }
            Next::Refused => Ok(Part::Refused),
            Next::Found => Ok(Part::Found),
        }
    }
}

impl<M: Machine> Teller for Lines<M> {
    ghost tells = { λ lines rest.
        told_at lines.limits M.rules lines.left (M.state lines.machine) lines.line.items rest };

    ghost soon = { λ lines bytes.
        soon_at lines.limits M.rules lines.left (M.state lines.machine) lines.line.items bytes };

    ghost to_come = { λ lines. bytes_to_come lines.limits lines.left (vec_len lines.line) };

    fn feed<O: Sink>(&mut self, output: &mut O, bytes: &[u8]) -> Result<Next, Fault> {
        let mut rest = bytes;
        while !rest.is_empty() {
            match self.take_part(output, rest)? {
                Part::Taken(count) => rest = &rest[count..],
                Part::Refused => return Ok(Next::Refused),
                Part::Found => return Ok(Next::Found),
            }
        }
        Ok(Next::Line)
    }

    fn finish<O: Sink>(&mut self, output: &mut O) -> Result<Verdict, Fault> {
        if self.line.is_empty() {
            return close(&mut self.machine, output, &mut self.text);
        }
        match answer(
            &mut self.machine,
            output,
            self.left,
            &self.line,
            false,
            &mut self.text,
        )? {
            Next::Line => close(&mut self.machine, output, &mut self.text),
            Next::Refused => Ok(Verdict::Refused),
            Next::Found => Ok(Verdict::Found),
        }
    }
}
