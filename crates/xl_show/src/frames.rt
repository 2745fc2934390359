ghost use Rattle.std.specs.Prelude.{◌≡◌, ◌+◌, ◌-◌, ◌<◌, ◌≤◌, ℕ, List, [], ◌++◌, false, length, drop, vec_len, string_bytes, IfOk, OnOk, IsErrOf};
ghost use Rattle.std.specs.Io.KnownBytes.{append_known};
ghost use Rattle.xl_io.specs.Sinks.{GrewByFront, GrewByLess};
ghost use Rattle.xl_lines.specs.Causes.{HasCause};
ghost use Rattle.xl_lines.specs.Rules.{closes};
ghost use Rattle.xl_lines.specs.Running.{Tells, TellsAll};
ghost use Rattle.xl_show.specs.Reading.{left_after};
ghost use Rattle.xl_show.specs.Shown.{told_at_end, told_from, shown_of};
ghost use Rattle.xl_show.specs.Soon.{shown_soon, soon_from};
ghost use Rattle.xl_show.specs.Texts.{limit_line};
ghost use Rattle.xl_show.specs.Limits.{most_bytes};
ghost use Rattle.xl_wire.specs.Frames.{decoded_of};
ghost use Rattle.xl_wire.specs.declared.decoding.Decoded.{Decoded};
ghost use Rattle.xl_wire.specs.Lengths.{longest_frame};

use crate::limits::MOST_BYTES;
use crate::reading::{Look, read};
use crate::texts::{push_count, push_limit, push_short};
use std::alloc::Global;
use xl_base::OutOfMemory;
use xl_io::{Sink, write_all};
use xl_lines::{Fault, Next, Teller, Verdict};

/// What became of the next bytes.
#[derive(Clone, Copy, PartialEq, Eq)]
pub enum Part {
    /// This many of them were taken.
    Taken(usize),
    /// One is too many, and the last text is written.
    Refused,
}

/// Cuts bytes into frames, and tells of each: the bytes of the frame that has begun, where it begins, and how many
/// frames stood before it. No more bytes are kept than the longest frame has.
#[derive(Drop)]
pub struct Frames {
    alloc: Global,
    begun: Vec<u8>,
    place: usize,
    count: usize,
    text: String,
    ghost within: { place + vec_len begun ≤ most_bytes },
    ghost counted: { count ≤ place },
    ghost short: { vec_len begun ≤ longest_frame },
}

impl Frames {
    ghost use Rattle.xl_show.specs.Steps.{left_of, Follows, TakesSome, Goes, PutsLook, PutsPart};

    /// Before the first byte. It takes no memory.
    pub fn new(alloc: Global) -> Self
        ensures tells { (bytes : List ℕ) → ⟦<Frames as Teller>⟧.tells result bytes ≡ shown_of bytes }
        ensures soon { (bytes : List ℕ) → ⟦<Frames as Teller>⟧.soon result bytes ≡ shown_soon bytes }
    {
        Frames {
            alloc,
            begun: Vec::new(alloc),
            place: 0,
            count: 0,
            text: String::new(alloc),
        }
    }

    /// Tells of what the bytes that have come begin with. A frame is left behind.
    fn advance<O: Sink>(&mut self, output: &mut O) -> Result<Look, Fault>
        ensures ok { IfOk result (λ look. (rest : List ℕ) → Tells (O.held output.old) (O.held output.new)
            (⟦<Frames as Teller>⟧.tells self.old rest) (left_after look (⟦<Frames as Teller>⟧.tells self.new rest))) }
        ensures soon { IfOk result (λ look. PutsLook look (O.held output.old) (O.held output.new)
            (⟦<Frames as Teller>⟧.soon self.old) (⟦<Frames as Teller>⟧.soon self.new)) }
        ensures follows { IfOk result (λ look. Follows look self.old self.new) }
        ensures front { (rest : List ℕ) → GrewByFront (O.held output.old) (O.held output.new)
            (⟦<Frames as Teller>⟧.tells self.old rest).text }
        ensures less { IsErrOf result Fault.Write → (rest : List ℕ) →
            GrewByLess (O.held output.old) (O.held output.new) (⟦<Frames as Teller>⟧.tells self.old rest).text }
        ensures cause { HasCause (O.faults output.old) (O.faults output.new) result }
    {
        self.text.clear();
        let look = read(self.alloc, self.place, &self.begun, &mut self.text)?;
        write_all(output, self.text.as_bytes())?;
        if let Look::Frame(length) = look {
            self.leave(length);
        }
        Ok(look)
    }

    /// Leaves a frame of this many bytes behind.
    fn leave(&mut self, length: usize)
        requires some { 0 < length }
        requires there { length ≤ vec_len self.old.begun }
        ensures begun { self.new.begun.items ≡ drop length self.old.begun.items }
        ensures place { self.new.place ≡ self.old.place + length }
        ensures count { self.new.count ≡ self.old.count + 1 }
    {
        let rest = self.begun.len() - length;
        self.begun.rotate_left(length);
        self.begun.truncate(rest);
        self.place += length;
        self.count += 1;
    }

    /// Writes the last text, if a byte too many comes.
    fn refuse<O: Sink>(&mut self, output: &mut O) -> Result<(), Fault>
        ensures held { OnOk result (O.held output.new ≡ append_known (O.held output.old) limit_line) }
        ensures front { GrewByFront (O.held output.old) (O.held output.new) limit_line }
        ensures less { IsErrOf result Fault.Write → GrewByLess (O.held output.old) (O.held output.new) limit_line }
        ensures cause { HasCause (O.faults output.old) (O.faults output.new) result }
    {
        self.text.clear();
        push_limit(&mut self.text)?;
        write_all(output, self.text.as_bytes())?;
        Ok(())
    }

    /// Writes the last text of a whole input, of whose last frame this many bytes lack.
    fn end<O: Sink>(&mut self, output: &mut O, lack: usize) -> Result<Verdict, Fault>
        ensures all { IfOk result (λ verdict. TellsAll (O.held output.old) (O.held output.new) verdict
            (told_at_end false self.old.place self.old.count lack self.old.begun.items)) }
        ensures front { GrewByFront (O.held output.old) (O.held output.new)
            (told_at_end false self.old.place self.old.count lack self.old.begun.items).text }
        ensures less { IsErrOf result Fault.Write → GrewByLess (O.held output.old) (O.held output.new)
            (told_at_end false self.old.place self.old.count lack self.old.begun.items).text }
        ensures cause { HasCause (O.faults output.old) (O.faults output.new) result }
    {
        self.text.clear();
        let verdict = self.push_end(lack)?;
        write_all(output, self.text.as_bytes())?;
        Ok(verdict)
    }

    /// Puts the last text of a whole input into the text.
    fn push_end(&mut self, lack: usize) -> Result<Verdict, OutOfMemory>
        requires { string_bytes self.old.text ≡ [] }
        ensures { IfOk result (λ verdict. closes (string_bytes self.new.text) verdict
            ≡ told_at_end false self.old.place self.old.count lack self.old.begun.items) }
    {
        if self.begun.is_empty() {
            push_count(&mut self.text, self.count)?;
            Ok(Verdict::Good)
        } else {
            push_short(&mut self.text, self.place, lack)?;
            Ok(Verdict::Refused)
        }
    }

    /// Takes bytes of the frame that has begun, at most as many as it lacks.
    fn take<O: Sink>(&mut self, output: &mut O, lack: usize, bytes: &[u8]) -> Result<Part, Fault>
        requires some { 0 < length bytes.now }
        requires lacks { decoded_of self.old.begun.items ≡ Decoded.Need lack }
        requires wanted { 0 < lack }
        ensures some { IfOk result (λ part. TakesSome part bytes.now) }
        ensures goes { IfOk result (λ part. Goes part self.old self.new) }
        ensures ok { IfOk result (λ part. (rest : List ℕ) → Tells (O.held output.old) (O.held output.new)
            (⟦<Frames as Teller>⟧.tells self.old (bytes.now ++ rest))
            (left_of part (λ left. ⟦<Frames as Teller>⟧.tells self.new (left ++ rest)) bytes.now)) }
        ensures soon { IfOk result (λ part. PutsPart part (O.held output.old) (O.held output.new)
            (⟦<Frames as Teller>⟧.soon self.old) (⟦<Frames as Teller>⟧.soon self.new) bytes.now) }
        ensures front { (rest : List ℕ) → GrewByFront (O.held output.old) (O.held output.new)
            (⟦<Frames as Teller>⟧.tells self.old (bytes.now ++ rest)).text }
        ensures less { IsErrOf result Fault.Write → (rest : List ℕ) → GrewByLess (O.held output.old) (O.held output.new)
            (⟦<Frames as Teller>⟧.tells self.old (bytes.now ++ rest)).text }
        ensures cause { HasCause (O.faults output.old) (O.faults output.new) result }
    {
        let room = MOST_BYTES - self.place - self.begun.len();
        if room == 0 {
            self.refuse(output)?;
            return Ok(Part::Refused);
        }
        let count = lack.min(room).min(bytes.len());
        self.put(&bytes[..count])?;
        Ok(Part::Taken(count))
    }

    /// Adds bytes to the frame that has begun.
    fn put(&mut self, bytes: &[u8]) -> Result<(), OutOfMemory>
        requires within { self.old.place + vec_len self.old.begun + length bytes.now ≤ most_bytes }
        requires short { vec_len self.old.begun + length bytes.now ≤ longest_frame }
        ensures begun { OnOk result (self.new.begun.items ≡ self.old.begun.items ++ bytes.now) }
        ensures place { OnOk result (self.new.place ≡ self.old.place) }
        ensures count { OnOk result (self.new.count ≡ self.old.count) }
    {
        self.begun.extend_from_slice(bytes)?;
        Ok(())
    }
}

impl Teller for Frames {
    ghost tells = { λ frames rest. told_from frames.place frames.count (frames.begun.items ++ rest) };

    ghost soon = { λ frames bytes. soon_from frames.place (frames.begun.items ++ bytes) };

    ghost to_come = { λ frames. most_bytes - (frames.place + length frames.begun.items) };

    fn feed<O: Sink>(&mut self, output: &mut O, bytes: &[u8]) -> Result<Next, Fault> {
        let mut rest = bytes;
        loop {
            match self.advance(output)? {
                Look::Frame(_) => {}
                Look::Refused => return Ok(Next::Refused),
                Look::Lacks(_) if rest.is_empty() => return Ok(Next::Line),
                Look::Lacks(lack) => match self.take(output, lack, rest)? {
                    Part::Taken(count) => rest = &rest[count..],
                    Part::Refused => return Ok(Next::Refused),
                },
            }
        }
    }

    fn finish<O: Sink>(&mut self, output: &mut O) -> Result<Verdict, Fault> {
        loop {
            match self.advance(output)? {
                Look::Frame(_) => {}
                Look::Refused => return Ok(Verdict::Refused),
                Look::Lacks(lack) => return self.end(output, lack),
            }
        }
    }
}
