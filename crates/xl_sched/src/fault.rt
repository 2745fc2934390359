ghost use Rattle.std.specs.Prelude.{◌≡◌, ◌⊎◌};

use crate::refusal::SchedRefusal;
use std::alloc::{AllocError, AllocFailed, Global};
use std::marker::Model;
use xl_base::{Bytes, OutOfMemory};

/// What a line is refused for.
#[derive(Clone, Copy, PartialEq, Eq)]
pub enum Cause {
    Header,
    LongLine,
    Limit,
    Word,
    Count,
    Number,
    Id,
    Choice,
    Twice,
    Late,
    List,
    Absent,
    OutOfMemory,
}

impl Cause {
    ghost use Rattle.xl_sched.specs.Faults.{refusal_of};

    fn refusal(self, token: Bytes) -> SchedRefusal
        ensures { result ≡ refusal_of self token }
    {
        match self {
            Cause::Header => SchedRefusal::Header(token),
            Cause::LongLine => SchedRefusal::LongLine(token),
            Cause::Limit => SchedRefusal::Limit(token),
            Cause::Word => SchedRefusal::Word(token),
            Cause::Count => SchedRefusal::Count(token),
            Cause::Number => SchedRefusal::Number(token),
            Cause::Id => SchedRefusal::Id(token),
            Cause::Choice => SchedRefusal::Choice(token),
            Cause::Twice => SchedRefusal::Twice(token),
            Cause::Late => SchedRefusal::Late(token),
            Cause::List => SchedRefusal::List(token),
            Cause::Absent => SchedRefusal::Absent(token),
            Cause::OutOfMemory => SchedRefusal::OutOfMemory,
        }
    }
}

/// The token that is printed: a part of the line, or a number.
#[derive(Clone, Copy)]
pub enum Token<'a> {
    Text(&'a [u8]),
    Decimal(u64),
}

impl Token<'_> {
    ghost use Rattle.std.specs.Prelude.{IfOk};
    ghost use Rattle.xl_sched.specs.Faults.{bytes_of};

    fn copy(self, alloc: Global) -> Result<Vec<u8>, AllocError>
        ensures { IfOk result (λ copy. copy.items ≡ bytes_of self.entry) }
    {
        match self {
            Token::Text(text) => Vec::from_slice(alloc, text),
            Token::Decimal(number) => Ok(number.to_string(alloc)?.into_bytes()),
        }
    }
}

/// A refusal whose token isn't copied yet, so that it takes no memory. Contracts see it as the refusal.
#[derive(Drop)]
pub struct LineFault<'a> {
    cause: Cause,
    token: Token<'a>,
}

impl<'a> Model for LineFault<'a> {
    ghost use Rattle.xl_sched.specs.declared.refusal.SchedRefusal.{SchedRefusal};

    ghost Value = { SchedRefusal };

    ghost use Rattle.xl_sched.specs.Faults.{refusal_of, bytes_of};

    ghost view = { λ f. refusal_of f.cause (bytes_of f.token) };
}

impl<'a> LineFault<'a> {
    ghost use Rattle.std.specs.Prelude.{decimal};
    ghost use Rattle.xl_sched.specs.Faults.{refusal_of};

    pub fn with_text(cause: Cause, text: &'a [u8]) -> Self
        ensures { result ≡ refusal_of cause text.now }
    {
        LineFault {
            cause,
            token: Token::Text(text),
        }
    }

    pub fn with_number(cause: Cause, number: u64) -> Self
        ensures { result ≡ refusal_of cause (decimal number) }
    {
        LineFault {
            cause,
            token: Token::Decimal(number),
        }
    }

    pub fn out_of_memory() -> Self
        ensures { result ≡ SchedRefusal.OutOfMemory }
    {
        LineFault::with_number(Cause::OutOfMemory, 0)
    }

    /// The refusal with its token copied, or that memory ran out.
    pub fn refusal(self, alloc: Global) -> SchedRefusal
        ensures { (result ≡ SchedRefusal.OutOfMemory) ⊎ (result ≡ self.entry) }
    {
        match self.token.copy(alloc) {
            Ok(token) => self.cause.refusal(Bytes::from_vec(token)),
            Err(_) => SchedRefusal::OutOfMemory,
        }
    }
}

impl From<AllocError> for LineFault<'_> {
    ghost use Rattle.xl_sched.specs.declared.refusal.SchedRefusal.TheVariants.{OutOfMemory as WantOfMemory};

    ghost from_gives = { λ _ fault. fault ≡ WantOfMemory };

    fn from(_: AllocError) -> Self {
        LineFault::out_of_memory()
    }
}

impl<T: Drop> From<AllocFailed<T>> for LineFault<'_> {
    ghost use Rattle.xl_sched.specs.declared.refusal.SchedRefusal.TheVariants.{OutOfMemory as WantOfMemory};

    ghost from_gives = { λ _ fault. fault ≡ WantOfMemory };

    fn from(_: AllocFailed<T>) -> Self {
        LineFault::out_of_memory()
    }
}

impl From<OutOfMemory> for LineFault<'_> {
    ghost use Rattle.xl_sched.specs.declared.refusal.SchedRefusal.TheVariants.{OutOfMemory as WantOfMemory};

    ghost from_gives = { λ _ fault. fault ≡ WantOfMemory };

    fn from(_: OutOfMemory) -> Self {
        LineFault::out_of_memory()
    }
}
