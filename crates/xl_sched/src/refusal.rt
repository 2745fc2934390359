ghost use Rattle.std.specs.Prelude.{◌≡◌, []};
ghost use Rattle.xl_sched.specs.Refusals.{code_of, token_of};

use std::alloc::Global;
use xl_base::Bytes;

/// Why a line is refused, with the token that is to be printed. The variants stand in the order of their numbers.
#[derive(Debug, Drop)]
pub enum SchedRefusal {
    /// Line 1 isn't `xl-schedule 1`. The token is its first one, or none.
    Header(Bytes),
    /// The line is too long. The token is the most bytes of a line.
    LongLine(Bytes),
    /// There are too many lines or names. The token is the most that there may be.
    Limit(Bytes),
    /// The first token is no word.
    Word(Bytes),
    /// No line of the word has this many tokens. The token is their number.
    Count(Bytes),
    /// A number is asked, and the token is none, or out of range.
    Number(Bytes),
    /// An id, a new name, the name of a ledger or the digits of bytes are asked, and the token is none.
    Id(Bytes),
    /// One of a few words is asked, and the token is another.
    Choice(Bytes),
    /// The token is a number or a name that was declared before, a number as a node or as a liar; or a second limit.
    Twice(Bytes),
    /// The token is the word of a declaration, and an event stood before it.
    Late(Bytes),
    /// The numbers are no list. The token is the number of the list's refusal.
    List(Bytes),
    /// The token is a number that isn't declared as the line asks, or the place of no sent frame.
    Absent(Bytes),
    /// Memory ran out. It is no refusal of the line.
    OutOfMemory,
}

impl SchedRefusal {
    /// The refusal of a schedule that has no line at all.
    pub fn missing_header(alloc: Global) -> SchedRefusal
        ensures { result ≡ SchedRefusal.Header [] }
    {
        SchedRefusal::Header(Bytes::from_vec(Vec::new(alloc)))
    }

    /// The number of the refusal, 33 to 44; 0 if memory runs out.
    pub fn code(&self) -> u32
        ensures { result ≡ code_of self.now }
    {
        self.parts().0
    }

    /// The token that is to be printed, as it stands in the line; nothing if memory runs out.
    pub fn token(&self) -> &[u8]
        ensures { result.now ≡ token_of self.now }
    {
        self.parts().1
    }

    fn parts(&self) -> (u32, &[u8])
        ensures code { result.0 ≡ code_of self.now }
        ensures token { result.1.now ≡ token_of self.now }
    {
        match self {
            SchedRefusal::Header(token) => (33, token.as_slice()),
            SchedRefusal::LongLine(token) => (34, token.as_slice()),
            SchedRefusal::Limit(token) => (35, token.as_slice()),
            SchedRefusal::Word(token) => (36, token.as_slice()),
            SchedRefusal::Count(token) => (37, token.as_slice()),
            SchedRefusal::Number(token) => (38, token.as_slice()),
            SchedRefusal::Id(token) => (39, token.as_slice()),
            SchedRefusal::Choice(token) => (40, token.as_slice()),
            SchedRefusal::Twice(token) => (41, token.as_slice()),
            SchedRefusal::Late(token) => (42, token.as_slice()),
            SchedRefusal::List(token) => (43, token.as_slice()),
            SchedRefusal::Absent(token) => (44, token.as_slice()),
            SchedRefusal::OutOfMemory => (0, &[]),
        }
    }
}
