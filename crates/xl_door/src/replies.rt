// What is answered to a line.
ghost use Rattle.std.specs.Prelude.{◌≡◌, ◌+◌, ◌≤◌, ◌++◌, length, take};
ghost use Rattle.xl_door.specs.Replies.{refused_text, text_of};

use xl_base::put;
use xl_core::Refusal;

/// What is answered to a line.
#[derive(Clone, Copy, PartialEq, Eq)]
pub enum Reply {
    /// The transaction was handed in, and is pending.
    Taken,
    /// The transaction was handed in, and the core refused it.
    Refused(Refusal),
    /// The line isn't 64 hexadecimal digits.
    NoId,
    /// The line is longer than that.
    TooLong,
    /// The transaction wasn't handed in: memory ran out, or all turns of the store are drawn.
    NoTurn,
}

/// The room for the longest answer: a code of ten digits, and what stands around it.
pub(crate) const LONGEST_ANSWER: usize = 19;

/// Puts the answer at the room's front, and tells how long it is.
pub(crate) fn put_reply(room: &mut [u8], reply: Reply) -> usize
    requires room { LONGEST_ANSWER ≤ length room.old }
    ensures fits { result ≤ length room.new }
    ensures text { take result room.new ≡ text_of reply }
{
    match reply {
        Reply::Taken => append(room, 0, b"taken\n"),
        Reply::Refused(why) => put_refused(room, why.code()),
        Reply::NoId => append(room, 0, b"no id\n"),
        Reply::TooLong => append(room, 0, b"too long\n"),
        Reply::NoTurn => append(room, 0, b"no turn\n"),
    }
}

fn put_refused(room: &mut [u8], code: u32) -> usize
    requires room { LONGEST_ANSWER ≤ length room.old }
    ensures fits { result ≤ length room.new }
    ensures text { take result room.new ≡ refused_text code }
{
    let mut digits = itoa::Buffer::new();
    let at = append(room, 0, b"refused ");
    let at = append(room, at, digits.format(code).as_bytes());
    append(room, at, b"\n")
}

/// Puts bytes behind the first of the room, and tells where they end.
fn append(room: &mut [u8], at: usize, bytes: &[u8]) -> usize
    requires room { at + length bytes.now ≤ length room.old }
    ensures end { result ≡ at + length bytes.now }
    ensures text { take result room.new ≡ take at room.old ++ bytes.now }
    ensures room { length room.new ≡ length room.old }
{
    put(room, at, bytes);
    at + bytes.len()
}
