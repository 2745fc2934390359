ghost use Rattle.std.specs.Prelude.{◌≡◌, IfOk, IfErr, IfSome};
ghost use Rattle.xl_io.specs.Memory.{bytes_held};
ghost use Rattle.xl_page.specs.Pages.{Handed, the_status};

use crate::handing::hand_out;
use xl_base::Status;
use xl_io::MemSink;
use xl_lines::{Fault, Verdict};

/// How a command ended, and how many bytes it wrote.
#[derive(Clone, Copy, PartialEq, Eq)]
pub struct Page {
    pub status: Status,
    pub length: usize,
}

impl Page {
    /// The page for which memory ran out.
    pub fn without_memory() -> Page
        ensures { result.status ≡ Status.OutOfMemory }
    {
        Page {
            status: Status::OutOfMemory,
            length: 0,
        }
    }

    /// The page of a run by how it ended. A source and a sink in memory fail only if memory runs out.
    pub fn after(run: Result<Verdict, Fault>, sink: &MemSink, room: &mut [u8]) -> Page
        ensures status { IfOk run (λ verdict. result.status ≡ the_status verdict) }
        ensures text { IfOk run (λ _. IfSome (bytes_held sink.now) (λ text. Handed text result.length room.new)) }
        ensures fault { IfErr run (λ _. result.status ≡ Status.OutOfMemory) }
    {
        match run {
            Ok(verdict) => Page {
                status: status_of(verdict),
                length: hand_out(sink, room),
            },
            Err(_) => Page::without_memory(),
        }
    }
}

/// The status of a whole text by its verdict.
fn status_of(verdict: Verdict) -> Status
    ensures { result ≡ the_status verdict }
{
    match verdict {
        Verdict::Good => Status::Done,
        Verdict::Found => Status::Fork,
        Verdict::Refused => Status::InputRefused,
    }
}
