ghost use Rattle.std.specs.Prelude.{◌≡◌};
ghost use Rattle.xl_top.specs.Commands.{status_after};

use xl_base::Status;
use xl_lines::{Fault, Verdict};

/// The status of a run by how it ended.
pub fn status_after(run: Result<Verdict, Fault>) -> Status
    ensures { result ≡ status_after run }
{
    match run {
        Ok(Verdict::Good) => Status::Done,
        Ok(Verdict::Found) => Status::Fork,
        Ok(Verdict::Refused) => Status::InputRefused,
        Err(Fault::Read) => Status::ReadFault,
        Err(Fault::Write) => Status::WriteFault,
        Err(Fault::Memory) => Status::OutOfMemory,
    }
}
