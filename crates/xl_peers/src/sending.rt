ghost use Rattle.std.specs.Prelude.{◌≡◌, OnOk, OnErr};
ghost use Rattle.xl_peers.specs.Going.{Sent, SentFront};

use xl_io::{Failed, Wrote};
use xl_links::Link;

/// Writes all the bytes. It fails if a write of the link does, and the link then took a front of them.
pub(crate) fn send<L: Link>(link: &mut L, bytes: &[u8]) -> Result<(), Failed>
    ensures sent { OnOk result (Sent (L.shows link.old) bytes.now (L.shows link.new)) }
    ensures front { OnErr result (SentFront (L.shows link.old) bytes.now (L.shows link.new)) }
{
    let mut rest = bytes;
    while !rest.is_empty() {
        match link.write(rest) {
            Wrote::Took(count) => rest = &rest[count..],
            Wrote::Failed => return Err(Failed),
        }
    }
    Ok(())
}
