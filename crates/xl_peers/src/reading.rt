ghost use Rattle.std.specs.Prelude.{◌≡◌, Bool, ◌<◌, ◌≤◌, ℕ, List, ◌++◌, length, take, IfOk, IfErr, IfSome, IfNone};
ghost use Rattle.xl_core.specs.Core.{Core};
ghost use Rattle.xl_store.specs.declared.entry.Entry.{Entry};
ghost use Rattle.xl_turns.specs.declared.view.Knowledge.{Knowledge};
ghost use Rattle.xl_peers.specs.Sessions.Phase.{Reads, Hands, Asks};
ghost use Rattle.xl_peers.specs.Going.{Goes, Ends};

use crate::ends::End;
use xl_links::{Link, LinkRead};

/// Reads once, and answers how many bytes came, or None if none did within the link's time.
pub(crate) fn read<L: Link>(link: &mut L, room: &mut [u8]) -> Result<Option<usize>, End>
    requires room { 0 < length room.old }
    ensures room { length room.new ≡ length room.old }
    ensures fits { IfOk result (λ got. IfSome got (λ n. n ≤ length room.new)) }
    ensures got { IfOk result (λ got. IfSome got (λ n.
        (start : Core) (may : ℕ → Bool) (member : ℕ) (k : Knowledge Entry) (held : List ℕ)
        → Goes start may member Reads Hands k (L.shows link.old) held k (L.shows link.new) (held ++ take n room.new))) }
    ensures idle { IfOk result (λ got. IfNone got (
        (start : Core) (may : ℕ → Bool) (member : ℕ) (k : Knowledge Entry) (held : List ℕ)
        → Goes start may member Reads Asks k (L.shows link.old) held k (L.shows link.new) held)) }
    ensures ends { IfErr result (λ end.
        (start : Core) (turns : ℕ) (may : ℕ → Bool) (member : ℕ) (k : Knowledge Entry) (held : List ℕ)
        → Ends start may member turns Reads k (L.shows link.old) held k (L.shows link.new) end) }
{
    match link.read(room) {
        LinkRead::Got(count) => Ok(Some(count)),
        LinkRead::Idle => Ok(None),
        LinkRead::End => Err(End::End),
        LinkRead::Failed => Err(End::LinkFault),
    }
}
