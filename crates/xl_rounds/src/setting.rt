ghost use Rattle.std.specs.Prelude.{◌≡◌, ◌<◌, length};
ghost use Rattle.xl_closetime.specs.Resolutions.{IsResolution};
ghost use Rattle.xl_ledger.specs.Chains.{header_at};
ghost use Rattle.xl_rounds.specs.Settings.{
  setting_on,
  resolution_on as resolution_on_header,
  counted_resolution as counted_resolution_of,
};

use crate::Mode;
use xl_base::{LedgerId, Millis, Secs};
use xl_closetime::next_resolution;
use xl_ledger::{LedgerNo, Registry};

/// A resolution that isn't one of the six counts as this one.
const USUAL_RESOLUTION: u8 = 30;

/// What a round is on: it stays from the round's start to its end.
#[derive(Clone, Copy)]
pub(crate) struct Setting {
    /// The ledger that the next one is to follow, and its id.
    pub(crate) previous: LedgerNo,
    pub(crate) previous_id: LedgerId,
    pub(crate) mode: Mode,
    pub(crate) started: Millis,
    /// The resolution of the next ledger's close time.
    pub(crate) resolution: u8,
}

/// What a round remembers of the one before it.
#[derive(Clone, Copy)]
pub(crate) struct Former {
    /// How long it took, from its close on.
    pub(crate) round_ms: Millis,
    /// The members' positions at its end.
    pub(crate) proposers: u32,
}

/// Our own position, except for the ledger and the set that it names, and when our open phase closed.
#[derive(Clone, Copy)]
pub(crate) struct Stance {
    pub(crate) closed: Millis,
    /// How often we have renewed it.
    pub(crate) propose_sequence: u32,
    pub(crate) close: Secs,
    /// When we took it.
    pub(crate) time: Secs,
}

/// The setting of a round on a ledger.
pub(crate) fn setting_on(
    registry: &Registry,
    previous: LedgerNo,
    mode: Mode,
    now: Millis,
) -> Setting
    requires { previous < length registry.now.headers }
    ensures value { result ≡ setting_on registry.now.headers previous mode now }
    ensures valid { IsResolution result.resolution }
{
    Setting {
        previous,
        previous_id: registry.id_at(previous),
        mode,
        started: now,
        resolution: resolution_on(registry, previous),
    }
}

/// The resolution of the ledger that follows a ledger.
fn resolution_on(registry: &Registry, previous: LedgerNo) -> u8
    requires { previous < length registry.now.headers }
    ensures value { result ≡ resolution_on_header (header_at registry.now.headers previous) }
    ensures valid { IsResolution result }
{
    // A chain is no longer than the registry, so that its sequences never come near the greatest.
    let _ = registry.len();
    let header = registry.walk().header(previous);
    next_resolution(
        counted_resolution(header.resolution),
        header.flags % 2 == 0,
        header.seq + 1,
    )
}

fn counted_resolution(r: u8) -> u8
    ensures value { result ≡ counted_resolution_of r }
    ensures valid { IsResolution result }
{
    match r {
        10 | 20 | 30 | 60 | 90 | 120 => r,
        _ => USUAL_RESOLUTION,
    }
}
