ghost use Rattle.std.specs.Prelude.{◌≡◌, [], ◌∷◌, Some, None};
ghost use Rattle.xl_flags.specs.Kept.{line_list, news_between, stands_after as stands_after_of, unless_lasts};

use crate::news::FlagLine;
use xl_base::{NodeNo, Secs, Seq, TxId};

/// A majority that lasts this many seconds enables an amendment: two weeks.
const LASTING: u64 = 1_209_600;

/// How an amendment stands at a node, after its last report.
#[derive(Clone, Copy, PartialEq, Eq)]
pub(crate) enum Standing {
    /// It had no majority there.
    Without,
    /// It has had one since: the least close time of the reports at which it had, up to the last.
    Since(Secs),
    /// It is enabled.
    InForce,
}

impl Standing {
    /// How it stands after a report more.
    pub(crate) fn after(self, close: Secs, majority: bool) -> Standing
        ensures { result ≡ stands_after_of self close majority }
    {
        match self {
            Standing::InForce => Standing::InForce,
            Standing::Without => {
                if majority {
                    Standing::Since(close)
                } else {
                    Standing::Without
                }
            }
            Standing::Since(since) => {
                if majority {
                    lasting(since.min(close), close)
                } else {
                    Standing::Without
                }
            }
        }
    }

    /// What a report says of an amendment that stands so after it, and stood otherwise before.
    pub(crate) fn news(self, before: Standing, node: NodeNo, seq: Seq, id: TxId) -> Option<FlagLine>
        ensures { line_list result ≡ news_between before self node seq id }
    {
        match before {
            Standing::InForce => None,
            Standing::Without => match self {
                Standing::InForce => Some(FlagLine::Enabled(node, seq, id)),
                Standing::Without => None,
                Standing::Since(_) => Some(FlagLine::Majority(node, seq, id)),
            },
            Standing::Since(_) => match self {
                Standing::InForce => Some(FlagLine::Enabled(node, seq, id)),
                Standing::Without => Some(FlagLine::Lost(node, seq, id)),
                Standing::Since(_) => None,
            },
        }
    }
}

/// How an amendment stands that has had a majority since this moment.
fn lasting(since: Secs, close: Secs) -> Standing
    ensures { result ≡ unless_lasts since close }
{
    if u64::from(since) + LASTING <= u64::from(close) {
        Standing::InForce
    } else {
        Standing::Since(since)
    }
}
