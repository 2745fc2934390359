ghost use Rattle.std.specs.Prelude.{◌≡◌};

use std::marker::Model;
use xl_base::{NodeNo, Seq, TxId};

/// What a report of a flag ledger says of an amendment or of the fee.
#[derive(Clone, Copy, PartialEq, Eq)]
pub enum FlagLine {
    /// The amendment is enabled now.
    Enabled(NodeNo, Seq, TxId),
    /// It has a majority, and had none before.
    Majority(NodeNo, Seq, TxId),
    /// It has none, and had one before.
    Lost(NodeNo, Seq, TxId),
    /// The fee is another than before.
    Fee(NodeNo, Seq, u32),
}

/// The lines of one report, which contracts see as a list.
#[derive(Drop)]
pub struct FlagNews {
    lines: Vec<FlagLine>,
}

impl Model for FlagNews {
    ghost use Rattle.std.specs.Prelude.{List};
    ghost use Rattle.xl_flags.specs.declared.news.FlagLine.{FlagLine};

    ghost Value = { List FlagLine };

    ghost view = { λ a. a.lines.items };
}

impl FlagNews {
    pub(crate) fn from_vec(lines: Vec<FlagLine>) -> Self
        ensures { result ≡ lines.items }
    {
        FlagNews { lines }
    }

    pub fn as_slice(&self) -> &[FlagLine]
        ensures { result.now ≡ self.now }
    {
        &self.lines
    }
}
