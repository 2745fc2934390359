use crate::TimerAnswer;
use xl_base::LedgerId;
use xl_ledger::{Header, LedgerNo};
use xl_rounds::Said;

/// What a timer comes to before the built ledger is validated.
#[derive(Clone, Copy)]
pub(crate) enum TimerPart {
    /// Nothing was built; a position is said, or none.
    Quiet {
        answer: TimerAnswer,
        said: Option<Said>,
    },
    Built(Built),
}

/// What stands where a node writes what its timer comes to, before it does.
pub(crate) const NOT_BEATEN: TimerPart = TimerPart::Quiet {
    answer: TimerAnswer::Nothing,
    said: None,
};

/// A ledger that was built and accepted, and the position that is said before it, or none.
#[derive(Clone, Copy)]
pub(crate) struct Built {
    pub(crate) said: Option<Said>,
    pub(crate) header: Header,
    pub(crate) id: LedgerId,
    pub(crate) ledger: LedgerNo,
    /// Whether the members moved on without the node.
    pub(crate) moved_on: bool,
}
