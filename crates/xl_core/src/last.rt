ghost use Rattle.std.specs.Prelude.{◌≡◌};
ghost use Rattle.xl_core.specs.Lasts.{is_above as is_above_of, is_last as is_last_of, is_news as is_news_of, last_after as later_of, over_another_list};

use crate::Report;
use xl_base::{LedgerId, Seq};

/// What was last reported since the node opened, and whether the node's list was set after that.
#[derive(Clone, Copy, PartialEq, Eq)]
pub struct LastReport {
    pub report: Option<Report>,
    pub relisted: bool,
}

/// Nothing was reported yet.
pub(crate) const NONE_REPORTED: LastReport = LastReport {
    report: None,
    relisted: false,
};

impl LastReport {
    /// Whether a sequence is above that of the last report.
    fn is_above(&self, seq: Seq) -> bool
        ensures { result ≡ is_above_of self.now.report seq }
    {
        match &self.report {
            Some(report) => report.seq < seq,
            None => true,
        }
    }

    /// Whether the last report is this one.
    fn is(&self, seq: Seq, id: &LedgerId) -> bool
        ensures { result ≡ is_last_of self.now.report seq id.now }
    {
        match &self.report {
            Some(report) => report.seq == seq && report.id == *id,
            None => false,
        }
    }

    /// Whether a ledger may be reported now: one above the last report, and once the list was set after that also each
    /// that isn't the last report itself.
    pub fn is_news(&self, seq: Seq, id: &LedgerId) -> bool
        ensures { result ≡ is_news_of self.now seq id.now }
    {
        self.is_above(seq) || (self.relisted && !self.is(seq, id))
    }

    /// Notes the report that has arisen, if one has.
    pub fn note(&mut self, report: &Option<Report>)
        ensures { self.new ≡ later_of self.old report.now }
    {
        if report.is_some() {
            self.report = *report;
            self.relisted = false;
        }
    }

    /// Once the list was set.
    pub fn over_another_list(self) -> LastReport
        ensures { result ≡ over_another_list self }
    {
        LastReport {
            report: self.report,
            relisted: true,
        }
    }
}
