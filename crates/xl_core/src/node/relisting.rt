ghost use Rattle.std.specs.Prelude.{◌≡◌, ◌≤◌, map, Ok, OnErr};
ghost use Rattle.std.specs.Result.{result_err};
ghost use Rattle.xl_base.specs.Moments.{greatest_millis};
ghost use Rattle.xl_tags.specs.Opening.{HasKeys};
ghost use Rattle.xl_core.specs.Answers.{Done};
ghost use Rattle.xl_core.specs.Node.{Relist, arisen_in, at_moment, happens, key_refusal, reporting_reply, with_list};
ghost use Rattle.xl_core.specs.Issuing.Save.{Kept};
ghost use Rattle.xl_core.specs.Replies.{list_reply};

use super::{Node, report_by};
use crate::last::LastReport;
use crate::{Refusal, Report};
use xl_base::Millis;
use xl_ledger::Branch;
use xl_lists::List;
use xl_validations::Table;

/// What the rows of a list's members give to report.
fn arisen<B: Branch>(table: &Table<B>, list: &List, last: &LastReport) -> Option<Report>
    requires members { map (λ row. row.member) table.now.rows ≡ list.now.members }
    ensures { result ≡ arisen_in list.now.quorum table.now.rows last.now }
{
    let quorum = list.quorum();
    for member in list.members() {
        if let Some(v) = table.current(*member) {
            let report = report_by(table, quorum, last, &v);
            if report.is_some() {
                return report;
            }
        }
    }
    None
}

impl<B: Branch + Drop> Node<B> {
    /// Goes over to another list: what is known of members that stay is kept, and of new ones nothing is. What the rows
    /// then give to report is reported under the new list.
    ///
    /// Refused if a listed member other than the node has no key; the refusal names the lowest of these. First the time
    /// is set, and rows expire; nothing else changes then.
    pub fn relist(&mut self, now: Millis, list: List) -> Result<Option<Report>, Refusal>
        requires moment { now ≤ greatest_millis }
        ensures exact { list_reply result self.new ≡ happens self.old (Relist now list) Kept }
        ensures refused { result_err result ≡ key_refusal self.old list }
        ensures unchanged { OnErr result (self.new ≡ at_moment now self.old) }
    {
        self.advance(now);
        match self.keys.lowest_missing(&list) {
            Some(member) => Err(Refusal::NoKey(member.get())),
            None => Ok(self.set_list(list)),
        }
    }

    /// Sets the list, once the time is set and each listed member has a key.
    fn set_list(&mut self, list: List) -> Option<Report>
        requires keyed { HasKeys self.old.keys list.members }
        ensures { list_reply (Ok result) self.new ≡ reporting_reply (with_list self.old list) Done None }
    {
        // Each list is valid.
        let _members = list.members();
        self.last = self.last.over_another_list();
        self.round.relist(&list);
        self.table.relist(&self.registry, list.copy());
        let report = arisen(&self.table, &list, &self.last);
        self.list = list;
        self.last.note(&report);
        report
    }
}
