ghost use Rattle.std.specs.Prelude.{◌≡◌, ◌↔◌, ◌<◌, ◌≤◌, IfOk, OnOk, OnErr, Some, Ok, None, []};
ghost use Rattle.std.specs.Result.{result_err};
ghost use Rattle.xl_base.specs.Moments.{greatest_millis};
ghost use Rattle.xl_validations.specs.Rows.{current_of, heard_of, is_full_of};
ghost use Rattle.xl_validations.specs.Votes.{votes_of};
ghost use Rattle.xl_core.specs.Node.{Submit, opened_node, at_moment, happens, arises_in, preferred, report_if, settings_of, tx_refusal};
ghost use Rattle.xl_ledger.specs.Limits.{greatest_limit, least_limit};
ghost use Rattle.xl_core.specs.Rest.{IsKeyed};
ghost use Rattle.xl_core.specs.Replies.{submit_reply};
ghost use Rattle.xl_core.specs.Issuing.Save.{Kept};
ghost use Rattle.xl_core.specs.Building.{usual_mode as usual_mode_of};

use crate::last::{LastReport, NONE_REPORTED};
use crate::{Refusal, Report, Settings};
use std::alloc::Global;
use std::marker::Model;
use xl_base::{LedgerId, Millis, NodeNo, OutOfMemory, Seq, TxId, secs_of};
use xl_ledger::{Branch, LedgerNo, Registry};
use xl_lists::List;
use xl_rounds::{Mode, Round};
use xl_tags::Keys;
use xl_validations::Table;
use xl_wire::Validation;

mod current;
mod deliberating;
mod greeting;
mod hearing;
mod issuing;
mod reading;
mod relisting;
mod sending;
mod timer;

/// A node's time is never before its first second.
const LEAST_TIME: Millis = 1_000;

/// A node, over whichever branch of votes. No call after `open` takes memory.
#[derive(Drop)]
pub struct Node<B: Branch> {
    me: NodeNo,
    list: List,
    /// Behind a pointer, since they are large.
    keys: Box<Keys>,
    validating: bool,
    /// The version of its validations.
    speak: u8,
    /// The greatest moment since it opened.
    time: Millis,
    registry: Registry,
    table: Table<B>,
    round: Round,
    /// The last sequence that was saved.
    kept: Seq,
    /// The sequence whose save failed since the node opened.
    failed_save: Option<Seq>,
    last: LastReport,
}

impl<B: Branch> Model for Node<B> {
    ghost use Rattle.std.specs.Prelude.{◌≡◌};
    ghost use Rattle.xl_validations.specs.Tallies.{IsTallied};
    ghost use Rattle.xl_core.specs.Node.{Node};
    ghost use Rattle.xl_core.specs.Rest.{IsReady, node_seen};

    ghost Value = { Node };

    ghost view = { node_seen };

    ghost invariant = { λ a.
        IsReady (node_seen a)
        × IsTallied B.goes_with B.votes B.room a.table a.registry.headers
        × (a.table.me ≡ a.me) };
}

/// What a validation just taken gives to report: it alone can have reached a quorum now.
fn report_by<B: Branch>(
    table: &Table<B>,
    quorum: u32,
    last: &LastReport,
    v: &Validation,
) -> Option<Report>
    ensures { result ≡ report_if (arises_in quorum table.now.rows last.now v.now) v.now }
{
    if quorum <= table.count_full(v.seq, &v.id) && last.is_news(v.seq, &v.id) {
        Some(Report {
            seq: v.seq,
            id: v.id,
        })
    } else {
        None
    }
}

/// How a node takes part in a round, unless it has switched to another ledger.
fn usual_mode(validating: bool) -> Mode
    ensures { result ≡ usual_mode_of validating }
{
    if validating {
        Mode::Proposing
    } else {
        Mode::Observing
    }
}

impl<B: Branch + Drop> Node<B> {
    /// A node with its settings, among whose keys is one for each other listed member, and the number that its keeper
    /// holds: it knows the root alone, and nothing is taken or reported yet.
    pub fn open(
        alloc: Global,
        settings: Settings,
        now: Millis,
        kept: Seq,
    ) -> Result<Node<B>, OutOfMemory>
        requires keyed { IsKeyed settings.me settings.list.members settings.keys }
        requires least { least_limit ≤ settings.limit }
        requires most { settings.limit ≤ greatest_limit }
        requires moment { now ≤ greatest_millis }
        ensures { IfOk result (λ node. node ≡ opened_node settings now kept) }
    {
        let Settings {
            me,
            list,
            keys,
            limit,
            validating,
            speak,
        } = settings;
        let registry = Registry::open(alloc, limit)?;
        let table = Table::open(alloc, &list, me)?;
        let keys = Box::new(alloc, keys)?;
        let time = now.max(LEAST_TIME);
        let round = Round::open(
            alloc,
            &registry,
            LedgerNo::root(),
            usual_mode(validating),
            time,
        )?;
        Ok(Node {
            me,
            list,
            keys,
            validating,
            speak,
            time,
            registry,
            table,
            round,
            kept,
            failed_save: None,
            last: NONE_REPORTED,
        })
    }

    /// Opens the node anew in its place, with the number that its keeper holds. An `Err` changes nothing.
    pub fn reopen(&mut self, alloc: Global, now: Millis, kept: Seq) -> Result<(), OutOfMemory>
        requires moment { now ≤ greatest_millis }
        ensures opened { OnOk result (self.new ≡ opened_node (settings_of self.old) now kept) }
        ensures err { OnErr result (self.new ≡ self.old) }
    {
        let table = Table::open(alloc, &self.list, self.me)?;
        let time = now.max(LEAST_TIME);
        let mode = usual_mode(self.validating);
        self.registry.reopen();
        self.round
            .reopen(&self.registry, LedgerNo::root(), mode, time);
        self.table = table;
        self.time = time;
        self.kept = kept;
        self.failed_save = None;
        self.last = NONE_REPORTED;
        Ok(())
    }

    /// Sets the time, which never goes back, and removes the validations that are no longer current. Within a second
    /// none ceases to be.
    fn advance(&mut self, now: Millis)
        requires { now ≤ greatest_millis }
        ensures { self.new ≡ at_moment now self.old }
    {
        let second = secs_of(self.time);
        self.time = self.time.max(now);
        let now = secs_of(self.time);
        if now != second {
            self.table.expire(&self.registry, now);
        }
    }

    /// A transaction is pending from then on.
    ///
    /// Refused if it is pending, or if as many are as may be, in this order. First the time is set, and rows
    /// expire; nothing else changes then.
    pub fn submit(&mut self, now: Millis, tx: TxId) -> Result<(), Refusal>
        requires moment { now ≤ greatest_millis }
        ensures exact { submit_reply tx result self.new ≡ happens self.old (Submit now tx) Kept }
        ensures refused { result_err result ≡ tx_refusal self.old tx }
        ensures unchanged { OnErr result (self.new ≡ at_moment now self.old) }
    {
        self.advance(now);
        self.round.submit(tx)?;
        Ok(())
    }

    /// The node's number.
    pub fn me(&self) -> NodeNo
        ensures { result ≡ self.now.me }
    {
        self.me
    }

    /// The list in force, of the members that it hears.
    pub fn list(&self) -> &List
        ensures { result.now ≡ self.now.list }
    {
        &self.list
    }

    /// The keys that it shares with others.
    pub fn keys(&self) -> &Keys
        ensures value { result.now ≡ self.now.keys }
        ensures keyed { IsKeyed self.now.me self.now.list.members self.now.keys }
    {
        &self.keys
    }

    /// The greatest moment since it opened, in milliseconds; at least 1,000.
    pub fn time(&self) -> Millis
        ensures value { result ≡ self.now.time }
        ensures most { result ≤ greatest_millis }
    {
        self.time
    }

    /// How many ledgers it may know, the root among them.
    pub fn limit(&self) -> u32
        ensures value { result ≡ self.now.ledgers.limit }
        ensures least { least_limit ≤ result }
        ensures most { result ≤ greatest_limit }
    {
        self.registry.limit()
    }

    /// The last sequence that was saved.
    pub fn kept(&self) -> Seq
        ensures { result ≡ self.now.kept }
    {
        self.kept
    }

    /// What was last reported since it opened, and whether the list was set after that.
    pub fn last(&self) -> &LastReport
        ensures { result.now ≡ self.now.last }
    {
        &self.last
    }

    /// The ledger that the members' votes prefer, or None exactly if there is no vote. The largest sequence issued
    /// counts as the kept number.
    pub fn preferred(&self) -> Option<Report>
        ensures value { result ≡ preferred self.now }
        ensures none { (result ≡ None) ↔ (votes_of self.now.ledgers.headers self.now.rows ≡ []) }
    {
        let mut walk = self.registry.walk();
        let ledger = self.table.preferred(&mut walk, self.kept)?;
        Some(Report {
            seq: walk.seq_of(ledger),
            id: walk.id_at(ledger),
        })
    }

    /// The sequence whose save failed since the node opened, if one did.
    pub fn failed_save(&self) -> Option<Seq>
        ensures { result ≡ self.now.failed_save }
    {
        self.failed_save
    }

    /// The ledgers that it knows.
    pub fn registry(&self) -> &Registry
        ensures { result.now ≡ self.now.ledgers }
    {
        &self.registry
    }

    /// Whether a member's row holds a current full validation of this sequence and id.
    pub fn holds(&self, member: NodeNo, seq: Seq, id: &LedgerId) -> bool
        ensures { result ≡ is_full_of seq id.now (current_of self.now.rows member) }
    {
        match self.table.current(member) {
            Some(v) => v.full && v.seq == seq && v.id == *id,
            None => false,
        }
    }

    /// The ledger that a member last reported, as its current validation tells. None exactly if it has no row, or
    /// its row has no current validation, or that doesn't tell.
    pub fn heard(&self, member: NodeNo) -> Option<LedgerId>
        ensures { result ≡ heard_of self.now.rows member }
    {
        self.table.heard(member)
    }
}
