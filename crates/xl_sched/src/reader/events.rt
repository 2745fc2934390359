// Events, except for disturbed saves and lies.
ghost use Rattle.std.specs.Prelude.{◌≡◌, ◌≤◌, ◌<◌, ℕ, true, length, IfOk, IfSome, OnOk};
ghost use Rattle.xl_sched.specs.Answers.{PutsEvent};
ghost use Rattle.xl_sched.specs.Events.{raw_bytes_of};
ghost use Rattle.xl_sched.specs.Refusals.{GivenMemory};
ghost use Rattle.xl_sched.specs.Limits.{most_lists, most_raw_bytes};

use crate::choices::full;
use crate::event::{Ask, What};
use crate::fault::{Cause, LineFault};
use crate::limits::{MOST_LISTS, MOST_RAW_BYTES};
use crate::line::Line;
use crate::members::{member, members, trusted};
use crate::numbers::{number, place};
use crate::reader::Reader;
use crate::tokens::Tokens;
use hex::FromHexError;
use std::alloc::Global;
use xl_base::{Bytes, NodeNo};

impl Reader {
    ghost use Rattle.xl_sched.specs.Fits.{IsFit, IsFitAsk, IsFitWhat};
    ghost use Rattle.xl_sched.specs.Events.{issue_of, issue_event, asked_issue, submit_event, timer_event, asked_timer, timers_event, deliver_event, all_event, drop_event, is_peer, peer_of, greet_event, restart_event, raw_event, prefer_event, list_of, set_list, list_event, heard_event};

    /// `issue i seq id full`, or `partial`.
    pub(super) fn issue<'a>(
        &self,
        arguments: Tokens<'a>,
        said: &mut Option<Line>,
    ) -> Result<(), LineFault<'a>>
        ensures value { PutsEvent self.now result said.new (issue_event self.now arguments.entry) }
        ensures fit { (sent : ℕ) → OnOk result (IfSome said.new (IsFit self.now sent)) }
    {
        let ask = self.asked_issue(arguments)?;
        self.happen(What::Ask(ask), said);
        Ok(())
    }

    /// `i seq id full`, or `partial`.
    pub(super) fn asked_issue<'a>(&self, arguments: Tokens<'a>) -> Result<Ask, LineFault<'a>>
        ensures value { result ≡ asked_issue self.now arguments.entry }
        ensures fit { IfOk result (IsFitAsk self.now) }
    {
        let (node, seq, id, kind) = arguments.four()?;
        self.issue_of(node, seq, id, kind)
    }

    /// What a node is asked, its parts from left to right.
    fn issue_of<'a>(
        &self,
        node: &'a [u8],
        seq: &'a [u8],
        id: &'a [u8],
        kind: &'a [u8],
    ) -> Result<Ask, LineFault<'a>>
        ensures value { result ≡ issue_of self.now node.now seq.now id.now kind.now }
        ensures fit { IfOk result (IsFitAsk self.now) }
    {
        Ok(Ask::Issue {
            node: self.nodes.declared(node)?,
            seq: number(seq)?,
            id: self.names.ledger_id(id)?,
            full: full(kind)?,
        })
    }

    /// `submit i id`.
    pub(super) fn submit<'a>(
        &self,
        arguments: Tokens<'a>,
        said: &mut Option<Line>,
    ) -> Result<(), LineFault<'a>>
        ensures value { PutsEvent self.now result said.new (submit_event self.now arguments.entry) }
        ensures fit { (sent : ℕ) → OnOk result (IfSome said.new (IsFit self.now sent)) }
    {
        let (token, id) = arguments.two()?;
        let node = self.nodes.declared(token)?;
        let tx = self.names.tx_id(id)?;
        self.happen(What::Submit { node, tx }, said);
        Ok(())
    }

    /// `timer i`.
    pub(super) fn timer<'a>(
        &self,
        arguments: Tokens<'a>,
        said: &mut Option<Line>,
    ) -> Result<(), LineFault<'a>>
        ensures value { PutsEvent self.now result said.new (timer_event self.now arguments.entry) }
        ensures fit { (sent : ℕ) → OnOk result (IfSome said.new (IsFit self.now sent)) }
    {
        let ask = self.asked_timer(arguments)?;
        self.happen(What::Ask(ask), said);
        Ok(())
    }

    /// `i`.
    pub(super) fn asked_timer<'a>(&self, arguments: Tokens<'a>) -> Result<Ask, LineFault<'a>>
        ensures value { result ≡ asked_timer self.now arguments.entry }
        ensures fit { IfOk result (IsFitAsk self.now) }
    {
        let node = arguments.one()?;
        Ok(Ask::Timer {
            node: self.nodes.declared(node)?,
        })
    }

    /// `timers`.
    pub(super) fn timers<'a>(
        &self,
        arguments: Tokens<'a>,
        said: &mut Option<Line>,
    ) -> Result<(), LineFault<'a>>
        ensures value { PutsEvent self.now result said.new (timers_event arguments.entry) }
        ensures fit { (sent : ℕ) → OnOk result (IfSome said.new (IsFit self.now sent)) }
    {
        arguments.none()?;
        self.happen(What::Timers, said);
        Ok(())
    }

    /// `deliver k`.
    pub(super) fn deliver<'a>(
        &self,
        arguments: Tokens<'a>,
        sent: u64,
        said: &mut Option<Line>,
    ) -> Result<(), LineFault<'a>>
        ensures value { PutsEvent self.now result said.new (deliver_event sent arguments.entry) }
        ensures fit { OnOk result (IfSome said.new (IsFit self.now sent)) }
    {
        let number = arguments.one()?;
        let place = place(number, sent)?;
        self.happen(What::Deliver { place }, said);
        Ok(())
    }

    /// `all`.
    pub(super) fn all<'a>(
        &self,
        arguments: Tokens<'a>,
        said: &mut Option<Line>,
    ) -> Result<(), LineFault<'a>>
        ensures value { PutsEvent self.now result said.new (all_event arguments.entry) }
        ensures fit { (sent : ℕ) → OnOk result (IfSome said.new (IsFit self.now sent)) }
    {
        arguments.none()?;
        self.happen(What::All, said);
        Ok(())
    }

    /// `drop`.
    pub(super) fn drop<'a>(
        &self,
        arguments: Tokens<'a>,
        said: &mut Option<Line>,
    ) -> Result<(), LineFault<'a>>
        ensures value { PutsEvent self.now result said.new (drop_event arguments.entry) }
        ensures fit { (sent : ℕ) → OnOk result (IfSome said.new (IsFit self.now sent)) }
    {
        arguments.none()?;
        self.happen(What::Drop, said);
        Ok(())
    }

    /// `greet i j`.
    pub(super) fn greet<'a>(
        &self,
        arguments: Tokens<'a>,
        said: &mut Option<Line>,
    ) -> Result<(), LineFault<'a>>
        ensures value { PutsEvent self.now result said.new (greet_event self.now arguments.entry) }
        ensures fit { (sent : ℕ) → OnOk result (IfSome said.new (IsFit self.now sent)) }
    {
        let (token, other) = arguments.two()?;
        let node = self.nodes.declared(token)?;
        let peer = self.peer(node, other)?;
        self.happen(What::Greet { node, peer }, said);
        Ok(())
    }

    /// The number of a peer.
    fn peer<'a>(&self, node: NodeNo, token: &'a [u8]) -> Result<NodeNo, LineFault<'a>>
        ensures value { result ≡ peer_of self.now node token.now }
        ensures peer { IfOk result (λ other. is_peer self.now node other ≡ true) }
    {
        let other = member(token)?;
        if self.is_peer(node, other) {
            Ok(other)
        } else {
            Err(LineFault::with_text(Cause::Absent, token))
        }
    }

    /// Whether a number is another than this one, and declared, as an honest node or as a liar.
    fn is_peer(&self, node: NodeNo, other: NodeNo) -> bool
        ensures { result ≡ is_peer self.now node other }
    {
        other != node && (self.nodes.has(other) || self.liars.has(other))
    }

    /// `restart i`.
    pub(super) fn restart<'a>(
        &self,
        arguments: Tokens<'a>,
        said: &mut Option<Line>,
    ) -> Result<(), LineFault<'a>>
        ensures value { PutsEvent self.now result said.new (restart_event self.now arguments.entry) }
        ensures fit { (sent : ℕ) → OnOk result (IfSome said.new (IsFit self.now sent)) }
    {
        let token = arguments.one()?;
        let node = self.nodes.declared(token)?;
        self.happen(What::Restart { node }, said);
        Ok(())
    }

    /// `raw t digits`.
    pub(super) fn raw<'a>(
        &self,
        arguments: Tokens<'a>,
        said: &mut Option<Line>,
    ) -> Result<(), LineFault<'a>>
        ensures value { PutsEvent self.now result said.new (raw_event self.now arguments.entry) }
        ensures fit { (sent : ℕ) → OnOk result (IfSome said.new (IsFit self.now sent)) }
    {
        let (honest, digits) = arguments.two()?;
        let to = self.nodes.declared(honest)?;
        let bytes = raw_bytes(self.alloc, digits)?;
        self.happen(What::Raw { to, bytes }, said);
        Ok(())
    }

    /// `list i q list`. One too many is refused, whatever it says.
    pub(super) fn list<'a>(
        &self,
        arguments: Tokens<'a>,
        said: &mut Option<Line>,
    ) -> Result<(), LineFault<'a>>
        ensures value { PutsEvent self.now result said.new (list_event self.now arguments.entry) }
        ensures fit { (sent : ℕ) → OnOk result (IfSome said.new (IsFit self.now sent)) }
    {
        if self.lists >= MOST_LISTS {
            return Err(LineFault::with_number(Cause::Limit, u64::from(MOST_LISTS)));
        }
        let what = self.set_list(arguments)?;
        self.happen(what, said);
        Ok(())
    }

    fn set_list<'a>(&self, arguments: Tokens<'a>) -> Result<What, LineFault<'a>>
        requires { self.now.lists < most_lists }
        ensures value { GivenMemory result (set_list self.now arguments.entry) }
        ensures fit { IfOk result (λ what. (sent : ℕ) → IsFitWhat self.now sent what) }
    {
        let (node, quorum, members) = arguments.three()?;
        self.list_of(node, quorum, members)
    }

    /// The parts of a list's line, from left to right, and then the list.
    fn list_of<'a>(
        &self,
        node: &'a [u8],
        quorum: &'a [u8],
        list: &'a [u8],
    ) -> Result<What, LineFault<'a>>
        requires { self.now.lists < most_lists }
        ensures value { GivenMemory result (list_of self.now node.now quorum.now list.now) }
        ensures fit { IfOk result (λ what. (sent : ℕ) → IsFitWhat self.now sent what) }
    {
        let node = self.nodes.declared(node)?;
        let quorum = number(quorum)?;
        let members = members(self.alloc, list)?;
        let list = trusted(&members, quorum)?;
        // Each list is valid.
        let _members = list.members();
        Ok(What::List { node, list })
    }

    /// `heard i`.
    pub(super) fn heard<'a>(
        &self,
        arguments: Tokens<'a>,
        said: &mut Option<Line>,
    ) -> Result<(), LineFault<'a>>
        ensures value { PutsEvent self.now result said.new (heard_event self.now arguments.entry) }
        ensures fit { (sent : ℕ) → OnOk result (IfSome said.new (IsFit self.now sent)) }
    {
        let token = arguments.one()?;
        let node = self.nodes.declared(token)?;
        self.happen(What::Heard { node }, said);
        Ok(())
    }

    /// `prefer i`.
    pub(super) fn prefer<'a>(
        &self,
        arguments: Tokens<'a>,
        said: &mut Option<Line>,
    ) -> Result<(), LineFault<'a>>
        ensures value { PutsEvent self.now result said.new (prefer_event self.now arguments.entry) }
        ensures fit { (sent : ℕ) → OnOk result (IfSome said.new (IsFit self.now sent)) }
    {
        let token = arguments.one()?;
        let node = self.nodes.declared(token)?;
        self.happen(What::Prefer { node }, said);
        Ok(())
    }
}

/// 1 to 8,240 bytes, by their hexadecimal digits.
fn raw_bytes<'a>(alloc: Global, digits: &'a [u8]) -> Result<Bytes, LineFault<'a>>
    ensures value { GivenMemory result (raw_bytes_of digits.now) }
    ensures least { IfOk result (λ bytes. 1 ≤ length bytes) }
    ensures most { IfOk result (λ bytes. length bytes ≤ most_raw_bytes) }
{
    match hex::decode(alloc, digits) {
        Ok(bytes) if !bytes.is_empty() && bytes.len() <= MOST_RAW_BYTES => {
            Ok(Bytes::from_vec(bytes))
        }
        Err(FromHexError::OutOfMemory) => Err(LineFault::out_of_memory()),
        _ => Err(LineFault::with_text(Cause::Id, digits)),
    }
}
