ghost use Rattle.std.specs.Prelude.{◌≡◌, ◌+◌, ◌≤◌, ◌<◌, ◌++◌, length, map, vec_len, vec_capacity, All, IfOk, IfErr, OnOk, MatchResult};
ghost use Rattle.std.specs.List.{flat_map, list_all};
ghost use Rattle.xl_flags.specs.Votes.{most_amendments, named_amendments};
ghost use Rattle.xl_flags.specs.Flags.{reports_of, lines_of};
ghost use Rattle.xl_flags.specs.Kept.{after_report, row_news, with_favor, favoured_by, fee_line as fee_line_of, has_row, kept_favored, kept_named, row_place as row_place_of, with_row, with_rows as with_rows_of, line_list, kept_after, kept_lines, Past, nothing_kept, nothing_yet, Remembers, report_of, with_report};
ghost use Rattle.xl_base.specs.Sets.{is_below as is_below_of};

use crate::amendment::{Amendment, place_of};
use crate::fee::{FIRST_FEE, elected};
use crate::news::{FlagLine, FlagNews};
use crate::refusal::FlagRefusal;
use std::alloc::Global;
use std::marker::Model;
use xl_base::{MOST_MEMBERS, NodeNo, OutOfMemory, Secs, Seq, TxId};

/// This many different amendments may be named.
pub const MOST_AMENDMENTS: usize = 4096;

/// What members vote for, and what each node's reports of flag ledgers made of it.
#[derive(Drop)]
pub struct FlagVotes {
    /// By rising id, each once.
    amendments: Vec<Amendment>,
    /// The fee that each member votes for.
    votes: [Option<u32>; MOST_MEMBERS],
    /// The fee in force at each node.
    fees: [u32; MOST_MEMBERS],
}

impl Model for FlagVotes {
    ghost use Rattle.xl_flags.specs.Kept.{Kept};

    ghost Value = { Kept };

    ghost view = { λ a. record { amendments = a.amendments.items; votes = a.votes; fees = a.fees } };
}

impl FlagVotes {
    /// No votes and no reports. It takes no memory.
    pub fn open(alloc: Global) -> FlagVotes
        ensures remembers { Remembers result nothing_yet }
        ensures kept { result ≡ nothing_kept }
    {
        FlagVotes {
            amendments: Vec::new(alloc),
            votes: [None; MOST_MEMBERS],
            fees: [FIRST_FEE; MOST_MEMBERS],
        }
    }

    /// From here on the member votes for this fee and these amendments, and for no others.
    ///
    /// Refused if more than 4096 different amendments would be named, or as `OutOfMemory`; all stays then.
    pub fn favor(&mut self, member: NodeNo, fee: u32, ids: &[TxId]) -> Result<(), FlagRefusal>
        ensures remembers { MatchResult result
            (λ done. (past : Past) → Remembers self.old past → Remembers self.new (with_favor past member fee ids.now))
            (λ e. self.new ≡ self.old) }
        ensures many { IfErr result (λ e. e ≡ FlagRefusal.TooMany → (past : Past) → Remembers self.old past
            → most_amendments < length (named_amendments (with_favor past member fee ids.now).favors)) }
        ensures few { IfOk result (λ done. (past : Past) → Remembers self.old past
            → length (named_amendments (with_favor past member fee ids.now).favors) ≤ most_amendments) }
        // So it is with what is kept, whatever that stands for.
        ensures kept { IfOk result (λ done. self.new ≡ kept_favored member fee ids.now self.old) }
        ensures many_kept { IfErr result (λ e. e ≡ FlagRefusal.TooMany
            → most_amendments < length (with_rows_of self.old.amendments ids.now)) }
        ensures few_kept { IfOk result (λ done. length (with_rows_of self.old.amendments ids.now) ≤ most_amendments) }
    {
        self.take_vote(member, fee, ids)
    }

    /// The same over what is kept.
    fn take_vote(&mut self, member: NodeNo, fee: u32, ids: &[TxId]) -> Result<(), FlagRefusal>
        ensures kept { MatchResult result (λ done. self.new ≡ kept_favored member fee ids.now self.old) (λ e. self.new ≡ self.old) }
        ensures many { IfErr result (λ e. e ≡ FlagRefusal.TooMany → most_amendments < length (with_rows_of self.old.amendments ids.now)) }
        ensures few { IfOk result (λ done. length (with_rows_of self.old.amendments ids.now) ≤ most_amendments) }
        ensures first { 1 ≤ member }
        ensures last { member ≤ 64 }
    {
        let place = place_of(member);
        self.name_all(ids)?;
        favour_all(&mut self.amendments, member, ids);
        self.votes[place] = Some(fee);
        Ok(())
    }

    /// Gives each id its amendment, unless there would be too many. The amendments are copied only if an id is new.
    fn name_all(&mut self, ids: &[TxId]) -> Result<(), FlagRefusal>
        ensures rows { MatchResult result (λ done. self.new ≡ kept_named ids.now self.old) (λ e. self.new ≡ self.old) }
        ensures many { IfErr result (λ e. e ≡ FlagRefusal.TooMany → most_amendments < length (with_rows_of self.old.amendments ids.now)) }
        ensures few { IfOk result (λ done. length (with_rows_of self.old.amendments ids.now) ≤ most_amendments) }
    {
        if self.amendments.len() <= MOST_AMENDMENTS && are_named(&self.amendments, ids) {
            return Ok(());
        }
        let Ok(rows) = with_rows(&self.amendments, ids) else {
            return Err(FlagRefusal::OutOfMemory);
        };
        if rows.len() > MOST_AMENDMENTS {
            return Err(FlagRefusal::TooMany);
        }
        self.amendments = rows;
        Ok(())
    }

    /// The node reported a flag ledger that closed then, which these members of its list validated. What is said of
    /// that, or `OutOfMemory`, and all stays then.
    pub fn decide(
        &mut self,
        node: NodeNo,
        seq: Seq,
        close: Secs,
        counted: &[NodeNo],
    ) -> Result<FlagNews, OutOfMemory>
        requires few { length counted.now ≤ 64 }
        requires members { All (λ m. (1 ≤ m) × (m ≤ 64)) counted.now }
        // Where what is kept stands for some votes and reports, the lines are those of one report more,
        ensures news { IfOk result (λ news. (past : Past) → Remembers self.old past
            → news ≡ lines_of node seq (report_of past node close counted.now) (reports_of past.reports node)) }
        // and it stands for that one too.
        ensures remembers { MatchResult result
            (λ news. (past : Past) → Remembers self.old past
            → Remembers self.new (with_report past (report_of past node close counted.now)))
            (λ e. self.new ≡ self.old) }
        // The lines, and what is kept then, are functions of what is kept.
        ensures said { IfOk result (λ news. news ≡ kept_lines node seq close counted.now self.old) }
        ensures kept { OnOk result (self.new ≡ kept_after node close counted.now self.old) }
    {
        self.take_report(node, seq, close, counted)
    }

    /// The same over what is kept.
    fn take_report(
        &mut self,
        node: NodeNo,
        seq: Seq,
        close: Secs,
        counted: &[NodeNo],
    ) -> Result<FlagNews, OutOfMemory>
        requires { length counted.now ≤ 64 }
        ensures said { IfOk result (λ news. news ≡ kept_lines node seq close counted.now self.old) }
        ensures kept { MatchResult result (λ news. self.new ≡ kept_after node close counted.now self.old) (λ e. self.new ≡ self.old) }
        ensures first { 1 ≤ node }
        ensures last { node ≤ 64 }
    {
        let place = place_of(node);
        let alloc = *self.amendments.allocator();
        let mut lines = Vec::with_capacity(alloc, self.amendments.len() + 1)?;
        report_all(&mut self.amendments, node, seq, close, counted, &mut lines);
        let before = self.fees[place];
        let fee = elected(&self.votes, counted, before);
        self.fees[place] = fee;
        push_line(&mut lines, fee_line(node, seq, fee, before));
        Ok(FlagNews::from_vec(lines))
    }
}

/// What a report says of the fee.
fn fee_line(node: NodeNo, seq: Seq, fee: u32, before: u32) -> Option<FlagLine>
    ensures { line_list result ≡ fee_line_of node seq fee before }
{
    if fee == before {
        None
    } else {
        Some(FlagLine::Fee(node, seq, fee))
    }
}

/// How each amendment stands at a node after a report more. What is said of that is put behind the lines.
fn report_all(
    amendments: &mut [Amendment],
    node: NodeNo,
    seq: Seq,
    close: Secs,
    counted: &[NodeNo],
    lines: &mut Vec<FlagLine>,
)
    requires few { length counted.now ≤ 64 }
    requires room { vec_len lines.old + length amendments.old ≤ vec_capacity lines.old }
    ensures rows { amendments.new ≡ map (after_report node close counted.now) amendments.old }
    ensures said { lines.new.items ≡ lines.old.items ++ flat_map (row_news node seq close counted.now) amendments.old }
    ensures room { vec_len lines.new ≤ vec_len lines.old + length amendments.old }
    ensures capacity { vec_capacity lines.new ≡ vec_capacity lines.old }
{
    for place in 0..amendments.len() {
        let line = amendments[place].report(node, seq, close, counted);
        push_line(lines, line);
    }
}

/// Puts a line behind others, if there is one.
fn push_line(lines: &mut Vec<FlagLine>, line: Option<FlagLine>)
    requires { vec_len lines.old + 1 ≤ vec_capacity lines.old }
    ensures said { lines.new.items ≡ lines.old.items ++ line_list line }
    ensures room { vec_len lines.new ≤ vec_len lines.old + 1 }
    ensures capacity { vec_capacity lines.new ≡ vec_capacity lines.old }
{
    if let Some(line) = line {
        lines.push_reserved(line);
    }
}

/// The amendments, and those of the ids that have none yet, each at its place.
fn with_rows(amendments: &Vec<Amendment>, ids: &[TxId]) -> Result<Vec<Amendment>, OutOfMemory>
    ensures { IfOk result (λ rows. rows.items ≡ with_rows_of amendments.now.items ids.now) }
{
    let mut rows = Vec::with_capacity(*amendments.allocator(), amendments.len() + ids.len())?;
    rows.extend_from_slice(amendments)?;
    for id in ids {
        name(&mut rows, id)?;
    }
    Ok(rows)
}

/// Gives an id its amendment, at its place, if it has none.
fn name(amendments: &mut Vec<Amendment>, id: &TxId) -> Result<(), OutOfMemory>
    ensures { OnOk result (amendments.new.items ≡ with_row amendments.old.items id.now) }
{
    if !is_named(amendments, id) {
        let place = row_place(amendments, id);
        amendments.insert(place, Amendment::new(*id))?;
    }
    Ok(())
}

fn is_named(amendments: &[Amendment], id: &TxId) -> bool
    ensures { result ≡ has_row amendments.now id.now }
{
    amendments.iter().any(|amendment| amendment.id == *id)
}

fn are_named(amendments: &[Amendment], ids: &[TxId]) -> bool
    ensures { result ≡ list_all (has_row amendments.now) ids.now }
{
    ids.iter().all(|id| is_named(amendments, id))
}

/// How many amendments stand before an id.
fn row_place(amendments: &[Amendment], id: &TxId) -> usize
    ensures value { result ≡ row_place_of amendments.now id.now }
    ensures within { result ≤ length amendments.now }
{
    amendments
        .iter()
        .take_while(|amendment| is_below(&amendment.id, id))
        .count()
}

fn is_below(a: &TxId, b: &TxId) -> bool
    ensures { result ≡ is_below_of a.now b.now }
{
    a < b
}

/// The member favours these amendments, and no others.
fn favour_all(amendments: &mut [Amendment], member: NodeNo, ids: &[TxId])
    ensures { amendments.new ≡ map (favoured_by member ids.now) amendments.old }
{
    for place in 0..amendments.len() {
        amendments[place].favour(member, ids);
    }
}
