// The votes of rows, kept in a branch.
ghost use Rattle.std.specs.Prelude.{◌≡◌, ◌<◌, List, length, map, take, IfSome, None};
ghost use Rattle.xl_lists.specs.Lists.{IsValid};
ghost use Rattle.xl_validations.specs.Rows.{relisted, row_at, unexpired};
ghost use Rattle.xl_validations.specs.Votes.{ledger_named};
ghost use Rattle.xl_validations.specs.Tallies.{IsTallyIn, IsNewest, kept_on, Stands, Turns};

use crate::Row;
use xl_base::{NodeNo, Secs};
use xl_ledger::{Branch, LedgerNo, Registry};
use xl_lists::List;
use xl_wire::Validation;

/// The known ledger that a validation names, if that has its sequence.
pub(crate) fn ledger_named(registry: &Registry, v: &Option<Validation>) -> Option<LedgerNo>
    ensures value { result ≡ ledger_named registry.now.headers v.now }
    ensures known { IfSome result (λ ledger. ledger < length registry.now.headers) }
{
    let v = (*v)?;
    let ledger = registry.find(&v.id)?;
    if registry.seq_of(ledger) == v.seq {
        Some(ledger)
    } else {
        None
    }
}

/// Takes the vote of a member back, if it has one.
fn take_back<B: Branch>(
    branch: &mut B,
    registry: &Registry,
    member: NodeNo,
    before: Option<LedgerNo>,
)
    requires goes { B.goes_with branch.old registry.now.headers }
    requires beside { Stands B.votes B.room branch.old member before }
    ensures goes { B.goes_with branch.new registry.now.headers }
    ensures room { B.room branch.new ≡ B.room branch.old }
    ensures back { Turns B.votes B.room branch.old branch.new member before None }
{
    if before.is_some() {
        branch.unvote(registry, member);
    }
}

/// Takes a vote of a member that has none, if there is one.
fn cast<B: Branch>(branch: &mut B, registry: &Registry, member: NodeNo, after: Option<LedgerNo>)
    requires goes { B.goes_with branch.old registry.now.headers }
    requires known { IfSome after (λ ledger. ledger < length registry.now.headers) }
    requires beside { Stands B.votes B.room branch.old member None }
    ensures goes { B.goes_with branch.new registry.now.headers }
    ensures room { B.room branch.new ≡ B.room branch.old }
    ensures cast { Turns B.votes B.room branch.old branch.new member None after }
{
    if let Some(ledger) = after {
        branch.vote(registry, member, ledger);
    }
}

/// Turns the vote of a member, if it has one, into another, or into none.
pub(crate) fn revote<B: Branch>(
    branch: &mut B,
    registry: &Registry,
    member: NodeNo,
    before: Option<LedgerNo>,
    after: Option<LedgerNo>,
)
    requires goes { B.goes_with branch.old registry.now.headers }
    requires known { IfSome after (λ ledger. ledger < length registry.now.headers) }
    requires beside { Stands B.votes B.room branch.old member before }
    ensures goes { B.goes_with branch.new registry.now.headers }
    ensures room { B.room branch.new ≡ B.room branch.old }
    ensures turned { Turns B.votes B.room branch.old branch.new member before after }
{
    take_back(branch, registry, member, before);
    cast(branch, registry, member, after);
}

/// Takes back the vote of a row whose validation is no longer current at a second.
fn take_back_if_expired<B: Branch>(branch: &mut B, registry: &Registry, row: &Row, now: Secs)
    requires goes { B.goes_with branch.old registry.now.headers }
    requires beside { Stands B.votes B.room branch.old row.now.member
        (ledger_named registry.now.headers row.now.current) }
    ensures goes { B.goes_with branch.new registry.now.headers }
    ensures room { B.room branch.new ≡ B.room branch.old }
    ensures turned { Turns B.votes B.room branch.old branch.new row.now.member
        (ledger_named registry.now.headers row.now.current)
        (ledger_named registry.now.headers (unexpired now row.now.current)) }
{
    if row.is_expired(now) {
        let before = ledger_named(registry, &row.current);
        take_back(branch, registry, row.member, before);
    }
}

/// Takes back the votes of the rows whose validations are no longer current at a second.
pub(crate) fn take_back_expired<B: Branch>(
    branch: &mut B,
    registry: &Registry,
    rows: &[Row],
    now: Secs,
)
    requires tally { IsTallyIn B.goes_with B.votes B.room branch.old rows.now registry.now.headers }
    ensures tally { IsTallyIn B.goes_with B.votes B.room branch.new (map (row_at now) rows.now) registry.now.headers }
{
    for row in rows {
        take_back_if_expired(branch, registry, row, now);
    }
}

/// Takes back the vote of a row whose member isn't on a list.
fn take_back_unless_listed<B: Branch>(branch: &mut B, registry: &Registry, row: &Row, list: &List)
    requires goes { B.goes_with branch.old registry.now.headers }
    requires beside { Stands B.votes B.room branch.old row.now.member
        (ledger_named registry.now.headers row.now.current) }
    ensures goes { B.goes_with branch.new registry.now.headers }
    ensures room { B.room branch.new ≡ B.room branch.old }
    ensures turned { Turns B.votes B.room branch.old branch.new row.now.member
        (ledger_named registry.now.headers row.now.current)
        (ledger_named registry.now.headers (kept_on list.now.members row.now)) }
{
    if !list.has(row.member) {
        let vote = ledger_named(registry, &row.current);
        take_back(branch, registry, row.member, vote);
    }
}

/// Takes back the votes of the rows whose members aren't on a list. What is left are the votes of that list's rows.
pub(crate) fn take_back_unlisted<B: Branch>(
    branch: &mut B,
    registry: &Registry,
    rows: &[Row],
    list: &List,
)
    requires tally { IsTallyIn B.goes_with B.votes B.room branch.old rows.now registry.now.headers }
    requires valid { IsValid list.now }
    ensures tally { IsTallyIn B.goes_with B.votes B.room branch.new
        (relisted list.now.members rows.now) registry.now.headers }
{
    for row in rows {
        take_back_unless_listed(branch, registry, row, list);
    }
}

/// Takes the vote of a row whose validation waited for a ledger.
fn cast_if_for<B: Branch>(branch: &mut B, registry: &Registry, row: &Row, ledger: LedgerNo)
    requires goes { B.goes_with branch.old registry.now.headers }
    requires newest { IsNewest registry.now.headers ledger }
    requires beside { Stands B.votes B.room branch.old row.now.member
        (ledger_named (take ledger registry.now.headers) row.now.current) }
    ensures goes { B.goes_with branch.new registry.now.headers }
    ensures room { B.room branch.new ≡ B.room branch.old }
    ensures turned { Turns B.votes B.room branch.old branch.new row.now.member
        (ledger_named (take ledger registry.now.headers) row.now.current)
        (ledger_named registry.now.headers row.now.current) }
{
    if row.is_of(registry.seq_of(ledger), &registry.id_at(ledger)) {
        cast(branch, registry, row.member, Some(ledger));
    }
}

/// Takes the votes of the rows whose validations waited for the ledger that was added last.
pub(crate) fn cast_for<B: Branch>(
    branch: &mut B,
    registry: &Registry,
    rows: &[Row],
    ledger: LedgerNo,
)
    requires newest { IsNewest registry.now.headers ledger }
    requires tally { IsTallyIn B.goes_with B.votes B.room branch.old rows.now (take ledger registry.now.headers) }
    ensures tally { IsTallyIn B.goes_with B.votes B.room branch.new rows.now registry.now.headers }
{
    for row in rows {
        cast_if_for(branch, registry, row, ledger);
    }
}
