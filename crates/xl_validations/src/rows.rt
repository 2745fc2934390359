ghost use Rattle.std.specs.Prelude.{◌≡◌, ◌==◌, ◌≤◌, map, length, vec_capacity, position, option_map, Some, IsSome, is_some, IfOk, OnOk, OnErr};
ghost use Rattle.std.specs.List.{list_any};
ghost use Rattle.std.specs.Result.{result_err};
ghost use Rattle.xl_lists.specs.Lists.{IsValid};
ghost use Rattle.xl_validations.specs.Rows.{
  row_of,
  largest_of,
  current_of,
  heard_of,
  row_for,
  relisted,
  refusal_of,
  empty_row,
  with_validation,
  at_member,
  row_at,
  count_full,
  named,
  is_expired,
};

use crate::counted::{Counted, count_full_in, recount};
use crate::{Row, ValRefusal};
use std::alloc::Global;
use std::marker::Model;
use std::mem::swap;
use xl_base::{LedgerId, MOST_MEMBERS, NodeNo, OutOfMemory, Secs, Seq};
use xl_lists::List;
use xl_wire::Validation;

/// The rows of a list's members, in the order of the list. No call after `open` takes memory.
#[derive(Drop)]
pub struct Rows {
    rows: Vec<Row>,
    /// Room for the rows of another list.
    beside: Vec<Row>,
    /// How many hold the full validation that was taken last.
    last: Counted,
}

impl Model for Rows {
    ghost use Rattle.std.specs.Prelude.{List, vec_capacity};
    ghost use Rattle.xl_validations.specs.Stored.{AreStored};
    ghost use Rattle.xl_validations.specs.declared.row.Row.{Row};

    ghost Value = { List Row };

    ghost view = { λ a. a.rows.items };

    ghost invariant = { λ a. AreStored a.rows.items (vec_capacity a.rows) (vec_capacity a.beside) a.last };
}

/// The row of a member, or an empty one.
fn row_for(rows: &[Row], member: NodeNo) -> Row
    ensures { result ≡ row_for rows.now member }
{
    match find_row(rows, member) {
        Some(row) => *row,
        None => Row::empty(member),
    }
}

/// Makes a vector hold a row for each member: the one that it has among others, or an empty one.
fn fill(rows: &mut Vec<Row>, members: &[NodeNo], others: &[Row])
    requires { length members.now ≤ vec_capacity rows.old }
    ensures rows { rows.new.items ≡ relisted members.now others.now }
    ensures capacity { vec_capacity rows.new ≡ vec_capacity rows.old }
{
    rows.clear();
    for member in members {
        rows.push_reserved(row_for(others, *member));
    }
}

/// The place of the first row of a member, if there is one.
fn position_of(rows: &[Row], member: NodeNo) -> Option<usize>
    ensures { result ≡ position (λ row. row.member == member) rows.now }
{
    rows.iter().position(|row| row.member == member)
}

/// The place of a member's row.
fn place_of(rows: &[Row], member: NodeNo) -> usize
    requires listed { IsSome (row_of rows.now member) }
    ensures { position (λ row. row.member == member) rows.now ≡ Some result }
{
    position_of(rows, member).unwrap()
}

/// A member's row, if it has one.
fn find_row(rows: &[Row], member: NodeNo) -> Option<&Row>
    ensures { option_map (λ row. row.now) result ≡ row_of rows.now member }
{
    rows.iter().find(|row| row.member == member)
}

/// Whether a row holds a validation that is no longer current at a second.
fn is_any_expired(rows: &[Row], now: Secs) -> bool
    ensures { result ≡ list_any (λ row. is_expired now row.current) rows.now }
{
    rows.iter().any(|row| row.is_expired(now))
}

/// Expires each row.
fn expire_all(rows: &mut [Row], now: Secs)
    ensures { rows.new ≡ map (row_at now) rows.old }
{
    for row in rows.iter_mut() {
        row.expire(now);
    }
}

impl Rows {
    /// An empty row for each member of the list.
    pub fn open(alloc: Global, list: &List) -> Result<Rows, OutOfMemory>
        ensures rows { IfOk result (λ rows. rows ≡ map empty_row list.now.members) }
        ensures valid { IsValid list.now }
    {
        let members = list.members();
        let mut rows = Vec::with_capacity(alloc, MOST_MEMBERS)?;
        let beside = Vec::with_capacity(alloc, MOST_MEMBERS)?;
        fill(&mut rows, members, &[]);
        let last = recount(&rows, 0, LedgerId([0; 32]));
        Ok(Rows { rows, beside, last })
    }

    /// The rows.
    pub fn as_slice(&self) -> &[Row]
        ensures { result.now ≡ self.now }
    {
        &self.rows
    }

    /// Whether the member has a row: it is on the list.
    pub fn has(&self, member: NodeNo) -> bool
        ensures { result ≡ is_some (row_of self.now member) }
    {
        position_of(&self.rows, member).is_some()
    }

    /// Takes a member's validation into its row.
    ///
    /// Refused as stale, as a repeat, as a conflict, or as old, tested in this order; the rows then stay as they were.
    pub fn take(&mut self, from: NodeNo, v: &Validation, now: Secs) -> Result<(), ValRefusal>
        requires listed { IsSome (row_of self.old from) }
        ensures answer { result_err result ≡ refusal_of self.old from now v.now }
        ensures taken { OnOk result (self.new ≡ at_member from (with_validation v.now) self.old) }
        ensures refused { OnErr result (self.new ≡ self.old) }
    {
        let place = place_of(&self.rows, from);
        let had = self.last.has(&self.rows[place]);
        let row = &mut self.rows[place];
        let answer = row.take(v, now);
        if answer.is_ok() {
            self.last = self.last.after(&self.rows, had, v);
        }
        answer
    }

    /// Removes the validations that are no longer current at a second. Each row keeps its greatest sequence.
    pub fn expire(&mut self, now: Secs)
        ensures { self.new ≡ map (row_at now) self.old }
    {
        if is_any_expired(&self.rows, now) {
            expire_all(&mut self.rows, now);
            self.last = recount(&self.rows, self.last.seq, self.last.id);
        }
    }

    /// Goes over to another list: members that stay keep their rows, and each new one has an empty row.
    pub fn relist(&mut self, list: &List)
        ensures rows { self.new ≡ relisted list.now.members self.old }
        ensures valid { IsValid list.now }
    {
        fill(&mut self.beside, list.members(), &self.rows);
        swap(&mut self.rows, &mut self.beside);
        self.last = recount(&self.rows, self.last.seq, self.last.id);
    }

    /// How many members' current full validations are of this sequence and name this id: at most 64.
    pub fn count_full(&self, seq: Seq, id: &LedgerId) -> u32
        ensures { result ≡ count_full seq id.now self.now }
    {
        if self.last.is_of(seq, id) {
            self.last.count
        } else {
            count_full_in(&self.rows, seq, id)
        }
    }

    /// How many members other than `me` have a current validation, full or partial, that names this id: at most 64.
    pub fn named(&self, me: NodeNo, id: &LedgerId) -> u32
        ensures { result ≡ named me id.now self.now }
    {
        self.rows
            .iter()
            .filter(|row| row.member != me && row.is_for(id))
            .count() as u32
    }

    /// The greatest sequence taken from a member; 0 at first, and for one without a row.
    pub fn largest(&self, member: NodeNo) -> Seq
        ensures { result ≡ largest_of self.now member }
    {
        match find_row(&self.rows, member) {
            Some(row) => row.largest,
            None => 0,
        }
    }

    /// A member's current validation, if it has one.
    pub fn current(&self, member: NodeNo) -> Option<Validation>
        ensures { result ≡ current_of self.now member }
    {
        find_row(&self.rows, member)?.current
    }

    /// The ledger that a member last reported, as its current validation tells, if that does.
    pub fn heard(&self, member: NodeNo) -> Option<LedgerId>
        ensures { result ≡ heard_of self.now member }
    {
        self.current(member)?.validated
    }
}
