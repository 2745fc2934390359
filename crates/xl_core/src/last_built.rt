ghost use Rattle.std.specs.Prelude.{◌≡◌, ◌-◌, ◌^◌, ◌<◌, IfSome, IsTrue};
ghost use Rattle.xl_ledger.specs.Headers.{header_id};
ghost use Rattle.xl_core.specs.Hashing.{IsNext, IsNextKept};

use std::marker::Model;
use xl_base::{LedgerId, Secs, SetId};
use xl_ledger::{Header, build_next, id_of};

/// What a ledger is built on: the one that it follows, and its terms.
#[derive(Clone, Copy)]
pub(crate) struct Basis {
    pub(crate) parent: Header,
    pub(crate) terms: Terms,
}

/// The id of the ledger that is followed, and what is agreed on.
#[derive(Clone, Copy, PartialEq, Eq)]
pub(crate) struct Terms {
    pub(crate) parent_id: LedgerId,
    pub(crate) set: SetId,
    /// The close time as it is to stand, or 0 if none was agreed on.
    pub(crate) close: Secs,
    pub(crate) resolution: u8,
}

/// The header of a ledger, and its id.
#[derive(Clone, Copy)]
pub(crate) struct NextLedger {
    pub(crate) header: Header,
    pub(crate) id: LedgerId,
}

/// A ledger, with what it was built on.
#[derive(Clone, Copy)]
struct BuiltLedger {
    basis: Basis,
    next: NextLedger,
}

/// The ledger that was built last. Whoever builds on the same finds it here, so any number of nodes may share it.
#[derive(Drop)]
pub struct LastBuilt {
    last: Option<BuiltLedger>,
}

impl Model for LastBuilt {
    ghost use Rattle.std.specs.Prelude.{IfSome};
    ghost use Rattle.xl_core.specs.Hashing.{IsNextKept};

    ghost Value = { Unit {0} };

    ghost view = { λ _. tt };

    ghost invariant = { λ a. IfSome a.last IsNextKept };
}

/// Whether two headers are the same.
fn is_same_header(one: &Header, other: &Header) -> bool
    ensures { IsTrue result → one.now ≡ other.now }
{
    one == other
}

/// Whether two terms are the same.
fn are_same_terms(one: &Terms, other: &Terms) -> bool
    ensures { IsTrue result → one.now ≡ other.now }
{
    one == other
}

/// Whether two ledgers are built on the same.
fn is_same_basis(one: &Basis, other: &Basis) -> bool
    ensures { IsTrue result → one.now ≡ other.now }
{
    is_same_header(&one.parent, &other.parent) && are_same_terms(&one.terms, &other.terms)
}

/// What was built, if it was built on this.
fn next_by(built: &BuiltLedger, basis: &Basis) -> Option<NextLedger>
    requires { IsNextKept built.now }
    ensures { IfSome result (λ next. IsNext basis.now next) }
{
    if is_same_basis(&built.basis, basis) {
        Some(built.next)
    } else {
        None
    }
}

/// The ledger that was built on this, if it is the kept one.
fn next_in(kept: &Option<BuiltLedger>, basis: &Basis) -> Option<NextLedger>
    requires { IfSome kept.now IsNextKept }
    ensures { IfSome result (λ next. IsNext basis.now next) }
{
    match kept {
        Some(built) => next_by(built, basis),
        None => None,
    }
}

/// The id of a header, if it is that of what was built.
fn id_by(built: &BuiltLedger, header: &Header) -> Option<LedgerId>
    requires { IsNextKept built.now }
    ensures { IfSome result (λ id. id ≡ header_id header.now) }
{
    if is_same_header(&built.next.header, header) {
        Some(built.next.id)
    } else {
        None
    }
}

/// The id of a header, if it is that of the kept ledger.
fn id_in(kept: &Option<BuiltLedger>, header: &Header) -> Option<LedgerId>
    requires { IfSome kept.now IsNextKept }
    ensures { IfSome result (λ id. id ≡ header_id header.now) }
{
    match kept {
        Some(built) => id_by(built, header),
        None => None,
    }
}

/// The ledger that is built on this.
fn next_on(basis: &Basis) -> NextLedger
    requires { basis.now.parent.seq < 2 ^ 32 - 1 }
    ensures { IsNext basis.now result }
{
    let terms = &basis.terms;
    let header = build_next(
        terms.parent_id,
        &basis.parent,
        terms.set,
        terms.close,
        terms.resolution,
    );
    let id = id_of(&header);
    NextLedger { header, id }
}

impl LastBuilt {
    /// No ledger was built yet.
    pub(crate) fn none() -> LastBuilt {
        LastBuilt { last: None }
    }

    /// The ledger that is built on this, which is the last one then.
    pub(crate) fn next(&mut self, basis: &Basis) -> NextLedger
        requires { basis.now.parent.seq < 2 ^ 32 - 1 }
        ensures { IsNext basis.now result }
    {
        match next_in(&self.last, basis) {
            Some(next) => next,
            None => self.build(basis),
        }
    }

    fn build(&mut self, basis: &Basis) -> NextLedger
        requires { basis.now.parent.seq < 2 ^ 32 - 1 }
        ensures { IsNext basis.now result }
    {
        let next = next_on(basis);
        self.last = Some(BuiltLedger {
            basis: *basis,
            next,
        });
        next
    }

    /// The id of a header, if it is that of the last one.
    pub(crate) fn id_of(&self, header: &Header) -> Option<LedgerId>
        ensures { IfSome result (λ id. id ≡ header_id header.now) }
    {
        id_in(&self.last, header)
    }
}
