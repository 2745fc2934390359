// What is the same as before.
ghost use Rattle.std.specs.Prelude.{◌≡◌};
ghost use Rattle.xl_noted.specs.Same.{
  are_same_ids as are_same_ids_by,
  are_same_members as are_same_members_by,
  is_same_bool as is_same_bool_by,
  is_same_id as is_same_id_by,
  is_same_last as is_same_last_by,
  is_same_list as is_same_list_by,
  is_same_mode as is_same_mode_by,
  is_same_number as is_same_number_by,
  is_same_phase as is_same_phase_by,
  is_same_position as is_same_position_by,
  is_same_proposal as is_same_proposal_by,
  is_same_report as is_same_report_by,
  is_same_row as is_same_row_by,
  is_same_validation as is_same_validation_by,
};

use xl_base::{LedgerId, NodeNo, Seq, TxId};
use xl_core::{LastReport, Report};
use xl_lists::List;
use xl_rounds::{Mode, Phase};
use xl_wire::{Proposal, Validation};

fn is_same_bool(a: bool, b: bool) -> bool
    ensures { result ≡ is_same_bool_by a b }
{
    if a { b } else { !b }
}

fn is_same_id(a: &Option<LedgerId>, b: &Option<LedgerId>) -> bool
    ensures { result ≡ is_same_id_by a.now b.now }
{
    match (a, b) {
        (None, None) => true,
        (Some(a), Some(b)) => a == b,
        _ => false,
    }
}

/// Whether both are the same sequence, or both are none.
pub fn is_same_number(a: &Option<Seq>, b: &Option<Seq>) -> bool
    ensures { result ≡ is_same_number_by a.now b.now }
{
    match (a, b) {
        (None, None) => true,
        (Some(a), Some(b)) => *a == *b,
        _ => false,
    }
}

/// Whether both are the same ledger by its sequence and its id, or both are none.
pub fn is_same_report(a: &Option<Report>, b: &Option<Report>) -> bool
    ensures { result ≡ is_same_report_by a.now b.now }
{
    match (a, b) {
        (None, None) => true,
        (Some(a), Some(b)) => a.seq == b.seq && a.id == b.id,
        _ => false,
    }
}

/// Whether both tell the same last report, and the same of the list.
pub fn is_same_last(a: &LastReport, b: &LastReport) -> bool
    ensures { result ≡ is_same_last_by a.now b.now }
{
    is_same_bool(a.relisted, b.relisted) && is_same_report(&a.report, &b.report)
}

fn is_same_validation(a: &Validation, b: &Validation) -> bool
    ensures { result ≡ is_same_validation_by a.now b.now }
{
    a.seq == b.seq
        && a.signed == b.signed
        && is_same_bool(a.full, b.full)
        && a.id == b.id
        && is_same_id(&a.validated, &b.validated)
}

/// Whether both are the same validation, each field, or both are none.
pub fn is_same_row(a: &Option<Validation>, b: &Option<Validation>) -> bool
    ensures { result ≡ is_same_row_by a.now b.now }
{
    match (a, b) {
        (None, None) => true,
        (Some(a), Some(b)) => is_same_validation(a, b),
        _ => false,
    }
}

/// Whether each field is the same.
pub fn is_same_proposal(a: &Proposal, b: &Proposal) -> bool
    ensures { result ≡ is_same_proposal_by a.now b.now }
{
    a.pseq == b.pseq && a.close == b.close && a.time == b.time && a.prev == b.prev && a.set == b.set
}

/// Whether both are the same proposal, or both are none.
pub fn is_same_position(a: &Option<Proposal>, b: &Option<Proposal>) -> bool
    ensures { result ≡ is_same_position_by a.now b.now }
{
    match (a, b) {
        (None, None) => true,
        (Some(a), Some(b)) => is_same_proposal(a, b),
        _ => false,
    }
}

/// Whether both are the same phase.
pub fn is_same_phase(a: Phase, b: Phase) -> bool
    ensures { result ≡ is_same_phase_by a b }
{
    match (a, b) {
        (Phase::Open, Phase::Open) => true,
        (Phase::Establish, Phase::Establish) => true,
        (Phase::Accepted, Phase::Accepted) => true,
        _ => false,
    }
}

/// Whether both are the same mode.
pub fn is_same_mode(a: Mode, b: Mode) -> bool
    ensures { result ≡ is_same_mode_by a b }
{
    match (a, b) {
        (Mode::Proposing, Mode::Proposing) => true,
        (Mode::Observing, Mode::Observing) => true,
        (Mode::SwitchedLedger, Mode::SwitchedLedger) => true,
        _ => false,
    }
}

fn are_same_members(a: &[NodeNo], b: &[NodeNo]) -> bool
    ensures { result ≡ are_same_members_by a.now b.now }
{
    a == b
}

/// Whether both have the same quorum and the same members.
pub fn is_same_list(a: &List, b: &List) -> bool
    ensures { result ≡ is_same_list_by a.now b.now }
{
    a.quorum() == b.quorum() && are_same_members(a.members(), b.members())
}

/// Whether both hold the same ids in the same order.
pub fn are_same_ids(a: &[TxId], b: &[TxId]) -> bool
    ensures { result ≡ are_same_ids_by a.now b.now }
{
    a == b
}
