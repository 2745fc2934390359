ghost use Rattle.std.specs.Prelude.{refl, Some};
ghost use Rattle.std.specs.Cmp.{on_per, on_po, on_total, partial_equiv_from_equiv, unsigned_po};
ghost use Rattle.std.specs.Cmp.Lexicographic.{slice_cmp, slice_partial_cmp, lists_agrees, lists_po, nat_list_cmp_total, nat_list_eq_equiv, texts_ties};
ghost use Rattle.std.specs.Ordering.{nat_cmp};
ghost use Rattle.std.specs.Str.{bytes_eq};

use crate::order::{compare, same};
use std::cmp::Ordering;

/// A ledger, named by the half hash of its header, or the root by 32 zero bytes. Ids are ordered by their bytes.
#[derive(Clone, Copy, Debug, Eq)]
pub struct LedgerId(pub [u8; 32]);

impl PartialEq for LedgerId {
    ghost eq = { λ a b. bytes_eq a.0 b.0 };

    ghost laws = { on_per (λ id. id.0) (partial_equiv_from_equiv nat_list_eq_equiv) };

    fn eq(&self, other: &LedgerId) -> bool {
        same(&self.0, &other.0)
    }
}

impl PartialOrd for LedgerId {
    ghost partial_cmp = { λ a b. slice_partial_cmp (λ x y. Some (nat_cmp x y)) a.0 b.0 };

    ghost laws = { on_po (λ id. id.0) (lists_po unsigned_po) };

    #[tactic(auto, using(crate::proofs::Words::as_partial))]
    fn partial_cmp(&self, other: &LedgerId) -> Option<Ordering> {
        Some(self.cmp(other))
    }
}

impl Ord for LedgerId {
    ghost cmp = { λ a b. slice_cmp nat_cmp a.0 b.0 };

    ghost total = { on_total (λ id. id.0) nat_list_cmp_total };

    ghost matches_partial_cmp = { λ a b. lists_agrees (λ x y. refl) a.0 b.0 };

    ghost matches_eq = { λ a b. texts_ties a.0 b.0 };

    fn cmp(&self, other: &LedgerId) -> Ordering {
        compare(&self.0, &other.0)
    }
}

/// A set of transactions, named by `set_id`. Ids are ordered by their bytes.
#[derive(Clone, Copy, Debug, Eq)]
pub struct SetId(pub [u8; 32]);

impl PartialEq for SetId {
    ghost eq = { λ a b. bytes_eq a.0 b.0 };

    ghost laws = { on_per (λ id. id.0) (partial_equiv_from_equiv nat_list_eq_equiv) };

    fn eq(&self, other: &SetId) -> bool {
        same(&self.0, &other.0)
    }
}

impl PartialOrd for SetId {
    ghost partial_cmp = { λ a b. slice_partial_cmp (λ x y. Some (nat_cmp x y)) a.0 b.0 };

    ghost laws = { on_po (λ id. id.0) (lists_po unsigned_po) };

    #[tactic(auto, using(crate::proofs::Words::as_partial))]
    fn partial_cmp(&self, other: &SetId) -> Option<Ordering> {
        Some(self.cmp(other))
    }
}

impl Ord for SetId {
    ghost cmp = { λ a b. slice_cmp nat_cmp a.0 b.0 };

    ghost total = { on_total (λ id. id.0) nat_list_cmp_total };

    ghost matches_partial_cmp = { λ a b. lists_agrees (λ x y. refl) a.0 b.0 };

    ghost matches_eq = { λ a b. texts_ties a.0 b.0 };

    fn cmp(&self, other: &SetId) -> Ordering {
        compare(&self.0, &other.0)
    }
}

/// A transaction. Ids are ordered by their bytes.
#[derive(Clone, Copy, Eq)]
pub struct TxId(pub [u8; 32]);

impl PartialEq for TxId {
    ghost eq = { λ a b. bytes_eq a.0 b.0 };

    ghost laws = { on_per (λ id. id.0) (partial_equiv_from_equiv nat_list_eq_equiv) };

    fn eq(&self, other: &TxId) -> bool {
        same(&self.0, &other.0)
    }
}

impl PartialOrd for TxId {
    ghost partial_cmp = { λ a b. slice_partial_cmp (λ x y. Some (nat_cmp x y)) a.0 b.0 };

    ghost laws = { on_po (λ id. id.0) (lists_po unsigned_po) };

    #[tactic(auto, using(crate::proofs::Words::as_partial))]
    fn partial_cmp(&self, other: &TxId) -> Option<Ordering> {
        Some(self.cmp(other))
    }
}

impl Ord for TxId {
    ghost cmp = { λ a b. slice_cmp nat_cmp a.0 b.0 };

    ghost total = { on_total (λ id. id.0) nat_list_cmp_total };

    ghost matches_partial_cmp = { λ a b. lists_agrees (λ x y. refl) a.0 b.0 };

    ghost matches_eq = { λ a b. texts_ties a.0 b.0 };

    fn cmp(&self, other: &TxId) -> Ordering {
        compare(&self.0, &other.0)
    }
}
