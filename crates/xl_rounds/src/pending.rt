ghost use Rattle.std.specs.Prelude.{◌≡◌, [], length, vec_capacity, IfOk, OnOk, OnErr};
ghost use Rattle.std.specs.Result.{result_err};
ghost use Rattle.xl_base.specs.Sets.{IsRising, IsSet};
ghost use Rattle.xl_disputes.specs.Disputes.{has};
ghost use Rattle.xl_disputes.specs.Rising.{with_tx};
ghost use Rattle.xl_rounds.specs.Pending.{submit_refusal, without_accepted};

use crate::RoundRefusal;
use std::alloc::Global;
use std::marker::Model;
use xl_base::{OutOfMemory, TxId};
use xl_disputes::{count_below, is_first, not_below};

/// As many transactions may be pending as a set may have.
const POOL: u32 = 256;

/// The transactions that wait for a ledger, in rising order. No call after `open` takes memory.
#[derive(Drop)]
pub(crate) struct Pending {
    ids: Vec<TxId>,
}

impl Model for Pending {
    ghost use Rattle.std.specs.Prelude.{List, vec_capacity};
    ghost use Rattle.xl_base.specs.declared.ids.TxId.{TxId};
    ghost use Rattle.xl_rounds.specs.Rest.{HasRoom};

    ghost Value = { List TxId };

    ghost view = { λ a. a.ids.items };

    ghost invariant = { λ a. HasRoom a.ids.items (vec_capacity a.ids) };
}

fn is_among(ids: &[TxId], tx: &TxId) -> bool
    ensures { result ≡ has ids.now tx.now }
{
    ids.contains(tx)
}

/// Takes the accepted ids out. Both lists rise, so each is walked once.
fn drop_accepted(ids: &mut Vec<TxId>, accepted: &[TxId])
    requires pending { IsRising ids.old.items }
    requires accepted { IsRising accepted.now }
    ensures left { ids.new.items ≡ without_accepted accepted.now ids.old.items }
    ensures room { vec_capacity ids.new ≡ vec_capacity ids.old }
{
    let mut left = 0;
    let mut rest = accepted;
    for place in 0..ids.len() {
        let tx = ids[place];
        rest = not_below(rest, &tx);
        if !is_first(rest, &tx) {
            ids[left] = tx;
            left += 1;
        }
    }
    ids.truncate(left);
}

impl Pending {
    /// No transaction, and room for as many as may be.
    pub(crate) fn open(alloc: Global) -> Result<Pending, OutOfMemory>
        ensures { IfOk result (λ pending. pending ≡ []) }
    {
        Ok(Pending {
            ids: Vec::with_capacity(alloc, POOL as usize)?,
        })
    }

    /// No transaction is pending any more.
    pub(crate) fn clear(&mut self)
        ensures { self.new ≡ [] }
    {
        self.ids.clear();
    }

    pub(crate) fn as_slice(&self) -> &[TxId]
        ensures value { result.now ≡ self.now }
        ensures set { IsSet self.now }
    {
        &self.ids
    }

    /// Puts a transaction at its place. Refused as pending, or if no more may be, in this order; all then stays.
    pub(crate) fn submit(&mut self, tx: TxId) -> Result<(), RoundRefusal>
        ensures answer { result_err result ≡ submit_refusal self.old tx }
        ensures taken { OnOk result (self.new ≡ with_tx tx self.old) }
        ensures refused { OnErr result (self.new ≡ self.old) }
    {
        if is_among(&self.ids, &tx) {
            return Err(RoundRefusal::Pending(tx));
        }
        if self.ids.len() >= POOL as usize {
            return Err(RoundRefusal::PoolFull(POOL));
        }
        let place = count_below(&self.ids, &tx);
        let _ = self.ids.insert(place, tx);
        Ok(())
    }

    /// Takes the transactions of an accepted set out.
    pub(crate) fn take_out(&mut self, accepted: &[TxId])
        requires { IsRising accepted.now }
        ensures { self.new ≡ without_accepted accepted.now self.old }
    {
        drop_accepted(&mut self.ids, accepted);
    }
}
