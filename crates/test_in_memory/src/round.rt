ghost use Rattle.std.specs.Prelude.{◌≤◌, length};

use crate::dice::Dice;
use crate::lists::Lists;
use crate::rising::is_set;
use std::alloc::Global;
use xl_base::{MOST_IDS, OutOfMemory, TxId, set_id};
use xl_disputes::Disputes;

/// Three hundred transactions, in rising order.
fn all_txs(alloc: Global) -> Result<Vec<TxId>, OutOfMemory> {
    let mut txs = Vec::new(alloc);
    for number in 0u32..300 {
        let mut id = [7; 32];
        id[12..16].copy_from_slice(&number.to_be_bytes());
        txs.push(TxId(id))?;
    }
    Ok(txs)
}

/// How many of these transactions are taken, mostly few.
fn count_of(txs: &[TxId], dice: &mut Dice) -> usize
    ensures { result ≤ length txs.now }
{
    if dice.below(20) == 0 {
        txs.len()
    } else {
        txs.len().min(24)
    }
}

/// A set of some of these transactions.
fn some_set(alloc: Global, dice: &mut Dice, txs: &[TxId]) -> Result<Vec<TxId>, OutOfMemory> {
    let share = dice.below(17);
    let mut set = Vec::new(alloc);
    for tx in &txs[..count_of(txs, dice)] {
        if set.len() < MOST_IDS && dice.below(16) < share {
            set.push(*tx)?;
        }
    }
    Ok(set)
}

/// One call on both, with this set.
fn call(
    index: &mut Disputes,
    lists: &mut Lists,
    dice: &mut Dice,
    set: &[TxId],
) -> Result<(), OutOfMemory> {
    let member = dice.member();
    match dice.below(32) {
        0 => {
            index.reset();
            lists.reset()?;
        }
        1..=3 => {
            index.forget(member);
            lists.release(member.get());
            lists.leave(member);
        }
        4..=6 => {
            index.leave(member);
            lists.leave(member);
        }
        7..=18 => {
            index.position(member, set_id(set));
            lists.position(member, set_id(set))?;
        }
        19..=20 if is_set(set) => {
            index.own(set);
            lists.hold(0, set)?;
        }
        _ if is_set(set) => {
            index.hold(member, set);
            lists.hold(member.get(), set)?;
        }
        _ => {}
    }
    Ok(())
}

/// Both decide their own set anew: whether they tell the same.
fn update(
    index: &mut Disputes,
    lists: &mut Lists,
    dice: &mut Dice,
    txs: &[TxId],
) -> Result<bool, OutOfMemory> {
    let percent = dice.below(250) as u64;
    let proposing = dice.below(2) == 0;
    let changed = index.update(percent, proposing);
    let stays = lists.owns(index.own_set(), index.own_id());
    lists.update(txs, percent, proposing)?;
    Ok(changed != stays)
}

/// Whether both have one set of our own, and say the same of some transactions.
fn are_alike(index: &mut Disputes, lists: &Lists, dice: &mut Dice, txs: &[TxId]) -> bool {
    let mut alike = lists.owns(index.own_set(), index.own_id());
    for _ in 0..8 {
        let count = count_of(txs, dice);
        if let Some(tx) = txs.get(dice.below(count + 1)) {
            alike = alike && index.votes_of(tx) == lists.votes_of(tx);
        }
    }
    alike
}

/// After how many of so many calls the index and the lists differ.
pub fn differing(alloc: Global, calls: u64) -> Result<u64, OutOfMemory> {
    let mut dice = Dice { state: calls };
    let txs = all_txs(alloc)?;
    let mut index = Disputes::open(alloc)?;
    let mut lists = Lists::open(alloc)?;
    let mut differ: u64 = 0;
    for number in 0..calls {
        // Eight sets are about at a time.
        let seed = (number / 500 * 8).wrapping_add(dice.below(8) as u64);
        let set = some_set(alloc, &mut Dice { state: seed }, &txs)?;
        call(&mut index, &mut lists, &mut dice, &set)?;
        let same = dice.below(6) > 0 || update(&mut index, &mut lists, &mut dice, &txs)?;
        if !same || !are_alike(&mut index, &lists, &mut dice, &txs) {
            differ = differ.saturating_add(1);
        }
    }
    Ok(differ)
}
