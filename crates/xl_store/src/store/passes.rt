ghost use Rattle.std.specs.Prelude.{◌≡◌, ◌<◌, ◌≤◌, ◌^◌, length, IfOk, IfErr};
ghost use mathlib.Core.List.{IsPrefix};
ghost use Rattle.xl_turns.specs.Histories.{Runs};
ghost use Rattle.xl_turns.specs.Knowing.{newcomer, first_part, second_part, joined};
ghost use Rattle.xl_turns.specs.Places.{all_below};
ghost use Rattle.xl_turns.specs.Passes.{known};
ghost use Rattle.xl_core.specs.CoreLives.{core_after};
ghost use Rattle.xl_store.specs.Entries.{Leads, life_of};
ghost use Rattle.xl_store.specs.Retentions.{left_of};
ghost use Rattle.xl_store.specs.declared.retention.Retention.TheVariants as retention;
ghost use Rattle.xl_store.specs.Stores.{start_of, keeper_of, turns_of, retention_of, IsOf};
ghost use Rattle.xl_store.specs.Closing.{KeepsAll};

use super::{Closed, Pass, Spared, Store};
use crate::home::Home;
use crate::retention::{Kept, Retention};
use crate::spares::Spares;
use std::alloc::{AllocFailed, Global};
use xl_core::Core;
use xl_io::Keeper;
use xl_ledger::Branch;
use xl_turns::{Held, TicketLock};

impl<B: Branch + Drop, K: Keeper + Drop> Store<B, K> {
    /// A store over a core and its keeper, which has this many turns in all, 1 to 2^62, and its first pass. It keeps
    /// each entry in memory until it is closed. For lack of memory it hands both back.
    pub fn open(
        alloc: Global,
        core: Core<B>,
        keeper: K,
        limit: u64,
    ) -> Result<(Store<B, K>, Pass), Spared<B, K>>
        requires limit { (0 < limit) × (limit ≤ 2 ^ 62) }
        ensures start { IfOk result (λ opened. (start_of opened.0 ≡ core) × (keeper_of opened.0 ≡ keeper)) }
        ensures limit { IfOk result (λ opened. turns_of opened.0 ≡ limit) }
        ensures keeps { IfOk result (λ opened. retention_of opened.0 ≡ retention.Whole) }
        ensures pass { IfOk result (λ opened. IsOf opened.0 opened.1 × (known opened.1 ≡ newcomer)) }
        ensures spared { IfErr result (λ spared. (spared.core ≡ core) × (spared.keeper ≡ keeper)) }
    {
        Store::open_with(alloc, core, keeper, limit, Retention::Whole)
    }

    /// The same, but of its entries it keeps what `retention` says.
    pub fn open_with(
        alloc: Global,
        core: Core<B>,
        keeper: K,
        limit: u64,
        retention: Retention,
    ) -> Result<(Store<B, K>, Pass), Spared<B, K>>
        requires limit { (0 < limit) × (limit ≤ 2 ^ 62) }
        ensures start { IfOk result (λ opened. (start_of opened.0 ≡ core) × (keeper_of opened.0 ≡ keeper)) }
        ensures limit { IfOk result (λ opened. turns_of opened.0 ≡ limit) }
        ensures keeps { IfOk result (λ opened. retention_of opened.0 ≡ retention) }
        ensures pass { IfOk result (λ opened. IsOf opened.0 opened.1 × (known opened.1 ≡ newcomer)) }
        ensures spared { IfErr result (λ spared. (spared.core ≡ core) × (spared.keeper ≡ keeper)) }
    {
        let Ok(spares) = Spares::new(alloc, retention != Retention::Nothing) else {
            return Err(Spared { core, keeper });
        };
        let kept = Kept::new(alloc, retention);
        let home = match Box::new(alloc, Home { core, keeper, kept }) {
            Ok(home) => home,
            Err(AllocFailed { value }) => return Err(spare(value)),
        };
        match TicketLock::open(alloc, home, limit) {
            Ok((lock, pass)) => {
                let store = Store {
                    lock,
                    alloc,
                    retention,
                    spares,
                };
                Ok((store, pass))
            }
            Err(xl_turns::Spared { object }) => Err(spare(Box::into_inner(object))),
        }
    }

    /// Two passes that have seen the same. The first keeps the places, and the second gets half of the share, rounded
    /// down.
    pub fn split(&self, pass: Pass) -> (Pass, Pass)
        requires pass { IsOf self.now pass }
        requires share { 2 ≤ (known pass).share }
        ensures passes { IsOf self.now result.0 × IsOf self.now result.1 }
        ensures first { known result.0 ≡ first_part (known pass) }
        ensures second { known result.1 ≡ second_part (known pass) }
    {
        self.lock.split(pass)
    }

    /// One pass of two, with the longer list that they have seen, which the other begins, and both places and shares.
    pub fn join(&self, one: Pass, other: Pass) -> Pass
        requires one { IsOf self.now one }
        requires other { IsOf self.now other }
        ensures pass { IsOf self.now result }
        ensures known { known result ≡ joined (known one) (known other) }
        ensures one { IsPrefix (known one).seen (known result).seen }
        ensures other { IsPrefix (known other).seen (known result).seen }
    {
        self.lock.join(one, other)
    }

    /// The core, its keeper and the journal, from the last pass, and the entries if the store kept them.
    pub fn close(self, pass: Pass) -> Closed<B, K>
        requires pass { IsOf self pass }
        requires whole { (known pass).share ≡ 2 ^ 126 }
        // the journal is one legal history, and the core is the one after it as a life; the pass has all of its places
        ensures legal { Runs Leads (start_of self) result.journal result.core }
        ensures life { result.core ≡ core_after (start_of self) (life_of result.journal) }
        ensures keeper { KeepsAll K.held K.saves K.faults K.save_gives
            (start_of self) result.journal (keeper_of self) result.keeper }
        ensures begins { IsPrefix (known pass).seen result.journal }
        ensures places { (known pass).mine ≡ all_below (length result.journal) }
        ensures limit { length result.journal ≤ turns_of self }
        ensures drawn { (known pass).drawn ≤ length result.journal }
        // as much of the journal is left as the store keeps
        ensures kept { result.left ≡ left_of (retention_of self) result.journal }
    {
        let Store {
            lock,
            alloc: _,
            retention: _,
            spares: _,
        } = self;
        let Held { object, journal } = lock.close(pass);
        let Home { core, keeper, kept } = Box::into_inner(object);
        Closed {
            core,
            keeper,
            journal,
            left: kept.left(),
        }
    }
}

/// The core and the keeper, as they were handed in.
fn spare<B: Branch, K>(home: Home<B, K>) -> Spared<B, K>
    ensures { (result.core ≡ home.core) × (result.keeper ≡ home.keeper) }
{
    let Home {
        core,
        keeper,
        kept: _,
    } = home;
    Spared { core, keeper }
}
