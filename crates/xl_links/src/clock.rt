ghost use Rattle.std.specs.Prelude.{◌≡◌, ◌≤◌, ℕ, Bool, true};
ghost use Rattle.xl_base.specs.Moments.{greatest_millis};

use std::sync::atomic::{AtomicU64, Ordering};
use xl_base::{GREATEST_MILLIS, Millis};

/// What tells the moment.
pub trait Clock {
    /// The moments that it may give.
    ghost may_give: { Self → ℕ → Bool };

    /// A moment that it may give.
    fn now(&self) -> Millis
        ensures may { may_give self.now result ≡ true }
        ensures limit { result ≤ greatest_millis };

    /// Waits this many milliseconds.
    fn wait(&self, millis: u32);

    /// It may give no later moment than the greatest.
    ghost limited: { (clock : Self) → (moment : ℕ) → may_give clock moment ≡ true → moment ≤ greatest_millis };
}

/// A clock in memory, whose `wait` moves its moment. It may give its first moment and each later one.
#[derive(Drop)]
pub struct MemClock {
    first: Millis,
    waited: AtomicU64,
    ghost in_range: { first ≤ greatest_millis },
}

impl MemClock {
    ghost use Rattle.xl_links.specs.Memory.{first_moment};

    /// A clock that stands at this moment.
    pub fn new(first: Millis) -> Self
        requires { first ≤ greatest_millis }
        ensures { first_moment result ≡ first }
    {
        MemClock {
            first,
            waited: AtomicU64::new(0),
        }
    }
}

impl Clock for MemClock {
    ghost use Rattle.std.proofs.Common.{rules};
    ghost use Rattle.xl_links.specs.Memory.{is_moment};

    ghost may_give = { is_moment };

    fn now(&self) -> Millis {
        let waited = self.waited.load(Ordering::SeqCst);
        self.first.saturating_add(waited).min(GREATEST_MILLIS)
    }

    fn wait(&self, millis: u32) {
        self.waited.fetch_add(u64::from(millis), Ordering::SeqCst);
    }

    ghost limited = { Prim.search rules };
}
