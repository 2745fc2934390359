use std::sync::atomic::{AtomicU64, Ordering};
use xl_base::Millis;
use xl_links::{Clock, MemClock};

/// So often the counts are looked at before a wait gives up.
const LOOKS: u32 = 100_000_000;

/// The reads of one link after which its frame was handed to the core: the one that gave it, and the next.
const BOTH: u64 = 2;

/// A clock in memory that goes on only once both links were read again behind their frame, or once it gave up.
#[derive(Drop)]
pub struct HeldClock<'a> {
    clock: MemClock,
    left: &'a AtomicU64,
    right: &'a AtomicU64,
    missed: AtomicU64,
}

impl<'a> HeldClock<'a> {
    ghost use Rattle.std.specs.Prelude.{◌≤◌};
    ghost use Rattle.xl_base.specs.Moments.{greatest_millis};

    /// A clock that stands at this moment, over the counts of two links.
    pub fn new(first: Millis, left: &'a AtomicU64, right: &'a AtomicU64) -> Self
        requires { first ≤ greatest_millis }
    {
        HeldClock {
            clock: MemClock::new(first),
            left,
            right,
            missed: AtomicU64::new(0),
        }
    }

    /// Whether a wait gave up.
    pub fn has_missed(&self) -> bool {
        self.missed.load(Ordering::SeqCst) != 0
    }

    fn hold(&self) {
        for _ in 0..LOOKS {
            if self.left.load(Ordering::SeqCst) >= BOTH
                && self.right.load(Ordering::SeqCst) >= BOTH
            {
                return;
            }
        }
        self.missed.store(1, Ordering::SeqCst);
    }
}

impl Clock for HeldClock<'_> {
    ghost use Rattle.std.proofs.Common.{rules};
    ghost use Rattle.xl_links.specs.Memory.{is_moment};

    ghost may_give = { λ held. is_moment held.clock };

    fn now(&self) -> Millis {
        self.clock.now()
    }

    fn wait(&self, millis: u32) {
        if !self.has_missed() {
            self.hold();
        }
        self.clock.wait(millis);
    }

    ghost limited = { Prim.search rules };
}
