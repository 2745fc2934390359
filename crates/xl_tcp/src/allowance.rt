ghost use Rattle.std.specs.Prelude.{◌≡◌, nat_le};
ghost use Rattle.xl_tcp.specs.Allowances.{left_at, after_cost};

use xl_base::Millis;

/// What a peer may still cost: so much at once, and so much more with each millisecond.
#[derive(Clone, Copy)]
pub(crate) struct Allowance {
    most: u64,
    each_milli: u64,
    left: u64,
    at: Millis,
}

impl Allowance {
    /// All of it is left.
    pub(crate) fn full(most: u64, each_milli: u64, now: Millis) -> Self
        ensures { result ≡ record { most = most; each_milli = each_milli; left = most; at = now } }
    {
        Allowance {
            most,
            each_milli,
            left: most,
            at: now,
        }
    }

    /// So much is left.
    pub(crate) fn has(&self, cost: u64, now: Millis) -> bool
        ensures { result ≡ nat_le cost (left_at self.now now) }
    {
        cost <= self.left_at(now)
    }

    /// Takes a cost off, or all that is left.
    pub(crate) fn spend(&mut self, cost: u64, now: Millis)
        ensures { self.new ≡ after_cost cost self.old now }
    {
        self.left = self.left_at(now).saturating_sub(cost);
        self.at = now;
    }

    fn left_at(&self, now: Millis) -> u64
        ensures { result ≡ left_at self.now now }
    {
        let gained = now.saturating_sub(self.at).saturating_mul(self.each_milli);
        self.left.saturating_add(gained).min(self.most)
    }
}
