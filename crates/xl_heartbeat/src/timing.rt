ghost use Rattle.std.specs.Prelude.{◌≡◌};
ghost use Rattle.xl_heartbeat.specs.Beats.{is_over};

use xl_base::Millis;

/// When beats come, and until when.
#[derive(Clone, Copy, PartialEq, Eq)]
pub struct Timing {
    /// The moment at which the run began.
    pub opened: Millis,
    /// How long each beat waits before it comes, in milliseconds.
    pub every: u32,
    /// How long the run lasts, in milliseconds; 0 is no end.
    pub run: u64,
}

impl Timing {
    /// Whether the time of the run is over at a moment.
    pub(crate) fn is_over(&self, now: Millis) -> bool
        ensures { result ≡ is_over self.now now }
    {
        self.run != 0 && now.saturating_sub(self.opened) >= self.run
    }
}
