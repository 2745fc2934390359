ghost use Rattle.std.specs.Prelude.{◌≡◌, ◌/◌, ◌≤◌};
ghost use Rattle.xl_base.specs.Moments.{greatest_millis};

/// The sequence of a ledger: how many ledgers it is away from the root, whose sequence is 0.
pub type Seq = u32;

/// Whole seconds.
pub type Secs = u32;

/// Milliseconds.
pub type Millis = u64;

/// No moment is later.
pub const GREATEST_MILLIS: Millis = 4_000_000_000_000;

/// A validation is stale this many seconds after it was signed.
pub const PAST_SECS: Secs = 180;

/// A validation isn't current this many seconds before it was signed, or earlier.
pub const FUTURE_SECS: Secs = 300;

/// The second of a moment, rounded down.
pub fn secs_of(now: Millis) -> Secs
    requires { now ≤ greatest_millis }
    ensures { result ≡ now / 1000 }
{
    (now / 1000) as Secs
}
