ghost use Rattle.std.specs.Prelude.{◌≡◌, min};
ghost use Rattle.xl_closetime.specs.Rounding.{round_close as round_close_of, effective as effective_of};
ghost use Rattle.xl_closetime.specs.Numbers.{last_second};
ghost use Rattle.xl_closetime.specs.Resolutions.{IsResolution};

use xl_base::Secs;

/// A close time rounded to the nearest multiple of the resolution, a half rounded up. 0 stays 0.
///
/// A result above the greatest second is that second.
pub fn round_close(t: Secs, r: u8) -> Secs
    requires { IsResolution r }
    ensures { result ≡ round_close_of t r }
{
    if t == 0 {
        return 0;
    }
    let raised = u64::from(t) + u64::from(r) / 2;
    at_most_last(raised - raised % u64::from(r))
}

/// The close time of a ledger: the rounded one, but after the close time of the ledger before. 0 stays 0.
///
/// A result above the greatest second is that second.
pub fn effective(t: Secs, r: u8, prior: Secs) -> Secs
    requires { IsResolution r }
    ensures { result ≡ effective_of t r prior }
{
    if t == 0 {
        return 0;
    }
    round_close(t, r).max(prior.saturating_add(1))
}

/// A second, or the greatest if it is later.
fn at_most_last(second: u64) -> Secs
    ensures { result ≡ min second last_second }
{
    second.min(u64::from(Secs::MAX)) as Secs
}
