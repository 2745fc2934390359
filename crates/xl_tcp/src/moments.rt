use std::io;
use std::time::Clock;
use xl_base::Millis;

/// How long the clock that is never set has run, in milliseconds.
pub(crate) fn millis_of<C: Clock>(clock: &C) -> io::Result<Millis> {
    let ran = clock.monotonic()?.as_millis();
    Ok(Millis::try_from(ran).unwrap_or(Millis::MAX))
}
