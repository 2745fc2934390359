// The words of which one is asked.
ghost use Rattle.std.specs.Prelude.{◌≡◌};
ghost use Rattle.xl_sched.specs.Choices.{validating_of, full_of, new_of};

use crate::fault::{Cause, LineFault};

/// Whether a node validates: not if the token is `observing`.
pub fn validating<'a>(token: &'a [u8]) -> Result<bool, LineFault<'a>>
    ensures { result ≡ validating_of token.now }
{
    if token == b"observing".as_slice() {
        Ok(false)
    } else {
        Err(LineFault::with_text(Cause::Choice, token))
    }
}

/// Whether the token is `full`, and not `partial`.
pub fn full<'a>(token: &'a [u8]) -> Result<bool, LineFault<'a>>
    ensures { result ≡ full_of token.now }
{
    if token == b"full".as_slice() {
        Ok(true)
    } else if token == b"partial".as_slice() {
        Ok(false)
    } else {
        Err(LineFault::with_text(Cause::Choice, token))
    }
}

/// Whether the token is `new`, and not `old`.
pub fn new<'a>(token: &'a [u8]) -> Result<bool, LineFault<'a>>
    ensures { result ≡ new_of token.now }
{
    if token == b"new".as_slice() {
        Ok(true)
    } else if token == b"old".as_slice() {
        Ok(false)
    } else {
        Err(LineFault::with_text(Cause::Choice, token))
    }
}
