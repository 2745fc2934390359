ghost use Rattle.std.specs.Prelude.{◌≡◌, ◌<◌, ◌≤◌, ◌^◌, IsTrue, IfOk, SomeIff};
ghost use Rattle.std.specs.List.{list_all};
ghost use Rattle.std.specs.Char.{is_ascii_digit};
ghost use Rattle.xl_sched.specs.Numbers.{is_number, value_of, number_within as number_within_of, number_of, place_of};

use crate::fault::{Cause, LineFault};

/// A number from the least to the greatest.
pub fn number_within<'a>(token: &'a [u8], least: u64, greatest: u64) -> Result<u64, LineFault<'a>>
    ensures { result ≡ number_within_of least greatest token.now }
{
    if is_number(token)
        && let Some(number) = value(token)
        && least <= number
        && number <= greatest
    {
        Ok(number)
    } else {
        Err(LineFault::with_text(Cause::Number, token))
    }
}

/// A number from 0 to 4,294,967,295.
pub fn number<'a>(token: &'a [u8]) -> Result<u32, LineFault<'a>>
    ensures { result ≡ number_of token.now }
{
    Ok(number_within(token, 0, u64::from(u32::MAX))? as u32)
}

/// The place of one of the frames sent so far.
pub fn place<'a>(token: &'a [u8], sent: u64) -> Result<u64, LineFault<'a>>
    ensures value { result ≡ place_of sent token.now }
    ensures sent { IfOk result (λ place. (1 ≤ place) × (place ≤ sent)) }
{
    if !is_number(token) {
        return Err(LineFault::with_text(Cause::Number, token));
    }
    match value(token) {
        Some(place) if 0 < place && place <= sent => Ok(place),
        _ => Err(LineFault::with_text(Cause::Absent, token)),
    }
}

fn is_number(token: &[u8]) -> bool
    ensures { result ≡ is_number token.now }
{
    match token {
        [] => false,
        [first, rest @ ..] => all_digits(token) && (*first != b'0' || rest.is_empty()),
    }
}

fn all_digits(token: &[u8]) -> bool
    ensures { result ≡ list_all is_ascii_digit token.now }
{
    token.iter().all(|b| b.is_ascii_digit())
}

/// The number that digits write, or None above what 64 bits hold.
fn value(digits: &[u8]) -> Option<u64>
    requires { IsTrue (list_all is_ascii_digit digits.now) }
    ensures { SomeIff result (value_of digits.now < 2 ^ 64) (value_of digits.now) }
{
    let mut value: u64 = 0;
    for digit in digits {
        value = value
            .checked_mul(10)?
            .checked_add(u64::from(*digit - b'0'))?;
    }
    Some(value)
}
