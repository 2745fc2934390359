ghost use Rattle.std.specs.Prelude.{◌≡◌, ◌⊎◌, Ok, Err, MatchResult};
ghost use Rattle.xl_sched.specs.Members.{member_of, members_of, trusted_of};
ghost use Rattle.xl_sched.specs.declared.refusal.SchedRefusal.TheVariants.{OutOfMemory};

use crate::fault::{Cause, LineFault};
use crate::numbers::{number, number_within};
use std::alloc::Global;
use xl_base::NodeNo;
use xl_lists::List;

/// A member's number.
pub fn member<'a>(token: &'a [u8]) -> Result<NodeNo, LineFault<'a>>
    ensures { result ≡ member_of token.now }
{
    let number = number_within(token, 1, 64)?;
    NodeNo::new(number as u32).ok_or(LineFault::with_text(Cause::Number, token))
}

/// Numbers that are joined by commas, or the first entry that is none.
pub fn members<'a>(alloc: Global, token: &'a [u8]) -> Result<Vec<u32>, LineFault<'a>>
    ensures { MatchResult result
        (λ numbers. members_of token.now ≡ Ok numbers.items)
        (λ fault. (fault ≡ OutOfMemory) ⊎ (members_of token.now ≡ Err fault)) }
{
    let mut numbers = Vec::new(alloc);
    for entry in token.split(|&b| b == b',') {
        numbers.push(number(entry)?)?;
    }
    Ok(numbers)
}

/// The list of these members and this quorum.
pub fn trusted<'a>(members: &[u32], quorum: u32) -> Result<List, LineFault<'a>>
    ensures { result ≡ trusted_of members.now quorum }
{
    match List::new(members, quorum) {
        Ok(list) => Ok(list),
        Err(refusal) => Err(LineFault::with_number(Cause::List, u64::from(refusal.code()))),
    }
}
