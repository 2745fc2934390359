// What a drain gave.
ghost use Rattle.std.specs.Prelude.{◌≡◌, IfOk};
ghost use Rattle.hex.specs.Hex.{decode_of};
ghost use Rattle.xl_shown.specs.Showing.{bytes_told, given_in as given_in_event};

use hex::FromHexError;
use std::alloc::Global;
use xl_base::{Bytes, OutOfMemory};
use xl_core::CoreEvent;

/// The bytes that these digits tell.
fn told(alloc: Global, digits: &[u8]) -> Result<Bytes, OutOfMemory>
    ensures { IfOk result (λ bytes. bytes ≡ bytes_told (decode_of digits.now)) }
{
    match hex::decode(alloc, digits) {
        Ok(bytes) => Ok(Bytes::from_vec(bytes)),
        Err(FromHexError::OutOfMemory) => Err(OutOfMemory),
        Err(_) => Ok(Bytes::from_vec(Vec::new(alloc))),
    }
}

/// The bytes that a drain gave, as its reply tells them.
pub fn given_in(alloc: Global, event: &CoreEvent, reply: &[u8]) -> Result<Bytes, OutOfMemory>
    ensures { IfOk result (λ bytes. bytes ≡ given_in_event event.now reply.now) }
{
    match event {
        CoreEvent::Drain { .. } => told(alloc, reply),
        _ => Ok(Bytes::from_vec(Vec::new(alloc))),
    }
}
