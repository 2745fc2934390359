ghost use Rattle.std.specs.Prelude.{◌≡◌};
ghost use Rattle.xl_wire.specs.Kinds.{can_have, can_have_first, is_kind, is_set_length, is_version};

use crate::lengths::{COUNT, HEADER_BODY, ID, LONGEST_BODY, PROPOSAL_BODY, VALIDATION_BODY};

/// The first version.
pub const FIRST: u8 = 1;

/// The version of validations that tell what their sender last reported.
pub const SECOND: u8 = 2;

pub const PROPOSAL: u8 = 1;

pub const VALIDATION: u8 = 2;

/// The kind of a frame that tells a header.
pub const HEADER: u8 = 3;

pub const TX_SET: u8 = 4;

pub const TX: u8 = 5;

pub fn is_version(version: u8) -> bool
    ensures { result ≡ is_version version }
{
    version == FIRST || version == SECOND
}

/// Whether a frame of this version can be of this kind.
pub fn is_kind(version: u8, kind: u8) -> bool
    ensures { result ≡ is_kind version kind }
{
    if version == SECOND {
        kind == VALIDATION
    } else {
        PROPOSAL <= kind && kind <= TX
    }
}

/// Whether a body of this version and kind can have this length.
pub fn can_have(version: u8, kind: u8, length: u16) -> bool
    ensures { result ≡ can_have version kind length }
{
    if version == FIRST {
        can_have_first(kind, length)
    } else {
        version == SECOND && kind == VALIDATION && length as usize == VALIDATION_BODY + ID
    }
}

fn can_have_first(kind: u8, length: u16) -> bool
    ensures { result ≡ can_have_first kind length }
{
    match kind {
        PROPOSAL => length as usize == PROPOSAL_BODY,
        VALIDATION => length as usize == VALIDATION_BODY,
        HEADER => length as usize == HEADER_BODY,
        TX_SET => is_set_length(length as usize),
        TX => length as usize == ID,
        _ => false,
    }
}

/// Whether it is the length of a count and this many ids, at most 256.
fn is_set_length(length: usize) -> bool
    ensures { result ≡ is_set_length length }
{
    COUNT <= length && length <= LONGEST_BODY && (length - COUNT) % ID == 0
}
