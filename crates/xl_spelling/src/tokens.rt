// Tokens, added to bytes.
ghost use Rattle.std.specs.Prelude.{◌≡◌, ◌++◌, ◌∷◌, decimal, OnOk};
ghost use Rattle.hex.specs.Hex.{IsBytes, encode_lower};
ghost use Rattle.xl_spelling.specs.Spellings.{kind_word, held_word};
ghost use Rattle.xl_base.specs.Ids.{IsId};

use xl_base::OutOfMemory;

/// A token, after the byte that parts it from what stands before it.
pub fn push(room: &mut Vec<u8>, before: u8, token: &[u8]) -> Result<(), OutOfMemory>
    ensures { OnOk result (room.new.items ≡ room.old.items ++ before ∷ token.now) }
{
    room.push(before)?;
    room.extend_from_slice(token)?;
    Ok(())
}

/// A number, in decimal digits.
pub fn push_number(room: &mut Vec<u8>, before: u8, number: u64) -> Result<(), OutOfMemory>
    ensures { OnOk result (room.new.items ≡ room.old.items ++ before ∷ decimal number) }
{
    let digits = number.to_string(*room.allocator())?;
    push(room, before, digits.as_bytes())
}

/// Bytes, in lower-case hexadecimal digits.
pub fn push_digits(room: &mut Vec<u8>, before: u8, bytes: &[u8]) -> Result<(), OutOfMemory>
    ensures text { OnOk result (room.new.items ≡ room.old.items ++ before ∷ encode_lower bytes.now) }
    ensures bytes { IsBytes bytes.now }
{
    let digits = hex::encode(*room.allocator(), bytes)?;
    push(room, before, digits.as_bytes())
}

/// An id, in 64 digits.
pub fn push_id(room: &mut Vec<u8>, before: u8, id: &[u8; 32]) -> Result<(), OutOfMemory>
    ensures text { OnOk result (room.new.items ≡ room.old.items ++ before ∷ encode_lower id.now) }
    ensures id { IsId id.now }
{
    push_digits(room, before, id.as_slice())
}

/// The word of a validation that is full, or is not.
pub fn kind_word(full: bool) -> &'static [u8]
    ensures { result.now ≡ kind_word full }
{
    if full { b"full" } else { b"partial" }
}

/// The word of the number that a keeper then holds.
pub fn held_word(new: bool) -> &'static [u8]
    ensures { result.now ≡ held_word new }
{
    if new { b"new" } else { b"old" }
}
