// Ids, added to a text.
ghost use Rattle.std.specs.Prelude.{◌≡◌, ◌++◌, OnOk};
ghost use Rattle.std.specs.String.{string_bytes};
ghost use Rattle.hex.specs.Hex.{encode_lower};
ghost use Rattle.xl_running.specs.Texts.{id_text};

use std::alloc::Global;
use xl_base::{LedgerId, OutOfMemory};
use xl_sched::{Reader, printed_token};

/// An id, by the first declared name that stands for it, or in digits.
pub fn push_id(
    alloc: Global,
    text: &mut String,
    reader: &Reader,
    id: &LedgerId,
) -> Result<(), OutOfMemory>
    ensures { OnOk result (string_bytes text.new ≡ string_bytes text.old ++ id_text reader.now.names id.now) }
{
    match reader.name_of(&id.0) {
        Some(name) => printed_token(name, text),
        None => {
            let digits = hex::encode(alloc, id.0.as_slice())?;
            text.push_str(digits.as_str())?;
            Ok(())
        }
    }
}
