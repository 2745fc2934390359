// Lists, each of whose entries but the first stands after a comma.
ghost use Rattle.std.specs.Prelude.{◌≡◌, ◌++◌, ◌∷◌, map, decimal, All, OnOk};
ghost use Rattle.xl_spelling.specs.Spellings.{with_commas, set_word};
ghost use Rattle.xl_base.specs.Ids.{IsId};

use crate::tokens::{push, push_id, push_number};
use xl_base::{NodeNo, OutOfMemory, TxId};

/// The numbers of members.
pub fn push_members(room: &mut Vec<u8>, members: &[NodeNo]) -> Result<(), OutOfMemory>
    ensures { OnOk result (room.new.items ≡ room.old.items ++ 32 ∷ with_commas (map (λ m. decimal m) members.now)) }
{
    let Some((first, others)) = members.split_first() else {
        return push(room, b' ', b"");
    };
    push_number(room, b' ', u64::from(first.get()))?;
    for other in others {
        push_number(room, b',', u64::from(other.get()))?;
    }
    Ok(())
}

/// The ids of a set, or `-` for none.
pub fn push_set(room: &mut Vec<u8>, ids: &[TxId]) -> Result<(), OutOfMemory>
    ensures text { OnOk result (room.new.items ≡ room.old.items ++ 32 ∷ set_word ids.now) }
    ensures ids { OnOk result (All (λ id. IsId id.0) ids.now) }
{
    let Some((first, others)) = ids.split_first() else {
        return push(room, b' ', b"-");
    };
    push_id(room, b' ', &first.0)?;
    for other in others {
        push_id(room, b',', &other.0)?;
    }
    Ok(())
}
