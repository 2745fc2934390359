// What is kept of all that members said: of each member and sequence two words at most.
ghost use Rattle.std.specs.Prelude.{◌≡◌, option_map, IfOk};
ghost use Rattle.xl_forks.specs.Kept.{words_seen, with_word as with_one, two_kept, AreNumbers, IsKept};

use crate::said::Said;
use std::alloc::Global;
use std::collections::BTreeMap;
use xl_base::{NodeNo, OutOfMemory, Seq};

/// The first word of a member on a sequence, and the first that names another ledger.
#[derive(Clone, Copy)]
pub struct Words<'a> {
    pub first: &'a Said,
    pub other: Option<&'a Said>,
}

/// The words of all members by sequence, then by member.
pub type WordsByMember<'a> = BTreeMap<(Seq, u32), Words<'a>>;

/// All that was said, as it was read.
pub fn words_of<'a>(alloc: Global, said: &'a [Said]) -> Result<WordsByMember<'a>, OutOfMemory>
    ensures { IfOk result (λ words. IsKept words said.now) }
{
    let mut words: WordsByMember<'a> = BTreeMap::new(alloc);
    for word in said {
        let key = key_of(*word);
        let kept = words.get(&key).copied();
        words.insert(key, with_word(kept, word))?;
    }
    Ok(words)
}

fn key_of(word: Said) -> (Seq, u32)
    ensures value { result ≡ (word.seq, word.member) }
    ensures numbers { AreNumbers word.seq word.member }
{
    (word.seq, word.member.get())
}

/// A member's words on a sequence, and one more.
fn with_word<'a>(kept: Option<Words<'a>>, word: &'a Said) -> Words<'a>
    ensures { words_seen result ≡ with_one (option_map words_seen kept.entry) word.now }
{
    match kept {
        None => Words {
            first: word,
            other: None,
        },
        Some(words) => Words {
            first: words.first,
            other: words.other.or((word.id != words.first.id).then_some(word)),
        },
    }
}

/// Whether the member said two ledgers of the sequence.
pub(crate) fn said_two(words: &WordsByMember<'_>, seq: Seq, member: NodeNo) -> bool
    ensures { result ≡ two_kept words.now seq member }
{
    match words.get(&(seq, member.get())) {
        Some(words) => words.other.is_some(),
        None => false,
    }
}
