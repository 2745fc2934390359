// The words that a line may begin with.
ghost use Rattle.std.specs.Prelude.{◌≡◌, ◌≤◌, not, length, position, option_map, option_copied};
ghost use Rattle.std.specs.List.{position_or_len};
ghost use Rattle.xl_sched.specs.Answers.{is_comment};
ghost use Rattle.xl_sched.specs.Tokens.{is_blank};
ghost use Rattle.xl_pairs.specs.Words.{first_word, foreign_word, is_foreign, is_own};

/// The first word of a line, if it is none that may stand there.
pub fn foreign_word(line: &[u8]) -> Option<&[u8]>
    ensures { option_map (λ word. word.now) result ≡ foreign_word line.now }
{
    let word = first_word(line);
    if is_foreign(word) { Some(word) } else { None }
}

/// What stands before the next blank, from the first byte on that is none.
fn first_word(line: &[u8]) -> &[u8]
    ensures { result.now ≡ first_word line.now }
{
    let rest = &line[start_of(line)..];
    &rest[..end_of(rest)]
}

fn start_of(line: &[u8]) -> usize
    ensures value { result ≡ position_or_len (λ b. not (is_blank b)) line.now }
    ensures within { result ≤ length line.now }
{
    first_other(line).unwrap_or(line.len())
}

fn first_other(line: &[u8]) -> Option<usize>
    ensures { result ≡ position (λ b. not (is_blank b)) line.now }
{
    line.iter().position(|b| !is_blank(*b))
}

fn end_of(line: &[u8]) -> usize
    ensures value { result ≡ position_or_len is_blank line.now }
    ensures within { result ≤ length line.now }
{
    first_blank(line).unwrap_or(line.len())
}

fn first_blank(line: &[u8]) -> Option<usize>
    ensures { result ≡ position is_blank line.now }
{
    line.iter().position(|b| is_blank(*b))
}

fn is_blank(b: u8) -> bool
    ensures { result ≡ is_blank b }
{
    b == b' ' || b == b'\t'
}

/// Whether a word is there, begins no comment, and is none of those that may stand at the front of a line.
fn is_foreign(word: &[u8]) -> bool
    ensures { result ≡ is_foreign word.now }
{
    match word {
        [] | [b'#', ..] => false,
        _ => !is_own(word),
    }
}

fn is_own(word: &[u8]) -> bool
    ensures { result ≡ is_own word.now }
{
    word == b"limit".as_slice()
        || word == b"node".as_slice()
        || word == b"liar".as_slice()
        || word == b"name".as_slice()
        || word == b"at".as_slice()
}
