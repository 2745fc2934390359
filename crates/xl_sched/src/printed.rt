ghost use Rattle.std.specs.Prelude.{◌≡◌, ◌++◌, IfOk, OnOk};
ghost use Rattle.std.specs.String.{string_bytes};
ghost use Rattle.xl_sched.specs.Tokens.{shown_byte, shown_token};

use xl_base::OutOfMemory;

/// The most bytes of a token that are printed.
const MOST_SHOWN: usize = 32;

/// Appends a token as it is printed: its first 32 bytes, each that is no visible one of ASCII as `?`, and `-` for none.
/// If memory runs out, a front of that may have been appended.
pub fn printed_token(token: &[u8], text: &mut String) -> Result<(), OutOfMemory>
    ensures { OnOk result (string_bytes text.new ≡ string_bytes text.old ++ shown_token token.now) }
{
    if token.is_empty() {
        text.push('-')?;
        return Ok(());
    }
    for b in &token[..MOST_SHOWN.min(token.len())] {
        text.push(shown(*b))?;
    }
    Ok(())
}

/// A byte as it is printed.
fn shown(b: u8) -> char
    ensures { result ≡ shown_byte b }
{
    if (33..=126).contains(&b) {
        b as char
    } else {
        '?'
    }
}
