ghost use Rattle.std.specs.Prelude.{◌≡◌, ◌≢◌, ℕ, ◌<◌, ◌^◌, IfOk, IfSome, OnOk, Ok, Some, None, decimal, string_bytes};
ghost use Rattle.xl_keep.specs.Texts.{text_of};

use std::alloc::AllocError;
use xl_base::Seq;

/// The most bytes of a number's text: ten digits and a newline.
pub(crate) const MOST_BYTES: usize = 11;

/// Makes the text that of the number.
pub(crate) fn spell(text: &mut String, seq: Seq) -> Result<(), AllocError>
    ensures { OnOk result (string_bytes text.new ≡ text_of seq) }
{
    text.clear();
    write!(text, "{seq}\n")
}

/// The number whose text this is, or None if it is that of no number. The room is overwritten.
pub(crate) fn number_of(room: &mut String, bytes: &[u8]) -> Result<Option<Seq>, AllocError>
    ensures some { IfOk result (λ answer. IfSome answer (λ n. bytes.now ≡ text_of n)) }
    ensures none { result ≡ Ok None → (n : ℕ) → n < 2 ^ 32 → bytes.now ≢ text_of n }
{
    let Some(seq) = number_in(bytes) else {
        return Ok(None);
    };
    spell(room, seq)?;
    if room.as_bytes() == bytes {
        Ok(Some(seq))
    } else {
        Ok(None)
    }
}

/// The number that stands before a newline, in whatever form.
fn number_in(bytes: &[u8]) -> Option<Seq>
    ensures { (n : ℕ) → n < 2 ^ 32 → bytes.now ≡ text_of n → result ≡ Some n }
{
    value_of(bytes.strip_suffix(b"\n")?)
}

/// The number that these digits write, in whatever form.
fn value_of(digits: &[u8]) -> Option<Seq>
    ensures { (n : ℕ) → n < 2 ^ 32 → digits.now ≡ decimal n → result ≡ Some n }
{
    match str::from_utf8(digits) {
        Ok(digits) => digits.parse::<u32>().ok(),
        Err(_) => None,
    }
}
