ghost use Rattle.std.specs.Prelude.{◌≡◌, bytes_eq, fold, bit_or, bit_xor};
ghost use Rattle.std.specs.List.{zip};

/// Whether two tags are equal.
///
/// All bytes are compared, wherever the first difference is, so that the time that it takes tells a forger nothing of
/// the right tag.
pub fn is_same_tag(a: &[u8; 32], b: &[u8; 32]) -> bool
    ensures { result ≡ bytes_eq a.now b.now }
{
    differing_bits(a, b) == 0
}

/// The bits in which two bytes at one place differ, of all places.
fn differing_bits(a: &[u8; 32], b: &[u8; 32]) -> u8
    ensures { result ≡ fold (λ bits pair. bit_or bits (bit_xor pair.0 pair.1)) 0 (zip a.now b.now) }
{
    a.iter().zip(b).fold(0, |bits, (x, y)| bits | (x ^ y))
}
