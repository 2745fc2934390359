ghost use Rattle.std.specs.Prelude.{◌≡◌};
ghost use Rattle.xl_closetime.specs.Resolutions.{
  next_resolution as next_resolution_of,
  coarser as coarser_of,
  finer as finer_of,
  IsResolution,
};

use xl_base::Seq;

/// The resolution of the ledger of a sequence, if that of its parent is `r`.
///
/// If the parent's close time wasn't agreed on, it is the next coarser one. Else it is the next finer one at each
/// sequence that 8 divides, and `r` at all others. At an end of the six it stays.
pub fn next_resolution(r: u8, agreed: bool, seq: Seq) -> u8
    requires { IsResolution r }
    ensures value { result ≡ next_resolution_of r agreed seq }
    ensures valid { IsResolution result }
{
    if !agreed {
        coarser(r)
    } else if seq % 8 == 0 {
        finer(r)
    } else {
        r
    }
}

fn coarser(r: u8) -> u8
    requires { IsResolution r }
    ensures value { result ≡ coarser_of r }
    ensures valid { IsResolution result }
{
    match r {
        10 => 20,
        20 => 30,
        30 => 60,
        60 => 90,
        _ => 120,
    }
}

fn finer(r: u8) -> u8
    requires { IsResolution r }
    ensures value { result ≡ finer_of r }
    ensures valid { IsResolution result }
{
    match r {
        120 => 90,
        90 => 60,
        60 => 30,
        30 => 20,
        _ => 10,
    }
}
