// Which report arose.
ghost use Rattle.std.specs.Prelude.{◌≡◌};
ghost use Rattle.xl_shown.specs.Showing.{arisen_between};

use xl_core::Report;

/// The report that arose between two last reports: no report arises that is the last one.
pub fn arisen(before: &Option<Report>, after: &Option<Report>) -> Option<Report>
    ensures { result ≡ arisen_between before.now after.now }
{
    if before == after { None } else { *after }
}
