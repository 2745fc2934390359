// Whether reports agree. Each function is one line of the definition.
ghost use Rattle.std.specs.Prelude.{◌≡◌};
ghost use Rattle.std.specs.List.{list_all};
ghost use Rattle.xl_world.specs.Seen.{agrees_at, accords};

use crate::WorldReport;
use xl_base::NodeNo;

/// Whether the second report, if it is of `j` and of the first one's sequence, has its id.
fn agrees(r: &WorldReport, q: &WorldReport, j: NodeNo) -> bool
    ensures { result ≡ agrees_at j r.now q.now }
{
    !(q.node == j && r.seq == q.seq && r.id != q.id)
}

/// Whether all reports of `j` agree with this one.
fn all_agree_with(r: &WorldReport, reports: &[WorldReport], j: NodeNo) -> bool
    ensures { result ≡ list_all (λ q. agrees_at j r.now q) reports.now }
{
    reports.iter().all(|q| agrees(r, q, j))
}

/// The same, if this one is of `i`.
fn is_in_accord(r: &WorldReport, reports: &[WorldReport], i: NodeNo, j: NodeNo) -> bool
    ensures { result ≡ accords i j reports.now r.now }
{
    r.node != i || all_agree_with(r, reports, j)
}

/// Whether all reports of `i` and all of `j` agree.
pub fn all_agree(reports: &[WorldReport], i: NodeNo, j: NodeNo) -> bool
    ensures { result ≡ list_all (accords i j reports.now) reports.now }
{
    reports.iter().all(|r| is_in_accord(r, reports, i, j))
}
