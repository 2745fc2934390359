ghost use Rattle.std.specs.Prelude.{◌≡◌, map, All, if◌then◌else◌};
ghost use Rattle.xl_base.specs.Sets.{IsRising};
ghost use Rattle.xl_disputes.specs.Tallies.{no_tally, IsWithin, IsFitting};
ghost use Rattle.xl_disputes.specs.Rows.{ids_of, part_of, moved};

use crate::rising::{is_first, not_below};
use crate::rows::{Row, Rows};
use crate::tally::Tally;
use xl_base::TxId;

fn part_if(among: bool, part: Tally) -> Tally
    ensures { result ≡ (if among then part else no_tally) }
{
    if among { part } else { Tally::none() }
}

/// Takes the part from each row whose id is among the first ids, and gives it to each whose id is among the second.
/// All three rise, so that each is walked once.
pub(crate) fn move_part(rows: &mut Rows, from: &[TxId], to: &[TxId], part: Tally)
    requires apart { IsRising (ids_of rows.old) }
    requires leaving { IsRising from.now }
    requires coming { IsRising to.now }
    requires within { All (λ row. IsWithin (part_of from.now part row.id) row.tally) rows.old }
    requires fitting { All (λ row. IsFitting (moved from.now to.now part row).tally) rows.old }
    ensures { rows.new ≡ map (moved from.now to.now part) rows.old }
{
    let mut leaving = from;
    let mut coming = to;
    for place in 0..rows.len() {
        let row = rows.at(place);
        leaving = not_below(leaving, &row.id);
        coming = not_below(coming, &row.id);
        let out = part_if(is_first(leaving, &row.id), part);
        let into = part_if(is_first(coming, &row.id), part);
        let tally = row.tally.exchange(out, into);
        rows.set(place, Row { id: row.id, tally });
    }
}
