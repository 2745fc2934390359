ghost use Rattle.xl_negative.specs.Laws.{AddedAreLists, ChangesAreLawful, ListsAreEnough, ListsAreInForce, ReportsAgree, WrittenRuns};

use xl_spelling::law_of_read_lists;

/// The law of changes, which has no code: of a valid list a node leaves out different members, a quarter at most, and
/// what is left is a valid list that may be in force.
pub fn law_of_changes()
    ensures { ChangesAreLawful }
{}

/// The law of lists in force, which has no code: of two nodes with one full list, whomever either leaves out, the
/// quorums are enough for each other.
pub fn law_of_lists()
    ensures { ListsAreEnough }
{}

/// The law of added lines: each is read as the line that sets the list, if such a line may come.
pub fn law_of_added_lists()
    ensures { AddedAreLists }
{
    law_of_read_lists();
}

/// The law of what is written, which has no code. Unless a line is refused, the text is cut into lines of which a
/// reader refuses none, and who runs them comes to the schedule that ran here.
pub fn law_of_written_runs()
    ensures { WrittenRuns }
{}

/// The law of the lists of a run, which has no code: each list that was ever in force at a member with one full list
/// is that list, or leaves out some of it as the rules do.
pub fn law_of_lists_in_force()
    ensures { ListsAreInForce }
{}

/// The headline, which has no code: in each schedule that is written again, two nodes with one full list never report
/// different ledgers of one sequence, if twice its least quorum exceeds its members and the liars among them.
pub fn law_of_agreeing_reports()
    ensures { ReportsAgree }
{}
