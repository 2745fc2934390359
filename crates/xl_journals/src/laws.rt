ghost use Rattle.xl_journals.specs.Journals.{HeadlineOfJournals};

/// The headline of journals, which has no code. It speaks of every network of `xl node`, whatever settings and keys its
/// nodes have and however often they were started, and wants no order among the journals.
pub fn law_of_journals()
    // Of all nodes that are no liars: if every entry of their journals is right, no keeper falls behind from one journal
    // to the next, and none hears what its sender's node didn't give, then two reports of one sequence name one ledger,
    // wherever the quorums of the two lists that were in force at them are enough.
    ensures { HeadlineOfJournals }
{}
