ghost use Rattle.xl_lists.specs.Agreement.{KeptAgrees, LawfulKeeps};

/// The law of agreement, which has no code. It speaks of any network, and names nothing of a node's state.
pub fn law_of_agreement()
    // Where what is kept holds, two reports whose quorums are enough never name different ledgers of one sequence.
    ensures agree { KeptAgrees }
    // Every lawful step keeps it.
    ensures keeps { LawfulKeeps }
{}
