ghost use Rattle.xl_evidence.specs.Evidence.{ReportsAreShown, ForksAreShown};
ghost use Rattle.xl_evidence.specs.Innocence.{LivesSayOnce, NoneIsNamed};
ghost use Rattle.xl_evidence.specs.Journals.{JournalsShow};
ghost use Rattle.xl_evidence.specs.Networks.{ForksCountLiars, OnlyLiarsAreNamed};

/// The law of evidence, which has no code. It speaks of every two lives of nodes, whatever settings and keys they have.
pub fn law_of_evidence()
    // Of each report a quorum of the list in force is shown to have said it, by what was heard and issued in the life.
    ensures shown { ReportsAreShown }
    // Of each two reports, as many members of both lists as the quorums force are shown to have said the one here and
    // the other there.
    ensures forks { ForksAreShown }
    // So it is of any two written journals of which each entry is right.
    ensures journals { JournalsShow }
{}

/// The law of innocence, which has no code. It speaks of all lives of a node whose keeper never falls behind.
pub fn law_of_innocence()
    // In all of them together it says at most one ledger of a sequence.
    ensures once { LivesSayOnce }
    // So nobody shows that it said two, unless a tag of its was forged.
    ensures none { NoneIsNamed }
{}

/// The law of names, which has no code. It speaks of every run of every new network, with restarts and torn saves.
pub fn law_of_names()
    // If no frame is forged, whoever all journals together show to have said two ledgers of one sequence is a liar.
    ensures names { OnlyLiarsAreNamed }
    // Then two reports of one sequence differ only if enough members of both lists are liars.
    ensures forks { ForksCountLiars }
{}
