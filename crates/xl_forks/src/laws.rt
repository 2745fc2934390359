ghost use Rattle.xl_forks.specs.Laws.{BothAreShown, EachIsAmong, EachPairIsAFork, EquivocationsAreTwo, ForksAreOfReports, TwoAreEquivocations};

/// The law of equivocations, which has no code. It speaks of whatever was read.
pub fn law_of_equivocations()
    // An equivocation is two words of one member on one sequence, which name different ledgers.
    ensures two { EquivocationsAreTwo }
    // Of whoever said two ledgers of a sequence there is one.
    ensures each { TwoAreEquivocations }
    // It stands among them all. So a fork counts those who stand among them.
    ensures among { EachIsAmong }
{}

/// The law of forks, which has no code. It speaks of whatever was read.
pub fn law_of_forks()
    // A fork is two of the reports, of one sequence, that name different ledgers.
    ensures two { ForksAreOfReports }
    // Each two such reports are one.
    ensures each { EachPairIsAFork }
    // It counts whoever of both lists said both ledgers.
    ensures shown { BothAreShown }
{}
