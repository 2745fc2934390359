ghost use Rattle.std.specs.Prelude.{◌≡◌};
ghost use Rattle.xl_core.specs.declared.node.TheConstants.{LEAST_TIME};
ghost use Rattle.xl_core.specs.declared.the_core.outgoing.TheConstants.{OUTGOING};
ghost use Rattle.xl_core.specs.declared.the_core.untaken.TheConstants.{UNTAKEN};
ghost use Rattle.xl_core.specs.Queues.{most_untaken, most_waiting};
ghost use Rattle.xl_core.specs.State.{least_time};
ghost use Rattle.xl_core.specs.Lives.{ReportsArise, ReportsRise};
ghost use Rattle.xl_core.specs.CoreLives.{SaidIsSaved, ReportsAreHandedOut, NoneIsLost};

/// The law of a node's reports, which has no code: it speaks of every life of a node, which is what happened since it
/// opened.
pub fn law_of_reports()
    // A report arises exactly if a quorum of the list in force holds a ledger that is news in this life.
    ensures arise { ReportsArise }
    // Between two changes of the list the sequences of reports rise.
    ensures rise { ReportsRise }
{}

/// The law of what a core ever said, which has no code: over every life of a core and its keeper, whatever was drained
/// in it and when.
pub fn law_of_saves()
    ensures { SaidIsSaved }
{}

/// The law of what a core hands out, which has no code: over every life of a core, into whatever rooms and when.
pub fn law_of_handed_reports()
    // What arose was handed out in order, or waits, or was lost and counted.
    ensures handed { ReportsAreHandedOut }
    // A report is lost only if more than 1,024 waited.
    ensures none { NoneIsLost }
{}

/// The law of the constants, which has no code: each is the number that the definitions give.
pub fn law_of_constants()
    ensures outgoing { OUTGOING ≡ most_waiting }
    ensures untaken { UNTAKEN ≡ most_untaken }
    ensures time { LEAST_TIME ≡ least_time }
{}
