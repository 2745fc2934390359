ghost use Rattle.xl_world.specs.Laws.{DrainsEmpty, LastGivesNothing};
ghost use Rattle.xl_world.specs.Lives.{HeadlineOfLives};
ghost use Rattle.xl_world.specs.Networks.{HeadlineOfNetworks};

/// The law of the drains that follow an event, which has no code: it speaks of every core and all numbers.
pub fn law_of_drains()
    // Behind them nothing is left for any other number.
    ensures empty { DrainsEmpty }
    // So one more drain for it gives no frame.
    ensures last { LastGivesNothing }
{}

/// The headline of any network, which has no code: of nodes with whatever settings and keys, each opened with the
/// number that its keeper holds.
pub fn law_of_networks()
    // In every run in which no frame is forged, two reports of one sequence name one ledger, wherever the quorums of
    // the two lists that were in force at them are enough.
    ensures { HeadlineOfNetworks }
{}

/// The headline of lives, which has no code. Nothing is known of the order of two nodes' lives, and between its lives a
/// node's settings may change.
pub fn law_of_lives()
    // Of all nodes that are no liars: if none falls behind, and hears nothing that its sender's node didn't give, two
    // reports of one sequence name one ledger, wherever the quorums of the two lists that were in force at them are
    // enough.
    ensures { HeadlineOfLives }
{}
