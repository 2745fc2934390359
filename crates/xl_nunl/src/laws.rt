ghost use Rattle.xl_nunl.specs.Lists.{NegativeListsAreEnough};
ghost use Rattle.xl_nunl.specs.Rings.{RingsAreEnough};

/// The law of negative lists, which has no code: the quorums of two nodes that declared one list are enough, whichever
/// members either leaves out.
pub fn law_of_negative_lists()
    ensures { NegativeListsAreEnough }
{}

/// The law of rings, which has no code: the last that was heard of each member, for each of 512 kinds of sequences that
/// are alike, has all that a score asks of the list of all that was heard.
pub fn law_of_rings()
    ensures { RingsAreEnough }
{}
