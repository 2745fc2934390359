ghost use Rattle.xl_world.specs.Parts.{PartsAreTheWhole};

/// The law of events in parts, which has no code: one delivery or one node's timer after the other lead to the world
/// of the whole event. What is told of them is what is told of that.
pub fn parts_are_the_whole()
    ensures { PartsAreTheWhole }
{}
