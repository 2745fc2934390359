ghost use Rattle.xl_flags.specs.Kept.{NewsAreOfMoments, OneMomentIsEnough};

/// The law of moments, which has no code: of all reports of a node one moment for each amendment is enough.
pub fn law_of_moments()
    // How it stands after a report more is a matter of how it stood before, of when that closed, and of the majority.
    ensures stands { OneMomentIsEnough }
    // What is said of it is a matter of both.
    ensures said { NewsAreOfMoments }
{}
