ghost use Rattle.xl_blamed.specs.Gathering.{ForksShowEnough, NamesAreShown};
ghost use Rattle.xl_blamed.specs.Given.{AllGivenAgree, AllGivenIsUnforged, DrainsGive};
ghost use Rattle.xl_blamed.specs.Showing.{ShowsEvidence};
ghost use Rattle.xl_blamed.specs.Texts.{TextsAgree, TextsAreBlamed};

/// The law of showing, which has no code.
pub fn law_of_showing()
    // What an entry shows is what the law of evidence speaks of.
    ensures evidence { ShowsEvidence }
{}

/// The law of what is gathered of right journals, which has no code.
pub fn law_of_gathering()
    // Of each two reports that differ, at least as many members of both lists are shown as both quorums force.
    ensures forks { ForksShowEnough }
    // Whoever is named said both ledgers, by what two of the journals show.
    ensures names { NamesAreShown }
{}

/// The law of frames that are given, which has no code.
pub fn law_of_giving()
    // A frame that is read in a drain of a right journal was given by its node in one of its lives.
    ensures drains { DrainsGive }
    // If all that right journals hear was given, nothing forged comes in any of them.
    ensures unforged { AllGivenIsUnforged }
    // And if no keeper falls behind from one journal to the next, no two reports differ whose lists are enough.
    ensures agree { AllGivenAgree }
{}

/// The law of blamed texts, which has no code.
pub fn law_of_blamed_texts()
    // If no line is refused, the lines are right journals, each up to its first entry that isn't right, and the text ends
    // with what is said of them. So its forks show enough members, and its names are those that the laws of evidence and
    // innocence speak of.
    ensures blamed { TextsAreBlamed }
    // If as many frames are given as are heard, and no keeper falls behind, no two reports differ whose lists are enough.
    ensures agree { TextsAgree }
{}
