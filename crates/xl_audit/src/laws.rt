ghost use Rattle.xl_audit.specs.Laws.{LegalIsRight, RightIsLegal, UntaggedIsLegal};
ghost use Rattle.xl_audit.specs.Rereading.{WrittenGetsYes};
ghost use Rattle.xl_audit.specs.Texts.{NoOfTheText, TextIsJudged, YesOfTheText};
ghost use Rattle.xl_audit.specs.Verdicts.{NoNamesTheFirst, YesIsRight};

/// The law of journals that are right, which has no code: their entries are a legal history of the core, and the replies
/// that are written are those of its steps.
pub fn right_is_legal()
    ensures { RightIsLegal }
{}

/// And a legal history is right with the replies of its steps.
pub fn legal_is_right()
    ensures { LegalIsRight }
{}

/// The law of what is written of the lines of entries, which has no code.
pub fn yes_and_no()
    // A yes says that each line tells an entry, and that each entry is right, except for a last line that is cut short.
    ensures yes { YesIsRight }
    // A no names the first entry that isn't right.
    ensures no { NoNamesTheFirst }
{}

/// The law of what `audit` tells of a whole text, which has no code.
pub fn whole_texts()
    // If no line is refused, the text is a header, settings, keys, and entries that decide.
    ensures judged { TextIsJudged }
    // A yes says that all entries are right, except for a last line that is cut short, at the core that opens with the
    // settings and the keys.
    ensures yes { YesOfTheText }
    // A no names the first entry that isn't right.
    ensures no { NoOfTheText }
{}

/// The law of what is written, which has no code: the text of a legal history gets yes, if it keeps the limits on its
/// lines.
pub fn written_gets_yes()
    ensures { WrittenGetsYes }
{}

/// The law of journals without keys, which has no code: if each entry is right, the history with its tags put right, or
/// wrong if the journal says that they were, is legal, and the replies are those of its steps, except for tags.
pub fn untagged_is_legal()
    ensures { UntaggedIsLegal }
{}
