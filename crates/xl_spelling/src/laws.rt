ghost use Rattle.xl_spelling.specs.Spellings.{ListsAreRead};

/// The law of lists, which has no code: the spelling of a line that sets a list is read as that line, by each reader to
/// which such a line may come.
pub fn law_of_read_lists()
    ensures { ListsAreRead }
{}
