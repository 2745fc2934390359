ghost use Rattle.xl_publish.specs.Runs.{KeepsGreatest, KeepsAlike, ListsAlike};

/// The law of rolls, which has no code: in whatever order, and however often, they come.
pub fn law_of_orders()
    // The kept roll of a publisher is the greatest of its rolls that were taken.
    ensures greatest { KeepsGreatest }
    // So what is kept is a function of the set of rolls that were taken,
    ensures kept { KeepsAlike }
    // and so is the list in force at every second.
    ensures lists { ListsAlike }
{}
