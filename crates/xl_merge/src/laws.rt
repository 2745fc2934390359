ghost use Rattle.xl_merge.specs.Orders.{ListsAlike};

/// The law of what is told of a list, which has no code: in whatever order, and however often, the lines of the rolls
/// stand.
pub fn law_of_orders()
    ensures { ListsAlike }
{}
