ghost use Rattle.xl_firsts.specs.Firsts.{FirstLeads};

/// The law of first ones, which has no code: where an order has one of two different numbers first, the number that
/// comes before each other is found, and it is the only one.
pub fn law_of_firsts()
    ensures { FirstLeads }
{}
