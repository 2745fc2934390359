ghost use Rattle.std.specs.Prelude.{◌≡◌};
ghost use Rattle.xl_base.specs.declared.moments.TheConstants.{GREATEST_MILLIS, PAST_SECS, FUTURE_SECS};
ghost use Rattle.xl_base.specs.declared.node_no.TheConstants.{GREATEST_NODE_NO, MOST_MEMBERS};
ghost use Rattle.xl_base.specs.declared.sets.TheConstants.{MOST_IDS};
ghost use Rattle.xl_base.specs.Moments.{greatest_millis, past_secs, future_secs};
ghost use Rattle.xl_base.specs.Members.{greatest_node_no, most_members};
ghost use Rattle.xl_base.specs.Sets.{most_ids};

/// The law of the constants, which has no code: each is the number that the definitions give.
pub fn law_of_constants()
    ensures millis { GREATEST_MILLIS ≡ greatest_millis }
    ensures past { PAST_SECS ≡ past_secs }
    ensures future { FUTURE_SECS ≡ future_secs }
    ensures number { GREATEST_NODE_NO ≡ greatest_node_no }
    ensures members { MOST_MEMBERS ≡ most_members }
    ensures ids { MOST_IDS ≡ most_ids }
{}
