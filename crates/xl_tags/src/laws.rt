ghost use Rattle.xl_tags.specs.Opening.{SealedOpens, OpensAlone};

/// The laws of seals, which have no code.
pub fn law_of_seals()
    // What a member seals, its receiver opens.
    ensures opens { SealedOpens }
    // What opens is a frame for me, from another listed member, that carries the tag under its key.
    ensures alone { OpensAlone }
{}
