ghost use Rattle.std.specs.Prelude.{◌≡◌, ◌≢◌, ◌++◌, ℕ, List};
ghost use Rattle.xl_wire.specs.declared.frame.Frame.{Frame};
ghost use Rattle.xl_wire.specs.Frames.{Spells};
ghost use Rattle.xl_wire.specs.Heads.{Split, split_of};
ghost use Rattle.std.specs.List.{AllByRecursion};
ghost use Rattle.xl_wire.specs.Raws.{RawFrame, SpellsRaw};
ghost use Rattle.xl_wire.specs.Streams.{AreFramesOf, Act, IsAct, opened, fed_after, taken_by, handed_by};

/// A law: no frame's spelling begins another's, and different frames have different spellings. It holds of frames whose
/// body is read and of those whose body isn't.
pub fn one_spelling()
    ensures frames { (f g : Frame) (x y s t : List ℕ) → Spells f x → Spells g y → x ++ s ≡ y ++ t → (x ≡ y) × (f ≡ g) }
    ensures raws { (f g : RawFrame) (x y s t : List ℕ) → SpellsRaw f x → SpellsRaw g y → x ++ s ≡ y ++ t
        → (x ≡ y) × (f ≡ g) }
{}

/// A law of every feed: however a stream is cut into pieces, the frames handed out so far, and then those of what is
/// held, are the frames of the bytes taken. If no frame is held any more, those handed out are all of them, and
/// what is held is the rest. Bytes have one such list of frames, with one rest.
pub fn cut_anywhere()
    ensures handed { (acts : List Act) (more : List RawFrame) (rest : List ℕ) → AllByRecursion IsAct acts
        → AreFramesOf (fed_after opened acts).held more rest
        → AreFramesOf (taken_by opened acts) (handed_by opened acts ++ more) rest }
    ensures settled { (acts : List Act) → AllByRecursion IsAct acts
        → ((f : RawFrame) → split_of (fed_after opened acts).held ≢ Split.Whole f)
        → AreFramesOf (taken_by opened acts) (handed_by opened acts) (fed_after opened acts).held }
    ensures one { (bytes : List ℕ) (frames others : List RawFrame) (rest left : List ℕ) → AreFramesOf bytes frames rest
        → AreFramesOf bytes others left → (frames ≡ others) × (rest ≡ left) }
{}
