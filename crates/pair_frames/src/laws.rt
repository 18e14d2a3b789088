// What the definitions settle. Each law is the contract of a function that does nothing: who calls it, knows the law.
ghost use Rattle.pair_frames.specs.Laws.{RunsLaw, PutLaw, PairsLaw, SeveralLaw};

/// The runs of a text are all of it, and those of an artifact's text are its log and its files.
pub fn runs_law()
    ensures { RunsLaw }
{}

/// The frames of a pair stand for it and change no other, may be appended, and keep no content twice. They take little
/// more than twice the bytes of the pair.
pub fn put_law()
    ensures { PutLaw }
{}

/// The pairs of frames stay as they are when frames are added, and contents and generations add none.
pub fn pairs_law()
    ensures { PairsLaw }
{}

/// The frames of several pairs stand for those that fit in the room, change no others and may be appended. Where a pair
/// does not fit, less is left than is enough for it.
pub fn several_law()
    ensures { SeveralLaw }
{}
