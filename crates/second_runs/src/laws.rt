// What follows of the images of a run over two stores. The law is the contract of a function that
// does nothing: who calls it, knows the law.
ghost use Rattle.second_runs.specs.Laws.{SoundLaw, MoreLaw, TruthLaw};

/// An image to which a run added, or might have, is a store where it was one; and where the first
/// pairs of a store told the truth, so do the pairs of each image that the run left of it.
pub fn image_law()
    ensures sound { SoundLaw }
    ensures more { MoreLaw }
    ensures truth { TruthLaw }
{}
