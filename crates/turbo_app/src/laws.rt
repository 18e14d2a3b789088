// What follows of images of the stores.
ghost use Rattle.turbo_app.specs.Images.{ImageLaw, TruthLaw};

use run_laws::due_law;
use store_dev::StoreDevice;

/// Where each two stores add pairs that are due to the two before them, or keep what a compaction
/// chooses of these, and the first two have at most nine bytes each, all their pairs tell the
/// truth.
pub fn image_law()
    ensures { ImageLaw }
{
    due_law();
}

/// Where the pairs of each two images told the truth as a call began, so do those of each two that
/// it leaves, whatever its words are.
pub fn truth_law<S: StoreDevice, P: StoreDevice>()
    ensures { TruthLaw S.images P.images }
{}
