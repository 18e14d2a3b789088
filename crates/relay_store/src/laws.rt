// What is so of all relays. Each law is the contract of a function that does nothing: who calls
// it, knows the law.
ghost use Rattle.relay_store.specs.Laws.{LocalAdds, SecondAdds, LocalKeeps, SecondKeeps, FullLaw};
ghost use Rattle.relay_store.specs.Devices.{HasNone, ReadsNone, HasMore};

use store_dev::StoreDevice;

/// What images of a relay say of each device, at every moment: of one that is put into, its pairs
/// and the first of those that the relay put, of the other its pairs.
pub fn device_law<S: StoreDevice, R: StoreDevice>()
    ensures local { LocalAdds S.StoreDevice R.StoreDevice }
    ensures second { SecondAdds S.StoreDevice R.StoreDevice }
    ensures local_kept { LocalKeeps S.StoreDevice R.StoreDevice }
    ensures second_kept { SecondKeeps S.StoreDevice R.StoreDevice }
{}

/// There is no room for a pair exactly where its frames pass the room of one of the stores that
/// are put into.
pub fn full_law<S: StoreDevice, R: StoreDevice>()
    ensures { FullLaw S.StoreDevice R.StoreDevice }
{}

/// Calls of a relay one behind another, of one of its stores whose device alone need tell its
/// bytes. So for a whole run: at every moment an image of the device stands for the pairs that
/// the store had at first and a first part of all that it was given since, in order.
pub fn taken_law<S: StoreDevice>()
    ensures none { HasNone S.StoreDevice }
    ensures read { ReadsNone S.StoreDevice }
    ensures more { HasMore S.StoreDevice }
{}
