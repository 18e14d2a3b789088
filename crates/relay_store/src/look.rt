// Look-ups in two stores.
ghost use Rattle.std.specs.Prelude.{◌≡◌, ◌≢◌, ◌⊎◌, ◌+◌, ◌≤◌, ◌++◌, IsTrue, IfOk, IfErr, IfSome};
ghost use Rattle.std.specs.Prelude.{OnOk};
ghost use Rattle.rel_path.specs.Causes.{Counts};
ghost use Rattle.codes.specs.Views.{found_as};
ghost use Rattle.cache_api.specs.Artifacts.{Artifact};
ghost use Rattle.cache_api.specs.declared.hit.Hit.{Hit};
ghost use Rattle.cache_api.specs.Cache.{is_fault, IsFindErr};
ghost use Rattle.cache_api.specs.Found.{found};
ghost use Rattle.cache_api.specs.Hits.{paths_ascend, owns_paths, span_count};
ghost use Rattle.cache_api.specs.Keys.{text_of as key_text};
ghost use Rattle.cache_api.specs.Reading.{artifact_in};
ghost use Rattle.relay_store.specs.Devices.{IsFound};
ghost use Rattle.relay_store.specs.Parts.{state_of, pairs_of, cost_of, stands, shows, IsRead};

use crate::part::Part;
use cache_api::{CacheErr, Hit, Key};
use globs::OutSet;
use std::alloc::Global;
use store_dev::StoreDevice;

/// What the pairs of two parts give to a task with this key and these outputs, those of the last
/// part standing last: it is asked first. A hit is marked with the side of the part that has it.
pub(crate) fn look_up<L: StoreDevice, F: StoreDevice>(
    alloc: Global,
    key: Key,
    outs: &OutSet,
    last: &mut Part<L>,
    last_side: u8,
    first: &mut Part<F>,
    first_side: u8,
) -> Result<Option<Hit>, CacheErr>
    requires last { IsTrue (state_of last.old).whole }
    requires first { IsTrue (state_of first.old).whole }
    requires sides { last_side ≢ first_side }
    ensures found { L.tells → F.tells → (show : Hit → Artifact)
        → ((hit : Hit) → hit.side ≡ last_side → show hit ≡ shows last.new hit)
        → ((hit : Hit) → hit.side ≡ first_side → show hit ≡ shows first.new hit)
        → IfOk result (λ o. found_as show o ≡ found artifact_in (key_text key.entry) outs.now
        (pairs_of first.old ++ pairs_of last.old)) }
    // of each part, where its device alone tells
    ensures last_found { L.tells → IfOk result (IsFound last_side (Unit {0}) (shows last.new)
        (found artifact_in (key_text key.entry) outs.now (pairs_of last.old))) }
    ensures first_found { F.tells → IfOk result (IsFound first_side ⊥ (shows first.new)
        (found artifact_in (key_text key.entry) outs.now (pairs_of first.old))) }
    ensures stands { IfOk result (λ o. IfSome o (λ hit.
        ((hit.side ≡ last_side) × stands last.new hit)
        ⊎ ((hit.side ≡ first_side) × stands first.new hit))) }
    ensures fits { IfOk result (λ o. IfSome o (λ hit.
        IsTrue (paths_ascend hit) × IsTrue (owns_paths outs.now hit))) }
    ensures probes { L.tells → F.tells → (state_of last.new).probes + (state_of first.new).probes
        ≤ ((state_of last.old).probes + (state_of first.old).probes)
        + (cost_of last.old (key_text key.entry) + cost_of first.old (key_text key.entry)) }
    ensures spans { L.tells → F.tells → IfOk result (λ o. IfSome o (λ hit.
        (state_of last.new).probes + (state_of first.new).probes + span_count hit
        ≤ ((state_of last.old).probes + (state_of first.old).probes)
        + (cost_of last.old (key_text key.entry) + cost_of first.old (key_text key.entry)))) }
    ensures last_read { IsRead last.old last.new }
    ensures first_read { IsRead first.old first.new }
    ensures last_whole { OnOk result ((state_of last.new).whole ≡ (state_of last.old).whole) }
    ensures first_whole { OnOk result ((state_of first.new).whole ≡ (state_of first.old).whole) }
    ensures answers { IfErr result IsFindErr }
    ensures cause { Counts is_fault ((state_of last.old).faults + (state_of first.old).faults)
        ((state_of last.new).faults + (state_of first.new).faults) result }
{
    if let Some(hit) = last.lookup(alloc, key, outs, last_side)? {
        return Ok(Some(hit));
    }
    first.lookup(alloc, key, outs, first_side)
}
