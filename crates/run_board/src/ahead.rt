// The keys of the next tasks, hashed together: with one that is asked for, or before one is.
ghost use Rattle.std.specs.Prelude.{◌≡◌, ◌<◌, ◌≤◌, ℕ, false, length, map, nat_lt, IfOk, OnOk};
ghost use Rattle.std.specs.List.{All};
ghost use Rattle.sha2.specs.Sha256.{sha256};
ghost use Rattle.run_laws.specs.Keys.{key_of};
ghost use Rattle.run_plan.specs.Plans.{IsValidPlan};
ghost use Rattle.task_devices.specs.Stops.{OnlyMemory};
ghost use Rattle.run_board.specs.declared.ahead.TheConstants.{KEYS_AHEAD};
ghost use Rattle.run_board.specs.Ahead.{is_due, AddsDue, ArePlacesAhead, HashesAhead, Learns};
ghost use Rattle.run_board.specs.Boards.{IsBoard};
ghost use Rattle.run_board.specs.Tables.{fingerprint_in};

use crate::board::Board;
use crate::tables::Fingerprints;
use run_plan::Plan;
use std::alloc::Global;
use task_devices::RunErr;

/// How many keys are hashed together: as many as `sha_lanes` hashes side by side.
const KEYS_AHEAD: usize = 4;

// Whether the task's key will be asked for and its fingerprint is not known.
fn is_due(plan: &Plan, known: &Fingerprints, place: u32) -> bool
    requires { place < length plan.now.listing.parts }
    ensures { result ≡ is_due plan.now (fingerprint_in known.now) place }
{
    plan.has_script(place) && !plan.bypasses(place) && known.at(place as usize).is_none()
}

// Adds the places that are due from this one on, until there are as many as are hashed together. It
// answers the place behind the last one that was looked at.
fn add_due(
    plan: &Plan,
    known: &Fingerprints,
    from: u32,
    places: &mut Vec<u32>,
) -> Result<u32, RunErr>
    requires plan { IsValidPlan plan.now }
    requires from { from ≤ length plan.now.listing.parts }
    requires few { length places.old.items ≤ KEYS_AHEAD }
    ensures added { IfOk result (λ end. AddsDue plan.now (fingerprint_in known.now) from end
        places.old.items places.new.items) }
    ensures further { IfOk result (λ end. length places.old.items < KEYS_AHEAD
        → from < length plan.now.listing.parts → from < end) }
    ensures memory { OnlyMemory result }
{
    let size = plan.size() as u32;
    'due: for next in from..size {
        if places.len() == KEYS_AHEAD {
            return Ok(next);
        }
        if is_due(plan, known, next) {
            places.push(next)?;
        }
    }
    Ok(size)
}

// The place, and behind it the next ones that are due.
fn places_ahead(
    alloc: Global,
    plan: &Plan,
    known: &Fingerprints,
    place: u32,
) -> Result<Vec<u32>, RunErr>
    requires plan { IsValidPlan plan.now }
    requires place { place < length plan.now.listing.parts }
    ensures places { IfOk result (λ places.
        ArePlacesAhead plan.now (fingerprint_in known.now) place places.items) }
    ensures memory { OnlyMemory result }
{
    let mut places = Vec::with_capacity(alloc, KEYS_AHEAD)?;
    places.push(place)?;
    add_due(plan, known, place + 1, &mut places)?;
    Ok(places)
}

impl Board {
    // Keeps the fingerprints of these tasks' keys.
    fn keep_prints(&mut self, plan: &Plan, places: &[u32], prints: &[[u8; 32]])
        requires board { IsBoard plan.now self.old }
        requires places { All (λ place. place < length plan.now.listing.parts) places.now }
        requires prints { prints.now
            ≡ map (λ place. sha256 (key_of plan.now.listing place)) places.now }
        ensures board { IsBoard plan.now self.new }
        ensures ahead { HashesAhead self.old self.new }
        ensures learned { Learns (fingerprint_in self.old.fingerprints)
            (fingerprint_in self.new.fingerprints) places.now }
    {
        'prints: for i in 0..places.len() {
            self.fingerprints.set(places[i] as usize, Some(prints[i]));
        }
    }

    /// The fingerprint of the task's key. Where it is not known, the key is hashed together with
    /// the next ones that will be asked for, and the fingerprints of all of them are kept.
    pub fn fingerprint(
        &mut self,
        alloc: Global,
        plan: &Plan,
        place: u32,
    ) -> Result<[u8; 32], RunErr>
        requires plan { IsValidPlan plan.now }
        requires place { place < length plan.now.listing.parts }
        requires board { IsBoard plan.now self.old }
        ensures print { IfOk result (λ print. print ≡ sha256 (key_of plan.now.listing place)) }
        ensures board { IsBoard plan.now self.new }
        ensures ahead { HashesAhead self.old self.new }
        ensures memory { OnlyMemory result }
    {
        if let Some(print) = self.fingerprints.at(place as usize) {
            return Ok(print);
        }
        let places = places_ahead(alloc, plan, &self.fingerprints, place)?;
        let prints = plan.fingerprints(alloc, places.as_slice())?;
        self.keep_prints(plan, places.as_slice(), prints.as_slice());
        Ok(prints[0])
    }

    /// Whether the key of a task is left that may be hashed before it is asked for.
    pub fn can_hash(&self, plan: &Plan) -> bool
        ensures { result ≡ nat_lt self.now.ahead (length plan.now.listing.parts) }
    {
        (self.ahead as usize) < plan.size()
    }

    /// Hashes the keys of the next tasks that will be asked for, as many as are hashed side by
    /// side, and keeps their fingerprints, so that this is done while commands run. The board stays
    /// the same but for these.
    pub fn hash_next(&mut self, alloc: Global, plan: &Plan) -> Result<(), RunErr>
        requires plan { IsValidPlan plan.now }
        requires board { IsBoard plan.now self.old }
        requires left { self.old.ahead < length plan.now.listing.parts }
        ensures board { IsBoard plan.now self.new }
        ensures hashed { HashesAhead self.old self.new }
        ensures ahead { OnOk result (self.old.ahead < self.new.ahead) }
        ensures all { OnOk result ((t : ℕ) → self.old.ahead ≤ t → t < self.new.ahead
            → is_due plan.now (fingerprint_in self.new.fingerprints) t ≡ false) }
        ensures memory { OnlyMemory result }
    {
        let mut places = Vec::with_capacity(alloc, KEYS_AHEAD)?;
        let end = add_due(plan, &self.fingerprints, self.ahead, &mut places)?;
        let prints = plan.fingerprints(alloc, places.as_slice())?;
        self.keep_prints(plan, places.as_slice(), prints.as_slice());
        self.ahead = end;
        Ok(())
    }
}
