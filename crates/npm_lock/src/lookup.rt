// Where npm looks for a name, and what it finds.
ghost use Rattle.std.specs.Prelude.{◌≡◌, ◌<◌, ◌^◌, ◌++◌, length, map};
ghost use Rattle.rel_path.specs.Paths.{name_cmp};
ghost use Rattle.lock_entries.specs.Lockfile.{Ascend};
ghost use Rattle.npm_lock.specs.Lookup.{is_modules, place_in, above_without_modules, number_of, first_number, found_number};

use lock_entries::Entry;
use std::cmp::Ordering;

const SLASH: u8 = b'/';

const MODULES: &[u8] = b"node_modules/";

const BELOW: &[u8] = b"/node_modules/";

const NAME: &[u8] = b"node_modules";

const LAST: &[u8] = b"/node_modules";

fn cmp_joined(text: &[u8], front: &[u8], back: &[u8]) -> Ordering
    ensures { result ≡ name_cmp text.now (front.now ++ back.now) }
{
    match text.strip_prefix(front) {
        None => text.cmp(front),
        Some(rest) => rest.cmp(back),
    }
}

// Compares a location with the place of the name in the folder.
fn cmp_place(location: &[u8], folder: &[u8], name: &[u8]) -> Ordering
    ensures { result ≡ name_cmp location.now (place_in name.now folder.now) }
{
    if folder.is_empty() {
        return cmp_joined(location, MODULES, name);
    }
    match location.strip_prefix(folder) {
        None => location.cmp(folder),
        Some(rest) => cmp_joined(rest, BELOW, name),
    }
}

fn cmp_entry(entry: &Entry, folder: &[u8], name: &[u8]) -> Ordering
    ensures { result ≡ name_cmp entry.now.location (place_in name.now folder.now) }
{
    cmp_place(entry.location.as_str().as_bytes(), folder, name)
}

// The number of the location that is the place of the name in the folder.
fn number_of(entries: &[Entry], folder: &[u8], name: &[u8]) -> Option<u32>
    requires ascend { Ascend entries.now }
    requires few { length entries.now < 2 ^ 32 }
    ensures { result ≡ number_of entries.now (place_in name.now folder.now) }
{
    let compare = |entry: &Entry| -> Ordering
        ensures { result ≡ name_cmp entry.now.location (place_in name.entry.now folder.entry.now) }
    { cmp_entry(entry, folder, name) };
    match entries.binary_search_by(compare) {
        Ok(number) => Some(number as u32),
        Err(_) => None,
    }
}

// Whether the folder is itself called node_modules.
fn is_modules(folder: &[u8]) -> bool
    ensures { result ≡ is_modules folder.now }
{
    folder == NAME || folder.ends_with(LAST)
}

fn found_above(entries: &[Entry], from: &[u8], name: &[u8]) -> Option<u32>
    requires ascend { Ascend entries.now }
    requires few { length entries.now < 2 ^ 32 }
    ensures { result ≡ first_number entries.now
        (map (place_in name.now) (above_without_modules from.now (length from.now))) }
{
    let mut end = from.len();
    while end > 0 {
        end -= 1;
        let folder = &from[..end];
        if from[end] == SLASH && !is_modules(folder) {
            let found = number_of(entries, folder, name);
            if found.is_some() {
                return found;
            }
        }
    }
    number_of(entries, &from[..0], name)
}

/// The number of the location that the name finds from a location. It takes no memory.
pub(crate) fn found_number(entries: &[Entry], from: &[u8], name: &[u8]) -> Option<u32>
    requires ascend { Ascend entries.now }
    requires few { length entries.now < 2 ^ 32 }
    ensures { result ≡ found_number entries.now from.now name.now }
{
    match number_of(entries, from, name) {
        Some(number) => Some(number),
        None => found_above(entries, from, name),
    }
}
