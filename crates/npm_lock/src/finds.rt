// What the names of each entry find, looked up once.
ghost use Rattle.std.specs.Prelude.{◌≡◌, ◌<◌, ◌^◌, length, map, IfOk, IsOkUnless};
ghost use Rattle.lock_entries.specs.Lockfile.{Ascend};
ghost use Rattle.lock_entries.specs.declared.error.LockErr.TheVariants.{OutOfMemory};
ghost use Rattle.npm_lock.specs.Finds.{found_by};

use crate::lookup::found_number;
use lock_entries::{Entry, LockErr};
use std::alloc::Global;
use std::marker::Model;

/// The number of the location that each name of an entry finds, if it finds one.
#[derive(Drop)]
pub(crate) struct Finds {
    items: Vec<Option<u32>>,
}

impl Model for Finds {
    ghost use Rattle.std.specs.Prelude.{List, Option, ℕ};

    ghost Value = { List (Option ℕ) };

    ghost view = { λ l. l.items.items };
}

impl Finds {
    pub(crate) fn as_slice(&self) -> &[Option<u32>]
        ensures { result.now ≡ self.now }
    {
        self.items.as_slice()
    }
}

// Nothing is looked up from a link.
#[tactic(auto, unfolding(crate::specs::Finds::found_by))]
fn found_by(alloc: Global, entries: &[Entry], entry: &Entry) -> Result<Finds, LockErr>
    requires ascend { Ascend entries.now }
    requires few { length entries.now < 2 ^ 32 }
    ensures found { IfOk result (λ finds. finds ≡ found_by entries.now entry.now) }
    ensures memory { IsOkUnless result OutOfMemory }
{
    let mut items = Vec::new(alloc);
    if entry.link.is_some() {
        return Ok(Finds { items });
    }
    let from = entry.location.as_str();
    for name in entry.names.as_slice() {
        items.push(found_number(entries, from.as_bytes(), name.text.as_str().as_bytes()))?;
    }
    Ok(Finds { items })
}

pub(crate) fn all_found(alloc: Global, entries: &[Entry]) -> Result<Vec<Finds>, LockErr>
    requires ascend { Ascend entries.now }
    requires few { length entries.now < 2 ^ 32 }
    ensures found { IfOk result (λ finds. finds.items ≡ map (found_by entries.now) entries.now) }
    ensures memory { IsOkUnless result OutOfMemory }
{
    let mut finds = Vec::new(alloc);
    for entry in entries {
        finds.push(found_by(alloc, entries, entry)?)?;
    }
    Ok(finds)
}
