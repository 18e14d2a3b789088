// The installed packages that owners of tasks use.
ghost use Rattle.std.specs.Prelude.{◌≡◌, ◌<◌, ◌++◌, map, length, replicate, None, IfOk, OnOk};
ghost use Rattle.std.specs.Option.{option_map};
ghost use Rattle.std.specs.List.{AllByRecursion, HoldsAt};
ghost use Rattle.serde_json.specs.View.{view};
ghost use Rattle.workspaces.specs.Space.{owners};
ghost use Rattle.collect.specs.Parts.{start_at, starts_from, starts_of};
ghost use Rattle.collect.specs.Steps.{OnlyMemory, own_starts, root_starts, lock_in, IsFitInstalled};
ghost use Rattle.collect.specs.Steps.{AreKnown, GivesUses, AllUses};

use crate::CollectErr;
use npm_lock::{ExtErr, Lock, Reached, Start};
use rel_path::{Pairs, Text};
use std::alloc::{AllocError, Global};
use task_inputs::DefinedTask;
use workspaces::{Needs, Packages};

/// Adds that these names are looked up from the location.
fn add_names(
    starts: &mut Vec<Start>,
    from: &Text,
    soft: bool,
    names: &[Text],
) -> Result<(), CollectErr>
    ensures added { OnOk result (starts.new.items
        ≡ starts.old.items ++ map (start_at from.now soft) names.now) }
    ensures memory { OnlyMemory result }
{
    for name in names {
        starts.push(Start {
            from: from.copy()?,
            name: name.copy()?,
            soft,
        })?;
    }
    Ok(())
}

fn add_needs(starts: &mut Vec<Start>, from: &Text, needs: &Needs) -> Result<(), CollectErr>
    ensures added { OnOk result (starts.new.items
        ≡ starts.old.items ++ starts_from from.now needs.now) }
    ensures memory { OnlyMemory result }
{
    add_names(starts, from, false, needs.hard.as_slice())?;
    add_names(starts, from, true, needs.soft.as_slice())?;
    Ok(())
}

/// What is looked up for the owner of this number from its folder.
fn own_starts(alloc: Global, packages: &Packages, number: u32) -> Result<Vec<Start>, CollectErr>
    requires { number < length (owners packages.now) }
    ensures value { IfOk result (λ starts. HoldsAt
        (λ p. starts.items ≡ own_starts packages.now p) (owners packages.now) number) }
    ensures memory { OnlyMemory result }
{
    let folder = packages.folder(number).text(alloc)?;
    let mut starts = Vec::new(alloc);
    add_needs(&mut starts, &folder, packages.needs(number))?;
    Ok(starts)
}

/// Adds what is looked up for every owner from the root.
fn add_root_starts(
    alloc: Global,
    starts: &mut Vec<Start>,
    packages: &Packages,
) -> Result<(), CollectErr>
    ensures added { OnOk result (starts.new.items
        ≡ starts.old.items ++ root_starts packages.now) }
    ensures memory { OnlyMemory result }
{
    let root = Text::read(alloc, "")?;
    add_needs(starts, &root, packages.needs(packages.count()))?;
    Ok(())
}

/// What is looked up in the lockfile for the owner of this number: what it needs, from its folder, and what the root
/// needs, from the root. Its only error is want of memory.
pub fn starts_of(alloc: Global, packages: &Packages, number: u32) -> Result<Vec<Start>, CollectErr>
    requires { number < length (owners packages.now) }
    ensures value { IfOk result (λ starts. HoldsAt
        (λ p. starts.items ≡ starts_of packages.now p) (owners packages.now) number) }
    ensures memory { OnlyMemory result }
{
    let mut starts = own_starts(alloc, packages, number)?;
    add_root_starts(alloc, &mut starts, packages)?;
    Ok(starts)
}

/// A lockfile, with what the root's needs reach in it, which is the same for each owner.
#[derive(Drop)]
struct Installed<'a> {
    lock: &'a Lock,
    root: Reached,
}

/// The lockfile, if there is one, with what the root's needs reach in it.
fn reach_root<'a>(
    alloc: Global,
    packages: &Packages,
    lock: Option<&'a Lock>,
) -> Result<Option<Installed<'a>>, CollectErr>
    ensures fit { IfOk result (IsFitInstalled packages.now) }
    ensures lock { IfOk result (λ now. lock_in now ≡ option_map (λ l. view l.now) lock.entry) }
    ensures memory { OnlyMemory result }
{
    let lock = match lock {
        None => return Ok(None),
        Some(lock) => lock,
    };
    let mut starts = Vec::new(alloc);
    add_root_starts(alloc, &mut starts, packages)?;
    let root = lock.reached(alloc, starts)?;
    Ok(Some(Installed { lock, root }))
}

/// The installed packages that the owner of this number uses.
fn owner_uses(
    alloc: Global,
    packages: &Packages,
    installed: &Option<Installed>,
    number: u32,
) -> Result<Pairs, CollectErr>
    requires number { number < length (owners packages.now) }
    requires installed { IsFitInstalled packages.now installed.now }
    ensures { HoldsAt (λ p. GivesUses packages.now (lock_in installed.now) p result)
        (owners packages.now) number }
{
    let installed = match installed {
        None => return Ok(Pairs::new(alloc)),
        Some(installed) => installed,
    };
    let starts = match own_starts(alloc, packages, number) {
        Ok(starts) => starts,
        Err(_) => return Err(CollectErr::OutOfMemory),
    };
    match installed
        .lock
        .externals_beyond(alloc, &installed.root, starts.as_slice())
    {
        Ok(pairs) => Ok(pairs),
        Err(ExtErr::Missing { from, name }) => Err(CollectErr::Missing { from, name }),
        Err(ExtErr::OutOfMemory) => Err(CollectErr::OutOfMemory),
    }
}

/// The installed packages that the owner of this number uses: the location of each in the lockfile, ascending, with its
/// entry there as JSON without blanks. Without a lockfile there are none.
///
/// # Errors
/// `Missing` where a name that is neither optional nor a peer finds nothing: the least location with its least name.
pub fn uses_of(
    alloc: Global,
    packages: &Packages,
    lock: Option<&Lock>,
    number: u32,
) -> Result<Pairs, CollectErr>
    requires { number < length (owners packages.now) }
    ensures { HoldsAt
        (λ p. GivesUses packages.now (option_map (λ l. view l.now) lock.entry) p result)
        (owners packages.now) number }
{
    match reach_root(alloc, packages, lock) {
        Ok(installed) => owner_uses(alloc, packages, &installed, number),
        Err(_) => Err(CollectErr::OutOfMemory),
    }
}

/// Room for what so many owners use, of which nothing is known yet.
fn none_known(alloc: Global, size: usize) -> Result<Vec<Option<Pairs>>, AllocError>
    ensures { IfOk result (λ known. known.items ≡ replicate size None) }
{
    vec![in alloc; None; size]
}

/// The installed packages that the owner of this number uses, which are known from then on.
#[tactic(auto, using(crate::proofs::Installed::known_more))]
fn next_uses(
    alloc: Global,
    packages: &Packages,
    installed: &Option<Installed>,
    known: &mut Vec<Option<Pairs>>,
    number: u32,
) -> Result<Pairs, CollectErr>
    requires number { number < length (owners packages.now) }
    requires installed { IsFitInstalled packages.now installed.now }
    requires known { AreKnown packages.now (lock_in installed.now) known.old.items }
    ensures known { AreKnown packages.now (lock_in installed.now) known.new.items }
    ensures uses { HoldsAt (λ p. GivesUses packages.now (lock_in installed.now) p result)
        (owners packages.now) number }
{
    let place = number as usize;
    if let Some(pairs) = &known[place] {
        return match pairs.copy() {
            Ok(pairs) => Ok(pairs),
            Err(_) => Err(CollectErr::OutOfMemory),
        };
    }
    let pairs = match owner_uses(alloc, packages, installed, number) {
        Ok(pairs) => pairs,
        Err(e) => return Err(e),
    };
    match pairs.copy() {
        Ok(copy) => known[place] = Some(copy),
        Err(_) => return Err(CollectErr::OutOfMemory),
    }
    Ok(pairs)
}

/// As `all_uses`, with what the root needs looked up already.
fn each_uses(
    alloc: Global,
    packages: &Packages,
    installed: &Option<Installed>,
    tasks: &[DefinedTask],
) -> Result<Vec<Pairs>, CollectErr>
    requires installed { IsFitInstalled packages.now installed.now }
    requires tasks { AllByRecursion (λ t. t.owner < length (owners packages.now)) tasks.now }
    ensures { AllUses packages.now (lock_in installed.now) tasks.now (λ us. us.items) result }
{
    let mut known = match none_known(alloc, packages.count() as usize + 1) {
        Ok(known) => known,
        Err(_) => return Err(CollectErr::OutOfMemory),
    };
    let mut uses: Vec<Pairs> = Vec::new(alloc);
    for task in tasks {
        let pairs = match next_uses(alloc, packages, installed, &mut known, task.owner) {
            Ok(pairs) => pairs,
            Err(e) => return Err(e),
        };
        match uses.push(pairs) {
            Ok(()) => {}
            Err(_) => return Err(CollectErr::OutOfMemory),
        }
    }
    Ok(uses)
}

/// The installed packages that each task's owner uses. What an owner uses is looked up once, and so is what the root
/// needs.
pub(crate) fn all_uses(
    alloc: Global,
    packages: &Packages,
    lock: Option<&Lock>,
    tasks: &[DefinedTask],
) -> Result<Vec<Pairs>, CollectErr>
    requires { AllByRecursion (λ t. t.owner < length (owners packages.now)) tasks.now }
    ensures { AllUses packages.now (option_map (λ l. view l.now) lock.entry)
        tasks.now (λ us. us.items) result }
{
    match reach_root(alloc, packages, lock) {
        Ok(installed) => each_uses(alloc, packages, &installed, tasks),
        Err(_) => Err(CollectErr::OutOfMemory),
    }
}
