// The listing of wanted tasks.
ghost use Rattle.std.specs.Prelude.{◌≡◌, ◌≢◌, ◌<◌, ℕ, true, false, [], length, map, slice_index_or, AllPairs, IfOk};
ghost use Rattle.std.specs.Option.{option_map};
ghost use Rattle.std.specs.List.{AllByRecursion};
ghost use Rattle.std.specs.List.Sorted.{IsStrictlySortedBy};
ghost use Rattle.serde_json.specs.View.{view};
ghost use Rattle.rel_path.specs.Paths.{Path, is_among, path_cmp};
ghost use Rattle.rel_path.specs.Files.{FileMap, file_at};
ghost use Rattle.tree_dev.specs.Tree.{Looks};
ghost use Rattle.tree_walk.specs.Walked.{is_open};
ghost use Rattle.spawn_dev.specs.Orders.{IsAscending};
ghost use Rattle.run_laws.specs.Closures.{names};
ghost use Rattle.run_laws.specs.Valid.{IsOrdered};
ghost use Rattle.run_laws.specs.Plans.{AreApart};
ghost use Rattle.ignore_rules.specs.Ignored.{is_ignored};
ghost use Rattle.ignore_rules.specs.Stacks.{rules_at};
ghost use Rattle.workspaces.specs.Space.{owners, AreWalked};
ghost use Rattle.task_inputs.specs.Homes.{LieApart, home_of};
ghost use Rattle.collect.specs.Tasks.{IsDefined};
ghost use Rattle.collect.specs.Listings.{IsListing};
ghost use Rattle.collect.specs.Refusals.{Collects};
ghost use Rattle.collect.specs.Cause.{HasCause};
ghost use Rattle.collect.specs.Steps.{OnlyMemory, Plans, AreRows, AreFit, IsMade, AreMade, rules_file};

use crate::exclusions::exclusions_of;
use crate::laws::listing_law;
use crate::marks::marks_of;
use crate::parts::{Source, all_parts};
use crate::reading::{gather, read_all, rule_paths};
use crate::rules::stack_of;
use crate::tasks::defined_tasks;
use crate::uses::all_uses;
use crate::{CollectErr, Wanted};
use env_select::EnvList;
use listing::{Listing, Parts};
use npm_lock::Lock;
use rel_path::limits::MAX_INPUT_BYTES;
use rel_path::{Files, Pairs, Paths, Places, Text, Texts};
use std::alloc::Global;
use task_definitions::Config;
use task_inputs::{Declared, DefinedTask, input_places};
use tree_dev::Tree;
use workspaces::Packages;

/// What is known before a file is read: the tasks by their owners' numbers and definitions, the installed packages that
/// the owner of each uses, what tasks declare, the ignore files that count, what tasks of the root must not declare, and
/// the variables that count for every task.
#[derive(Drop)]
struct Plan {
    tasks: Vec<DefinedTask>,
    uses: Vec<Pairs>,
    declared: Declared,
    rules: Paths,
    exclusions: Texts,
    globals: EnvList,
}

fn plan_of(
    alloc: Global,
    walk: &Paths,
    packages: &Packages,
    config: &Config,
    lock: Option<&Lock>,
    wanted: &[Wanted],
) -> Result<Plan, CollectErr>
    requires apart { LieApart packages.now.packages }
    requires tasks { AllByRecursion (λ w. IsDefined config.now packages.now w.id) wanted.now }
    ensures { Plans config.now packages.now (option_map (λ l. view l.now) lock.entry)
        walk.now wanted.now result }
{
    let tasks = match defined_tasks(alloc, packages, config, wanted) {
        Ok(tasks) => tasks,
        Err(_) => return Err(CollectErr::OutOfMemory),
    };
    let uses = match all_uses(alloc, packages, lock, &tasks) {
        Ok(uses) => uses,
        Err(e) => return Err(e),
    };
    let declared = match Declared::new(alloc, packages, config) {
        Ok(declared) => declared,
        Err(_) => return Err(CollectErr::OutOfMemory),
    };
    let rules = match rule_paths(alloc, &declared, walk.as_slice()) {
        Ok(rules) => rules,
        Err(_) => return Err(CollectErr::OutOfMemory),
    };
    let exclusions = match exclusions_of(alloc, packages) {
        Ok(exclusions) => exclusions,
        Err(_) => return Err(CollectErr::OutOfMemory),
    };
    match EnvList::read(alloc, &config.globals().env) {
        Ok(globals) => Ok(Plan {
            tasks,
            uses,
            declared,
            rules,
            exclusions,
            globals,
        }),
        Err(_) => Err(CollectErr::OutOfMemory),
    }
}

/// The places of the tasks' files, and which places stand among them.
#[derive(Drop)]
struct Rows {
    rows: Vec<Places>,
    marks: Vec<bool>,
}

fn rows_of(
    alloc: Global,
    walk: &Paths,
    packages: &Packages,
    config: &Config,
    plan: &Plan,
    ignores: &Files,
) -> Result<Rows, CollectErr>
    requires apart { LieApart packages.now.packages }
    requires declared { plan.now.declared ≡ map (home_of config.now) (owners packages.now) }
    requires tasks { AllByRecursion (λ t. t.owner < length (owners packages.now))
        plan.now.tasks.items }
    ensures rows { IfOk result (AreRows config.now (owners packages.now) walk.now
        (is_ignored (rules_at (map rules_file ignores.now))) plan.now.tasks.items) }
    ensures memory { OnlyMemory result }
{
    let stack = stack_of(alloc, ignores.as_slice())?;
    let rows = input_places(
        alloc,
        walk,
        &stack,
        packages,
        config,
        &plan.declared,
        &plan.tasks,
    )?;
    let marks = marks_of(alloc, walk.as_slice().len(), &rows)?;
    Ok(Rows { rows, marks })
}

/// The parts of the wanted tasks, of what was planned and found.
fn parts_of(
    alloc: Global,
    packages: &Packages,
    env: &[(Text, Text)],
    walk: &Paths,
    wanted: &[Wanted],
    plan: &Plan,
    rows: &Rows,
    found: &[bool],
) -> Result<Parts, CollectErr>
    requires homes { length plan.now.declared ≡ length (owners packages.now) }
    requires same { length found.now ≡ length walk.now }
    requires fit { AreFit (length (owners packages.now)) (length walk.now)
        wanted.now plan.now.tasks.items rows.now.rows.items plan.now.uses.items }
    ensures value { IfOk result (AreMade (IsMade (owners packages.now) plan.now.declared
        plan.now.exclusions plan.now.globals env.now walk.now found.now)
        wanted.now plan.now.tasks.items rows.now.rows.items plan.now.uses.items) }
    ensures memory { OnlyMemory result }
{
    let source = Source {
        packages,
        declared: &plan.declared,
        exclusions: &plan.exclusions,
        globals: &plan.globals,
        env,
        walk: walk.as_slice(),
        found,
    };
    all_parts(alloc, &source, wanted, &plan.tasks, &rows.rows, &plan.uses)
}

/// The listing of the wanted tasks: a part for each, in order, and the walked files that some of them takes, which are
/// there, with their bytes. The order of refusals: `Missing` where the owner of a wanted task needs a name that the
/// lockfile does not have, for the first such task; `TooLarge` at the first ignore file that counts, and else the first
/// input, of more than 256 MiB; `TooMuch` where the inputs have more than 1 GiB together. Each file is read once, none
/// where a name is missing. Without a lockfile no owner uses installed packages.
///
/// Tasks are those of packages and of the root, which is the package `//`. What a task of the root declares lies below no
/// package's folder: behind its outputs stands a text for each package that excludes what lies below its folder.
///
/// `tree_walk::walk`, `Packages` and `task_graph` give what is required. Whatever the tree tells, the listing is that of
/// some files, it stands in order, and its tasks keep out of each other's way.
pub fn collect<T: Tree>(
    alloc: Global,
    tree: &mut T,
    walk: &Paths,
    packages: &Packages,
    config: &Config,
    lock: Option<&Lock>,
    wanted: &[Wanted],
    env: &[(Text, Text)],
) -> Result<Listing, CollectErr>
    requires free { (path : Path) → is_among walk.now path ≡ true
        → (T.state tree.old).held path ≡ false }
    requires ascend { IsStrictlySortedBy path_cmp walk.now }
    requires outside { (path : Path) → is_among walk.now path ≡ true → is_open path ≡ true }
    requires apart { LieApart packages.now.packages }
    requires walked { AreWalked walk.now packages.now.packages }
    requires tasks { AllByRecursion (λ w. IsDefined config.now packages.now w.id) wanted.now }
    requires ids { AllPairs (λ v w. v.id ≢ w.id) wanted.now }
    requires lower { (place : ℕ) → AllByRecursion (λ d. d < place)
        (slice_index_or (map (λ w. w.deps) wanted.now) place []) }
    requires deps { AllByRecursion (λ w. IsAscending (λ a b. a < b) w.deps) wanted.now }
    ensures looks { Looks (T.state tree.old) (T.state tree.new) }
    ensures listed { IfOk result (λ l. (files : FileMap) × IsListing config.now packages.now
        (option_map (λ l. view l.now) lock.entry) files walk.now env.now wanted.now l) }
    ensures ordered { IfOk result IsOrdered }
    ensures apart { IfOk result AreApart }
    ensures collects { T.tells → Collects config.now packages.now
        (option_map (λ l. view l.now) lock.entry) (T.state tree.old).files
        walk.now env.now wanted.now result }
    ensures inputs { T.tells → IfOk result (λ l. (path : Path) → names l.parts path ≡ true
        → (T.state tree.old).files path ≡ file_at l.files path) }
    ensures cause { HasCause (T.state tree.old).faults (T.state tree.new).faults result }
{
    listing_law();
    let plan = match plan_of(alloc, walk, packages, config, lock, wanted) {
        Ok(plan) => plan,
        Err(e) => return Err(e),
    };
    let ignores = match read_all(alloc, tree, plan.rules.as_slice()) {
        Ok(ignores) => ignores,
        Err(e) => return Err(e),
    };
    let rows = match rows_of(alloc, walk, packages, config, &plan, &ignores) {
        Ok(rows) => rows,
        Err(_) => return Err(CollectErr::OutOfMemory),
    };
    let gathered = match gather(alloc, tree, &ignores, walk.as_slice(), &rows.marks) {
        Ok(gathered) => gathered,
        Err(e) => return Err(e),
    };
    if gathered.total > MAX_INPUT_BYTES {
        return Err(CollectErr::TooMuch {
            bytes: gathered.total,
        });
    }
    match parts_of(
        alloc,
        packages,
        env,
        walk,
        wanted,
        &plan,
        &rows,
        &gathered.found,
    ) {
        Ok(parts) => Ok(Listing {
            parts,
            files: gathered.files,
        }),
        Err(_) => Err(CollectErr::OutOfMemory),
    }
}
