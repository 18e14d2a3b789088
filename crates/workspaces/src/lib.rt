//! The packages of an npm workspace, and which of them depend on which (npm docs, "workspaces").
//!
//! With `"workspaces": ["packages/*"]` in the root's manifest each folder `packages/x` that holds
//! a `package.json` is a package. `web` depends on `ui` where a map of its manifest names `ui`
//! with a range that the version of `ui` meets, or with a text such as `*` or `workspace:^`; else
//! the name is needed from outside. [`discover`] finds the packages, ascending by name, and
//! [`Packages`] answers folders, manifests, edges and what is reached over them. With these three
//! manifests:
//!
//! ```text
//! packages/app/package.json     {"name": "app", "dependencies": {"ui": "^1.0.0", "react": "^18"}}
//! packages/ui/package.json      {"name": "ui", "version": "1.2.0",
//!                                "dependencies": {"utils": "*"}}
//! packages/utils/package.json   {"name": "utils", "version": "0.1.0"}
//!
//! number_of(utils)   Some(2)    edges(0)   1           below([0])   1, 2
//! count()            3          needs(0)   react       above([2])   0, 1
//! ```
//!
//! Packages are numbered from 0 by their names, and the root has the number behind the last.
//!
//! [`SpaceErr`] says why there are none, in this order: `Glob` for an entry of `workspaces` that
//! is none, its place counted in characters; `TooLarge` for a manifest of more than 256 MiB, and
//! `Manifest` for one that is none; `Inside` for a package in another one; `NameTwice`. `Failed`
//! comes where the tree failed. Every call that is given an allocator may fail for want of memory.
#![tactic(auto)]

mod checks;
mod discovery;
mod edge_lists;
mod edges;
mod entries;
mod error;
mod folders;
mod lookup;
mod member;
mod needs;
mod packages;
mod reach;
mod reading;
mod sorted;
mod users;

pub use discovery::discover;
pub use edges::is_edge;
pub use error::SpaceErr;
pub use member::Package;
pub use needs::Needs;
pub use packages::Packages;
pub use reach::marked;
pub use users::users_of;
