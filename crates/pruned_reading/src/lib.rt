//! The files of a pruned repository make the repository of the packages that stay.
//!
//! Of the packages `docs`, `ui` and `web`, where `web` depends on `ui`, let `web` be named. What
//! is read of the files that are left has
//!
//! ```text
//! packages    ui in packages/ui, web in packages/web
//! files       package.json, packages/ui/package.json, packages/ui/src/a.js,
//!             packages/web/package.json, packages/web/src/a.js, turbo.json
//! lockfile    none, as the whole repository has none
//! ```
//!
//! Where there is a lockfile, it is the cut one, whose text may have at most 256 MiB: the law says
//! nothing of a longer one.
//!
//! `specs/Laws.antt` says so; [`reading_law`] is the contract of a function that does nothing and
//! has no errors.
#![tactic(auto)]

mod laws;

pub use laws::reading_law;
