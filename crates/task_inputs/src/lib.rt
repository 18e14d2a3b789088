//! Which files are the inputs of a task: which configured tasks declare a file, what the entries of `inputs` and
//! `globalDependencies` match, and which files come of it (Turborepo docs, "Configuring turbo.json").
//!
//! Tasks and files belong to owners: the packages and, behind them, the root. A path has one home: the package whose
//! folder it lies below, else the root.
//!
//! `specs/` says it as tests of a path: whose a file is and who declares it (`Homes`), what an entry matches
//! (`Entries`), and what a task takes (`is_input` of `Inputs`).
//!
//! ```text
//! "inputs": ["$TURBO_DEFAULT$", "!docs/**", "$TURBO_ROOT$/tsconfig.json"]
//! ```
//!
//! takes the files of the package that no `.gitignore` leaves out, but those below its folder `docs`,
//! and one of the root. The package's `package.json` and `turbo.json` always count; what a task of the
//! package declares by `outputs` never does.
#![tactic(auto)]

mod configured;
mod declared;
mod definitions;
mod files;
mod from_root;
mod inputs;
mod table;
mod tasks;
mod union;
mod wide;

pub use declared::Declared;
pub use definitions::DefinedTask;
pub use from_root::rooted;
pub use inputs::input_places;
