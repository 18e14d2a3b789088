//! Ranges of versions as npm reads them in `dependencies`, without hyphen ranges: which texts are ranges, and which
//! versions a range admits.
//!
//! `specs/` defines the grammar of the text (`Grammar`), the bounds that each comparator stands for (`Table`), and which
//! versions bounds admit (`Limits`). Numbers, pre-releases and their order are those of SemVer 2.0.0, as `semver` has them.
//!
//! ```text
//! ^1.2.3             1.2.3 up to, but not, 2.0.0
//! ~1.2 || >=3        1.2.x, or 3.0.0 and above
//! 1.x                1.0.0 up to, but not, 2.0.0
//! *                  all, but for pre-releases
//! >=1.0.0-rc.1       pre-releases of 1.0.0 from rc.1 on, and all versions from 1.0.0 on
//! 1.0.0 - 2.0.0      `NotARange`: hyphen ranges are left out
//! ```
#![tactic(auto)]

mod characters;
mod comparator;
mod error;
mod limit;
mod range;
mod table;
mod version;

pub use error::RangeErr;
pub use limit::{Bound, Relation};
pub use range::Range;
