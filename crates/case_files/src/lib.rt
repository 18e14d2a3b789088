//! Cases as data: a file has a case a line, a JSON object with the case's name (`case`), its inputs and the wanted
//! answer (`is`). A section of a program reads the inputs, makes a call and gives its answer as JSON, which is compared
//! with the wanted one. Beside it devices of which nothing is told: one in memory, and one that is nearly full and takes
//! little memory.
#![tactic(auto)]

pub mod answers;
pub mod inputs;
mod outcome;
mod section;
mod untold;
mod vast;

pub use outcome::Outcome;
pub use section::{compare, print_section};
pub use untold::Untold;
pub use vast::Vast;
