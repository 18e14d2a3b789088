//! Tests of the devices, and callers that are generic over them.
#![tactic(auto)]

#[cfg(test)]
mod ends;
mod generic;
#[cfg(test)]
mod given;
#[cfg(test)]
mod make;
#[cfg(test)]
mod owned;
#[cfg(test)]
mod scripts;
#[cfg(test)]
mod stores;
#[cfg(test)]
mod system;
#[cfg(test)]
mod trees;
#[cfg(test)]
mod worlds;

pub use generic::{look_while_running, run_alone, run_plain, start_both, start_plain};
