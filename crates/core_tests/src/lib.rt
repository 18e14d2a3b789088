//! Tests of the scheduler: worked runs by hand, and all orders of ends of small graphs beside a plain machine.
#![tactic(auto)]

#[cfg(test)]
mod greedy;
#[cfg(test)]
mod orders;
#[cfg(test)]
mod plain;
#[cfg(test)]
mod play;
#[cfg(test)]
mod runs;
