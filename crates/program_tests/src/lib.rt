//! Tests of the program's whole call, with real files and commands, each in an empty folder of its own.
#![tactic(auto)]

#[cfg(test)]
mod at_once;
#[cfg(test)]
mod endings;
#[cfg(test)]
mod environments;
#[cfg(test)]
mod folder;
#[cfg(test)]
mod logs;
#[cfg(test)]
mod pages;
#[cfg(test)]
mod session;
#[cfg(test)]
mod stores;
#[cfg(test)]
mod words;
