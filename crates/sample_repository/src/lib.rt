//! A made repository of packages, as large as is asked for, and a world in memory in which its
//! commands run.
//!
//! The package with the number k, counted from 0, has the folder `packages/p000k`, a source of 256
//! letters and one script, `build`. Its command writes `dist/out.txt`: the source, and behind it the
//! output of the package with the number (k - 1) / 2, which it needs; the first one needs none.
//! [`sample_world`] makes the world for so many packages:
//!
//! ```text
//! sample_world(2)
//! package.json                      {"workspaces":["packages/*"]}
//! turbo.json                        {"tasks":{"build":{"dependsOn":["^build"],"outputs":["dist/**"]}}}
//! packages/p0000/package.json       {"name":"p0000","scripts":{"build":"make"},"version":"1.0.0"}
//! packages/p0000/src/a.txt          256 letters
//! packages/p0001/package.json       {"dependencies":{"p0000":"*"},"name":"p0001",..
//! packages/p0001/src/a.txt          256 letters
//! ```
//!
//! [`changed_world`] makes one over the files of another, in which the source of one package begins
//! with another byte. Both ask for 1 to 400 packages, and answer `OutOfMemory` where memory is
//! wanting, and no other error.
//!
//! `specs/` defines the files and commands (`Repository`), the change (`Changes`), and a world before
//! anything was done in it (`Worlds`).
#![tactic(auto)]

mod changes;
mod files;
mod paths;
mod rules;
mod world;

pub use world::{changed_world, sample_world};
