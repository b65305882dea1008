//! The stages that work on files and directories, a module for each: its options, how they are read, and what the
//! stage does to a tree.
#![tactic(auto)]

mod attributes;
pub mod chmod;
pub mod chown;
pub mod copy;
pub mod error;
pub mod mkdir;
pub mod noop;
pub mod symlink;
