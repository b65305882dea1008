//! Exports of trees.
#![tactic(auto)]

mod exports;

pub use exports::{ExportFault, export};
