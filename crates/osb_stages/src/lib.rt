//! What all stages share: readers of options, and rules of effects.
#![tactic(auto)]

pub mod laws;
pub mod members;
pub mod modes;
pub mod owners;
pub mod readers;
pub mod rules;
pub mod targets;
