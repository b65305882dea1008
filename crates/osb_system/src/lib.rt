//! The stages that set up a system, a module for each: its options, how they are read, and what the stage does to a
//! tree. Each writes one file or link of `/etc`.
#![tactic(auto)]

pub mod hostname;
pub mod keymap;
pub mod locale;
pub mod machine_id;
mod settings;
pub mod timezone;
