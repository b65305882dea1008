//! The words of a run, read by clap.
#![tactic(auto)]

mod commands;
mod reading;
mod requests;
mod values;

pub use reading::{WordsFault, settings};
pub use requests::Settings;
