//! The text of a log.
#![tactic(auto)]

pub mod laws;
mod texts;

pub use texts::log_text;
