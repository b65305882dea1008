//! What builds are answered: their trees exported, and the lines that say so.
#![tactic(auto)]

mod answers;
mod exports;
mod lines;

pub use answers::{Answer, ExportAnswer, Exported};
pub use exports::export_builds;
pub use lines::{answers_text, unbuilt_line};
