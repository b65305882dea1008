//! One build before its plan and after its tasks: what is needed of its manifest, and what is due of it.
#![tactic(auto)]

mod exports;
mod preparing;
mod trees;
mod unbuilt;

pub use exports::Export;
pub use preparing::prepare;
pub use trees::exports_of_tasks;
pub use unbuilt::Unbuilt;
