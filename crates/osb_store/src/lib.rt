//! A store of trees as bytes: the text that is saved, and the reader of it.
#![tactic(auto)]

mod bodies;
mod entries;
mod fields;
mod held;
mod inputs;
pub mod laws;
mod lists;
mod nodes;
mod options;
mod reading;
mod recipes;
mod refusals;
mod sealing;
mod steps;
mod stores;
mod texts;
mod writing;

pub use reading::read_store;
pub use refusals::StoreRefusal;
pub use stores::Store;
pub use writing::write_store;
