//! The stages that add groups and users: the account files as data, what the stages make of them, and the homes.
#![tactic(auto)]

mod changed_users;
pub mod files;
pub mod groups;
mod homes;
pub mod laws;
mod lines;
mod memberships;
mod new_users;
mod numbers;
mod passwords;
mod pieces;
pub mod texts;
pub mod users;

pub use lines::{Line, Lines};
