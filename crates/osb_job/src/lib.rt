//! A worker's job: what it does next, told by the replies that it had.
#![tactic(auto)]

mod actions;
mod conditions;
mod entries;
mod jobs;
pub mod laws;
mod places;
mod stages;
mod takes;
mod wants;

pub use actions::{Action, Flag, Reply};
pub use entries::{Entry, Event, Word, word_of};
pub use jobs::Job;
pub use places::{Parts, Place, Setup};
