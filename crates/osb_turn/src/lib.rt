//! The turnstile: one history for many threads. The threads take turns, and in its turn a thread has the shared state
//! for itself, plays one action on it and adds one entry to the history.
#![tactic(auto)]

mod law;
mod played;
#[cfg(test)]
mod tests;
mod turns;
mod turnstile;
mod views;

pub use played::Played;
pub use turnstile::{Seat, Turnstile};
pub use views::Entry;
