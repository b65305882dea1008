//! The crew: workers in threads of their own, each with a job and a seat at a turnstile before the shared state.
#![tactic(auto)]

mod bells;
mod crews;
mod workers;

pub use crews::crew;
