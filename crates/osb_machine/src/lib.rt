//! The build machine: what workers share, and what each action does to it.
#![tactic(auto)]

mod machines;
mod openings;
mod parts;
mod places;
mod serials;
mod shares;
mod stagings;
mod turns;

pub use machines::{Machine, run_schedule};
pub use osb_state::Opened;
pub use parts::OwnPart;
pub use serials::serial;
pub use shares::{Finished, Shared};
pub use stagings::Staging;
