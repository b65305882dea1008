//! The shape of a manifest's objects, as JSON values: looks into them, their places, and which members each may have.
#![tactic(auto)]

mod forms;
mod numbers;
pub mod places;
pub mod references;
pub mod shapes;
pub mod values;

pub use forms::is_pipeline_name;
pub use numbers::bad_number;
