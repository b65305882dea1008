//! Manifests, from their bytes.
#![tactic(auto)]

mod conditions;
mod exports;
pub mod laws;
mod making;
mod making_inputs;
mod making_items;
mod manifests;
mod objects;
mod pipelines;
mod reading;
mod stages;
mod uses;
mod walks;

pub use exports::{NoSuchExport, needed};
pub use manifests::{Input, Manifest, Pipeline, Refusal, Stage};
pub use osb_shape::is_pipeline_name;
pub use pipelines::Pipelines;
pub use reading::read_manifest;
pub use uses::wanted;
