//! The objects of a manifest.
use serde_json::Value;

/// An object of a manifest: a pipeline by its place, a stage by its pipeline's and its own, an input by these and its
/// name, a source by its name, and an item by its source's name and its own.
#[derive(Clone, Copy)]
pub enum Object<'a> {
    Top(&'a Value),
    Pipeline(usize, &'a Value),
    Stage(usize, usize, &'a Value),
    Input(usize, usize, &'a str, &'a Value),
    Source(&'a str, &'a Value),
    Item(&'a str, &'a str, &'a Value),
}
