ghost use Rattle.std.specs.Prelude.{◌≡◌, ◌==◌, ◌<◌, ℕ, length, map, Some, IfOk, option_copied, slice_get, position};
ghost use Rattle.std.specs.List.{IsDistinct, list_any};
ghost use Rattle.std.specs.Map.{keys_of, values_of, lookup};
ghost use Rattle.std.specs.Cmp.Lexicographic.{pointwise};
ghost use Rattle.osb_manifest.specs.Named.{named};

use crate::Pipeline;
use indexmap::IndexMap;
use osb_base::NoMemory;
use std::alloc::Global;
use std::marker::Model;

/// The pipelines of a manifest by name, in its order.
#[derive(Drop)]
pub struct Pipelines {
    by_name: IndexMap<String, Pipeline>,
}

impl Model for Pipelines {
    ghost use Rattle.std.specs.Prelude.{ℕ, List, map};
    ghost use Rattle.osb_manifest.specs.declared.manifests.Pipeline.{Pipeline};
    ghost use Rattle.osb_manifest.specs.Named.{named};

    ghost Value = { List (List ℕ × Pipeline) };

    ghost view = { λ p. map named p.by_name.entries };
}

impl Pipelines {
    /// Pipelines whose names differ.
    pub fn new(alloc: Global, pipelines: Vec<(String, Pipeline)>) -> Result<Self, NoMemory>
        requires { IsDistinct (pointwise ◌==◌) (keys_of (map named pipelines.items)) }
        ensures pipelines { IfOk result (λ made. made ≡ map named pipelines.items) }
    {
        let mut by_name = IndexMap::new(alloc);
        for (name, pipeline) in pipelines {
            by_name.insert(name, pipeline)?;
        }
        Ok(Pipelines { by_name })
    }

    pub fn len(&self) -> usize
        ensures len { result ≡ length self.now }
    {
        self.by_name.len()
    }

    /// The pipeline of a name.
    pub fn get(&self, name: &str) -> Option<&Pipeline>
        ensures found { option_copied result ≡ lookup (pointwise ◌==◌ name.now) self.now }
    {
        self.by_name.get(name)
    }

    /// The place of the pipeline of a name.
    pub fn place_of(&self, name: &str) -> Option<usize>
        ensures place { result ≡ position (pointwise ◌==◌ name.now) (keys_of self.now) }
    {
        self.by_name.get_index_of(name)
    }

    pub fn contains(&self, name: &str) -> bool
        ensures has { result ≡ list_any (pointwise ◌==◌ name.now) (keys_of self.now) }
    {
        self.by_name.contains_key(name)
    }

    /// The name of the pipeline at a place.
    pub fn name(&self, place: usize) -> &str
        requires { place < length self.now }
        ensures name { slice_get (keys_of self.now) place ≡ Some result.now }
    {
        self.by_name.get_index(place).unwrap().0.as_str()
    }

    /// The pipeline at a place.
    pub fn pipeline(&self, place: usize) -> &Pipeline
        requires { place < length self.now }
        ensures pipeline { slice_get (values_of self.now) place ≡ Some result.now }
    {
        self.by_name.get_index(place).unwrap().1
    }
}
