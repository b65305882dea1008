ghost use Rattle.std.specs.Prelude.{◌≡◌, ◌↔◌, IsTrue};
ghost use Rattle.std.specs.Cmp.Lexicographic.{pointwise};
ghost use Rattle.osb_recipe.specs.Recipes.{Origin, IsReadFrom, same_named, same_recipe};

use crate::StageKind;
use crate::references::{InputRecipe, TreeRef, same_build, same_input, same_ref};
use osb_tree::{List, Shared, Text};
use std::marker::Model;

/// The whole of what one stage's tree comes from: the stage, the tree that it runs in, the tree that it changes, and its
/// inputs, by rising name. The stage's kind is what its type reads in the options that the text spells.
#[derive(Drop)]
pub struct Recipe {
    pub kind: Shared<StageKind>,
    /// Python's text of the options.
    pub options_text: Text,
    pub build: Option<TreeRef>,
    pub base: TreeRef,
    pub inputs: List<(Text, InputRecipe)>,
}

impl Model for Recipe {
    ghost use Rattle.osb_recipe.specs.Recipes.{Origin, IsReadFrom};

    ghost Value = { Origin };

    ghost view = { λ r. record { kind = r.kind; options_text = r.options_text; build = r.build; base = r.base; inputs = r.inputs } };

    ghost invariant = { λ r. IsReadFrom r.kind r.options_text };
}

impl Recipe {
    /// Whether the two are equal in all that they have. Their texts tell the kinds of their stages.
    pub fn is_same(&self, other: &Recipe) -> bool
        ensures exact { IsTrue result ↔ (self.now ≡ other.now) }
        ensures test { result ≡ same_recipe self.now other.now }
    {
        let _mine = &self.options_text;
        let _others = &other.options_text;
        same_recipe(self, other)
    }
}

fn same_recipe(a: &Recipe, b: &Recipe) -> bool
    ensures { result ≡ same_recipe a.now b.now }
{
    a.kind.get().type_text() == b.kind.get().type_text()
        && a.options_text == b.options_text
        && same_build(a.build, b.build)
        && same_ref(a.base, b.base)
        && same_inputs(a.inputs.as_slice(), b.inputs.as_slice())
}

fn same_inputs(a: &[(Text, InputRecipe)], b: &[(Text, InputRecipe)]) -> bool
    ensures { result ≡ pointwise same_named a.now b.now }
{
    if a.len() != b.len() {
        return false;
    }
    for (mine, others) in a.iter().zip(b) {
        if !same_named(mine, others) {
            return false;
        }
    }
    true
}

fn same_named(a: &(Text, InputRecipe), b: &(Text, InputRecipe)) -> bool
    ensures { result ≡ same_named a.now b.now }
{
    a.0 == b.0 && same_input(&a.1, &b.1)
}
