ghost use Rattle.std.specs.Prelude.{◌≡◌};
ghost use Rattle.osb_recipe.specs.Recipes.{same_ref, same_build, same_input};

use osb_tree::{Key, List};

/// A tree that a stage is given.
#[derive(Clone, Copy, Debug)]
pub enum TreeRef {
    /// The empty tree.
    Empty,
    /// The one of a recipe.
    Of(Key),
}

/// What a stage has as an input.
#[derive(Debug, Drop)]
pub enum InputRecipe {
    Tree(TreeRef),
    /// Blobs by their numbers, by rising digest.
    Files(List<u64>),
}

pub(crate) fn same_ref(a: TreeRef, b: TreeRef) -> bool
    ensures { result ≡ same_ref a b }
{
    match (a, b) {
        (TreeRef::Empty, TreeRef::Empty) => true,
        (TreeRef::Of(a), TreeRef::Of(b)) => a.0 == b.0,
        _ => false,
    }
}

pub(crate) fn same_build(a: Option<TreeRef>, b: Option<TreeRef>) -> bool
    ensures { result ≡ same_build a b }
{
    match (a, b) {
        (None, None) => true,
        (Some(a), Some(b)) => same_ref(a, b),
        _ => false,
    }
}

pub(crate) fn same_input(a: &InputRecipe, b: &InputRecipe) -> bool
    ensures { result ≡ same_input a.now b.now }
{
    match (a, b) {
        (InputRecipe::Tree(a), InputRecipe::Tree(b)) => same_ref(*a, *b),
        (InputRecipe::Files(a), InputRecipe::Files(b)) => a.as_slice() == b.as_slice(),
        _ => false,
    }
}
