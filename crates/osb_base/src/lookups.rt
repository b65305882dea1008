ghost use Rattle.std.specs.Prelude.{◌≡◌, ◌==◌, option_copied};
ghost use Rattle.std.specs.Cmp.Lexicographic.{pointwise};
ghost use Rattle.std.specs.Map.{lookup};

use crate::{Digest, Text};

/// What stands under a name in a list of named items: of several, the first.
pub fn find_named<'a, T>(items: &'a [(Text, T)], name: &str) -> Option<&'a T>
    ensures found { option_copied result ≡ lookup (pointwise ◌==◌ name.now) items.now }
{
    for (held, item) in items {
        if name == held.as_str() {
            return Some(item);
        }
    }
    None
}

/// What stands under a digest in a list of items by digest: of several, the first.
pub fn find_item<'a, T>(items: &'a [(Digest, T)], digest: &Digest) -> Option<&'a T>
    ensures found { option_copied result ≡ lookup (pointwise ◌==◌ digest.now) items.now }
{
    for (held, item) in items {
        if digest == held {
            return Some(item);
        }
    }
    None
}
