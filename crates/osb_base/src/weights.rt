ghost use Rattle.std.specs.Prelude.{◌≡◌, ℕ};

use osb_tree::Chunk;

/// A value that counts for a number of bytes where it is kept.
pub trait Weighed {
    ghost weight_of: { Self → ℕ };

    fn weight(&self) -> u64
        ensures weight { result ≡ weight_of self.now };
}

impl Weighed for Chunk {
    ghost use Rattle.osb_tree.specs.Trees.{tree_size};

    ghost weight_of = { tree_size };

    fn weight(&self) -> u64 {
        Chunk::weight(self)
    }
}
