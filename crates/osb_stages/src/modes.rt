ghost use Rattle.std.specs.Prelude.{◌≡◌};
ghost use Rattle.osb_tree.specs.Nodes.{IsMode};

use std::marker::Model;

/// The permission bits of a node, 0 to octal 7777, which contracts see as their number.
#[derive(Clone, Copy, Debug)]
pub struct Mode {
    bits: u32,
}

impl Model for Mode {
    ghost use Rattle.std.specs.Prelude.{ℕ};
    ghost use Rattle.osb_tree.specs.Nodes.{IsMode};

    ghost Value = { ℕ };

    ghost view = { λ m. m.bits };

    ghost invariant = { λ m. IsMode m.bits };

    ghost inverse = { λ bits. record { bits = bits } };
}

impl Mode {
    pub fn new(bits: u32) -> Self
        requires { IsMode bits }
        ensures bits { result ≡ bits }
    {
        Mode { bits }
    }

    pub fn bits(self) -> u32
        ensures bits { result ≡ self }
        ensures mode { IsMode self }
    {
        self.bits
    }
}
