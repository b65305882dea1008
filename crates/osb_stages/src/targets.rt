ghost use Rattle.std.specs.Prelude.{◌≡◌, Some, None, IfOk, if◌then◌else◌};
ghost use Rattle.osb_tree.specs.Nodes.{InRange};
ghost use Rattle.osb_stages.specs.Readers.{is_target};
ghost use Rattle.osb_stages.specs.Rules.{link};

use osb_tree::{NoMemory, Node, Text};
use std::marker::Model;

/// What a link points to: 1 to 4,095 bytes without NUL, which is how contracts see it.
#[derive(Debug, Drop)]
pub struct Target {
    text: Text,
}

impl Model for Target {
    ghost use Rattle.std.specs.Prelude.{ℕ, List};
    ghost use Rattle.osb_tree.specs.Nodes.{IsTarget};

    ghost Value = { List ℕ };

    ghost view = { λ t. t.text };

    ghost invariant = { λ t. IsTarget t.text };
}

impl Target {
    /// The text, where a link may point there.
    pub fn new(text: Text) -> Option<Self>
        ensures target { result ≡ (if is_target text then Some text else None) }
    {
        let target = text.as_str();
        if target.is_empty() || target.len() > 4095 || target.as_bytes().contains(&0) {
            return None;
        }
        Some(Target { text })
    }

    /// A link there, with owners 0.
    pub fn link(&self) -> Result<Node, NoMemory>
        ensures link { IfOk result (λ node. node ≡ link self.now) }
        ensures in_range { IfOk result InRange }
    {
        Ok(Node::Link {
            uid: 0,
            gid: 0,
            target: self.text.clone()?,
        })
    }
}
