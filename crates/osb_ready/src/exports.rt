use osb_base::Text;
use osb_tree::{Shared, Tree};

/// A pipeline that is to be exported: its name, and its tree.
#[derive(Drop)]
pub struct Export {
    pub name: Text,
    pub tree: Shared<Tree>,
}
