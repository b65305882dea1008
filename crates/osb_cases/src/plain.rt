use crate::cases::Case;
use crate::mistakes::{CaseFault, Mistake};
use crate::puts::{Put, answer_of, puts};
use osb_base::NoMemory;
use osb_plain::PlainTree;
use osb_tree::{Path, Tree};
use std::alloc::Global;

/// A tree, and the same by scans.
#[derive(Drop)]
struct Pair {
    tree: Tree,
    plain: PlainTree,
}

/// How many puts a tree and a plain tree agree at, or where they first differ.
pub fn agreement(alloc: Global, case: &Case) -> Result<String, CaseFault> {
    let mut pair = Pair {
        tree: Tree::empty(alloc)?,
        plain: PlainTree::empty(alloc)?,
    };
    let mut count = 0u64;
    for put in puts(alloc, case)? {
        if let Some(difference) = pair.difference_after(alloc, put)? {
            return Ok(format!(in alloc; "{difference} after {count} puts that agree")?);
        }
        count = count.saturating_add(1);
    }
    Ok(format!(in alloc; "{count} puts agree")?)
}

impl Pair {
    /// Puts into both, and says what differs.
    fn difference_after(
        &mut self,
        alloc: Global,
        put: Put,
    ) -> Result<Option<&'static str>, CaseFault> {
        let Put {
            line,
            path,
            node,
            look_up,
        } = put;
        if !node.in_range() {
            return Err(Mistake::NodeOutOfRange.at(line));
        }
        let due = answer_of(self.plain.put(alloc, path.clone()?, node.clone()?))?;
        let came = answer_of(self.tree.put(alloc, path, node))?;
        if came != due {
            return Ok(Some("answer"));
        }
        Ok(self.difference_at(alloc, &look_up)?)
    }

    /// What differs at a path.
    fn difference_at(&self, alloc: Global, path: &Path) -> Result<Option<&'static str>, NoMemory> {
        if self.tree.get(path) != self.plain.get(path) {
            return Ok(Some("node"));
        }
        let next = self.tree.next_path(path)?;
        if next.as_ref() != self.plain.next_path(path) {
            return Ok(Some("next path"));
        }
        if self.tree.len() != self.plain.len() {
            return Ok(Some("number of paths"));
        }
        if self.tree.size() != self.plain.size() {
            return Ok(Some("size"));
        }
        Ok(None)
    }
}
