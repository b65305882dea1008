ghost use Rattle.std.specs.Prelude.{◌≡◌, ◌≢◌, ◌<◌, ℕ, [], ◌∷◌, length, Ok, Err, IfOk, IfErr, OnOk, IsTrue, IsFalse};
ghost use Rattle.std.specs.List.{All};
ghost use Rattle.osb_base.specs.Digests.{digest_text};
ghost use Rattle.osb_tree.specs.Paths.{root};
ghost use Rattle.osb_tree.specs.Trees.{is_directory_at};
ghost use Rattle.osb_recipe.specs.FilesTrees.{item_path, with_items, files_tree, blobs_at};

use osb_base::Digest;
use osb_stages::rules::put_leaf;
use osb_tree::{Bytes, Name, NoMemory, Node, Path, PathFault, PutFault, StageFault, Tree};
use sha2::{Digest as Hashing, Sha256};
use std::alloc::Global;

/// The tree of the blobs with these numbers, which count from 0: a file `/sha256:HEX` for each, of mode 0644 and owned
/// by 0.
pub fn files_tree(alloc: Global, blobs: &[Bytes], numbers: &[u64]) -> Result<Tree, PutFault>
    requires numbers { All (λ number. number < length blobs.now) numbers.now }
    ensures tree { result ≢ Err PutFault.NoMemory → result ≡ files_tree (blobs_at blobs.now numbers.now) }
{
    let mut tree = Tree::empty(alloc)?;
    for number in numbers {
        let bytes = blobs[*number as usize].as_slice();
        match put_item(alloc, bytes, &mut tree) {
            Ok(()) => {}
            Err(fault) => return Err(fault),
        }
    }
    Ok(tree)
}

/// Adds an item's file to a tree in which no directory has its path.
fn put_item(alloc: Global, bytes: &[u8], tree: &mut Tree) -> Result<(), PutFault>
    requires rooted { IsTrue (is_directory_at tree.old root) }
    requires free { IsFalse (is_directory_at tree.old (item_path bytes.now)) }
    ensures ok { OnOk result (with_items (bytes.now ∷ []) tree.old ≡ Ok tree.new) }
    ensures fault { IfErr result (λ fault. fault ≢ PutFault.NoMemory → with_items (bytes.now ∷ []) tree.old ≡ Err fault) }
{
    let Ok(path) = item_path(alloc, bytes) else {
        return Err(PutFault::NoMemory);
    };
    let node = Node::File {
        mode: 0o644,
        uid: 0,
        gid: 0,
        bytes: Bytes::new(Vec::from_slice(alloc, bytes)?),
    };
    match put_leaf(alloc, &path, node, tree) {
        Ok(()) => Ok(()),
        Err(StageFault::NoMemory) => Err(PutFault::NoMemory),
        Err(_) => Err(PutFault::TooLarge),
    }
}

/// Where an item's file stands.
fn item_path(alloc: Global, bytes: &[u8]) -> Result<Path, PathFault>
    ensures path { result ≢ Err PathFault.NoMemory → result ≡ Ok (item_path bytes.now) }
{
    let digest = Digest::of(Sha256::digest(bytes));
    let name = item_name(alloc, &digest, digest.as_slice())?;
    Path::root(alloc).join(alloc, &[name])
}

/// The name of an item's file, by its digest and the bytes of that.
fn item_name(alloc: Global, digest: &Digest, bytes: &[u8]) -> Result<Name, NoMemory>
    requires { bytes.now ≡ digest.now }
    ensures name { IfOk result (λ name. name ≡ digest_text digest.now) }
{
    let text = digest.text(alloc)?;
    Name::new(alloc, text.as_str())
}
