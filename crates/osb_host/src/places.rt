//! Where paths stand under folders.
ghost use Rattle.std.specs.Prelude.{◌≡◌, ◌++◌, codes, string_bytes, IfOk};

use osb_base::NoMemory;
use std::alloc::Global;

/// Where a path stands under a folder.
pub(crate) fn place_of(alloc: Global, folder: &str, path: &str) -> Result<String, NoMemory>
    ensures { IfOk result (λ place. string_bytes place ≡ folder.now ++ (codes "/" ++ path.now)) }
{
    format!(in alloc; "{folder}/{path}")
}
