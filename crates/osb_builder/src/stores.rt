ghost use Rattle.std.specs.Prelude.{◌≡◌, ◌⊎◌, None, Ok, Err, IfOk, IfErr};
ghost use Rattle.osb_store.specs.Rules.{IsStore};
ghost use Rattle.osb_builder.specs.Stores.{Opens};

use osb_base::{Bytes, List};
use osb_recipe::Table;
use osb_store::{Store, StoreRefusal, read_store};
use std::alloc::Global;

/// The store that these bytes are the text of, and the empty one where there are none.
pub fn open_store(alloc: Global, loaded: Option<Bytes>) -> Result<Store, StoreRefusal>
    ensures opened { IfOk result (λ store. Opens loaded (Ok store)) }
    ensures store { IfOk result IsStore }
    ensures refused { IfErr result (λ refusal. (refusal ≡ StoreRefusal.NoMemory) ⊎ Opens loaded (Err refusal)) }
{
    match loaded {
        Some(bytes) => read_store(alloc, bytes.as_slice()),
        None => empty_store(alloc),
    }
}

fn empty_store(alloc: Global) -> Result<Store, StoreRefusal>
    ensures opened { IfOk result (λ store. Opens None (Ok store)) }
    ensures store { IfOk result IsStore }
    ensures refused { IfErr result (λ refusal. refusal ≡ StoreRefusal.NoMemory) }
{
    let Ok(table) = Table::new(alloc) else {
        return Err(StoreRefusal::NoMemory);
    };
    Ok(Store {
        table,
        entries: List::new(Vec::new(alloc)),
    })
}
