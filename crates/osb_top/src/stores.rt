//! The store of a run: loaded, and saved.
ghost use Rattle.std.specs.Prelude.{◌≡◌, Err, IfOk};
ghost use Rattle.osb_base.specs.Faults.{HasCause};
ghost use Rattle.osb_store.specs.Texts.{store_text};
ghost use Rattle.osb_top.specs.Runs.{HasKept, IsKept};
ghost use Rattle.osb_top.specs.Wholes.{IsLoaded, IsUncalled};

use osb_base::{Bytes, Keeper, ReadStop, Text, WriteStop};
use osb_store::{Store, write_store};
use std::alloc::Global;

/// The bytes that a keeper holds, where there is a store.
pub(crate) fn load<K: Keeper>(
    alloc: Global,
    name: &Option<Text>,
    keeper: &mut K,
) -> Result<Option<Bytes>, ReadStop>
    ensures loaded { IsLoaded name.now (K.held keeper.old) result }
    ensures held { K.held keeper.new ≡ K.held keeper.old }
    ensures cause { HasCause ReadStop.Failed (K.keeper_faults keeper.old) (K.keeper_faults keeper.new) result }
    ensures uncalled { IsUncalled name.now (record { before = K.held keeper.old; now = K.held keeper.new; faults = record { before = K.keeper_faults keeper.old; now = K.keeper_faults keeper.new } }) }
{
    match name {
        Some(_) => keeper.load(alloc),
        None => Ok(None),
    }
}

/// Saves the store, where there is one.
pub(crate) fn save<K: Keeper>(
    alloc: Global,
    name: &Option<Text>,
    store: &Store,
    keeper: &mut K,
) -> Result<(), WriteStop>
    ensures kept { IsKept name.now (record { before = K.held keeper.old; now = K.held keeper.new; faults = record { before = K.keeper_faults keeper.old; now = K.keeper_faults keeper.new } }) (store_text store.now) result }
{
    match name {
        Some(_) => save_text(alloc, store, keeper),
        None => Ok(()),
    }
}

fn save_text<K: Keeper>(alloc: Global, store: &Store, keeper: &mut K) -> Result<(), WriteStop>
    ensures kept { HasKept (record { before = K.held keeper.old; now = K.held keeper.new; faults = record { before = K.keeper_faults keeper.old; now = K.keeper_faults keeper.new } }) (store_text store.now) result }
{
    let Ok(text) = write_store(alloc, store) else {
        return Err(WriteStop::NoMemory);
    };
    keeper.save(alloc, text.as_slice())
}
