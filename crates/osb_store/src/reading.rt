//! Reading a store.
ghost use Rattle.std.specs.Prelude.{◌≡◌, ◌⊎◌, Ok, Err, IfOk, IfErr};
ghost use Rattle.osb_store.specs.Refusals.{IsRefused};
ghost use Rattle.osb_store.specs.Rules.{IsStore};
ghost use Rattle.osb_store.specs.Texts.{store_text};
ghost use Rattle.osb_store.specs.declared.refusals.StoreRefusal.{StoreRefusal as RefusalData};
ghost use Rattle.osb_store.specs.declared.refusals.StoreRefusal.TheVariants as refusals;
ghost use Rattle.osb_store.specs.declared.stores.Store.{Store as StoreData};

use crate::bodies::body_of;
use crate::sealing::body_in;
use crate::{Store, StoreRefusal};
use std::alloc::Global;

/// The store that the bytes are the text of, or the first cause why they are none.
pub fn read_store(alloc: Global, bytes: &[u8]) -> Result<Store, StoreRefusal>
    ensures text { IfOk result (λ store. bytes.now ≡ store_text store) }
    ensures store { IfOk result IsStore }
    ensures accepts { (store : StoreData) → IsStore store → bytes.now ≡ store_text store → (result ≡ Ok store) ⊎ (result ≡ Err refusals.NoMemory) }
    ensures refused { IfErr result (λ refusal. (refusal ≡ refusals.NoMemory) ⊎ IsRefused refusal bytes.now) }
    ensures refuses { (refusal : RefusalData) → IsRefused refusal bytes.now → (result ≡ Err refusal) ⊎ (result ≡ Err refusals.NoMemory) }
{
    match body_in(bytes) {
        Ok(body) => body_of(alloc, body),
        Err(refusal) => Err(refusal),
    }
}
