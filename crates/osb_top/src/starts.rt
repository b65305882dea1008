//! What a run starts from.
ghost use Rattle.std.specs.Prelude.{◌≡◌, ◌^◌, ◌≤◌};
ghost use Rattle.osb_store.specs.Rules.{IsStore};

use osb_store::Store;
use osb_words::Settings;
use std::marker::Model;

/// Settings whose limit a cache may have, as those that words ask for. Contracts see the settings.
#[derive(Drop)]
pub struct RunSettings {
    settings: Settings,
}

impl Model for RunSettings {
    ghost use Rattle.std.specs.Prelude.{◌^◌, ◌≤◌};
    ghost use Rattle.osb_words.specs.declared.requests.Settings.{Settings as SettingsData};

    ghost Value = { SettingsData };

    ghost view = { λ r. r.settings };

    ghost invariant = { λ r. r.settings.limit ≤ 2 ^ 62 };
}

impl RunSettings {
    pub fn new(settings: Settings) -> Self
        requires limit { settings.limit ≤ 2 ^ 62 }
        ensures settings { result ≡ settings }
    {
        RunSettings { settings }
    }

    pub fn get(&self) -> &Settings
        ensures settings { result.now ≡ self.now }
        ensures limit { self.now.limit ≤ 2 ^ 62 }
    {
        &self.settings
    }
}

/// A store that its text can be read back as. Contracts see the store.
#[derive(Drop)]
pub struct LoadedStore {
    store: Store,
}

impl Model for LoadedStore {
    ghost use Rattle.osb_store.specs.Rules.{IsStore};
    ghost use Rattle.osb_store.specs.declared.stores.Store.{Store as StoreData};

    ghost Value = { StoreData };

    ghost view = { λ s. s.store };

    ghost invariant = { λ s. IsStore s.store };
}

impl LoadedStore {
    pub fn new(store: Store) -> Self
        requires store { IsStore store }
        ensures store { result ≡ store }
    {
        LoadedStore { store }
    }

    pub fn into_store(self) -> Store
        ensures store { result ≡ self }
        ensures is_store { IsStore result }
    {
        let LoadedStore { store } = self;
        store
    }
}
