ghost use Rattle.std.specs.Prelude.{◌≡◌, IfOk};

use crate::NoMemory;
use std::alloc::Global;
use std::marker::Model;
use std::sync::Arc;

/// A value with several owners, which contracts see as the value itself.
#[derive(Drop)]
pub struct Shared<T> {
    inner: Arc<T>,
}

impl<T> Model for Shared<T> {
    ghost Value = { T };

    ghost view = { λ s. s.inner.value };
}

impl<T: Drop> Shared<T> {
    pub fn new(alloc: Global, value: T) -> Result<Self, NoMemory>
        ensures value { IfOk result (λ s. s ≡ value) }
    {
        Ok(Shared {
            inner: Arc::new(alloc, value)?,
        })
    }

    /// One more owner of the same value.
    pub fn share(&self) -> Result<Self, NoMemory>
        ensures value { IfOk result (λ s. s ≡ self.now) }
    {
        Ok(Shared {
            inner: self.inner.clone()?,
        })
    }

    pub fn get(&self) -> &T
        ensures value { result.now ≡ self.now }
    {
        &self.inner
    }
}
