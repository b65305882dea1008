ghost use Rattle.std.specs.Prelude.{◌≡◌, List as Items};

use std::marker::Model;

/// A list of any items, which contracts see as the list of their values.
#[derive(Debug, Drop)]
pub struct List<T> {
    items: Vec<T>,
}

impl<T> Model for List<T> {
    ghost use Rattle.std.specs.Prelude.{List as Items};

    ghost Value = { Items T };

    ghost view = { λ l. l.items.items };
}

impl<T> List<T> {
    pub fn new(items: Vec<T>) -> Self
        ensures items { result ≡ items.items }
    {
        List { items }
    }

    pub fn as_slice(&self) -> &[T]
        ensures items { result.now ≡ self.now }
    {
        &self.items
    }

    pub fn into_vec(self) -> Vec<T>
        ensures items { result.items ≡ self }
    {
        self.items
    }
}
