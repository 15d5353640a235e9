ghost use Rattle.std.specs.Prelude.{◌≡◌, ◌==◌, List, [], length, IfOk};

use crate::error::NoMemory;
use std::alloc::Global;
use std::marker::Model;

/// A list of items, of which a contract sees the items alone.
#[derive(Drop)]
pub struct Items<T: Drop> {
    items: Vec<T>,
}

/// A list of bytes: a file, an image.
pub type Bytes = Items<u8>;

/// The bytes of a string literal after its escapes. They need not be UTF-8.
pub type Text = Items<u8>;

impl<T: Drop> Model for Items<T> {
    ghost Value = { List T };

    ghost view = { λ l. l.items.items };
}

impl<T: Drop> Items<T> {
    /// No items. Takes no memory.
    pub fn new(alloc: Global) -> Self
        ensures { result ≡ [] }
    {
        Items {
            items: Vec::new(alloc),
        }
    }

    /// The same items. Takes no memory.
    pub fn from_vec(items: Vec<T>) -> Self
        ensures { result ≡ items.items }
    {
        Items { items }
    }

    /// The same items. Takes no memory.
    pub fn into_vec(self) -> Vec<T>
        ensures { result.items ≡ self }
    {
        let Items { items } = self;
        items
    }

    /// The items as a slice, in their order.
    pub fn as_slice(&self) -> &[T]
        ensures { result.now ≡ self.now }
    {
        self.items.as_slice()
    }

    /// How many items there are.
    pub fn len(&self) -> usize
        ensures { result ≡ length self.now }
    {
        self.items.len()
    }

    /// Whether there is no item.
    pub fn is_empty(&self) -> bool
        ensures { result ≡ (length self.now == 0) }
    {
        self.items.is_empty()
    }
}

impl<T: Copy + Drop> Items<T> {
    /// A copy of the items.
    pub fn from_slice(alloc: Global, items: &[T]) -> Result<Self, NoMemory>
        ensures { IfOk result (λ copy. copy ≡ items.now) }
    {
        match Vec::from_slice(alloc, items) {
            Ok(items) => Ok(Items { items }),
            Err(_) => Err(NoMemory),
        }
    }
}
