// Lists of items, which contracts see as plain lists.
ghost use Rattle.std.specs.Prelude.{◌≡◌, ◌<◌, ◌++◌, ◌∷◌, [], length, ◌==◌, slice_get, Some};
ghost use Rattle.std.specs.Prelude.{OnOk, OnErr, IfOk};

use crate::memory::NoMemory;
use std::alloc::Global;
use std::marker::Model;

/// Items in order. Contracts see the list.
#[derive(Debug, Drop)]
pub struct ItemList<T> {
    items: Vec<T>,
}

impl<T> Model for ItemList<T> {
    ghost use Rattle.std.specs.Prelude.{List};

    ghost Value = { List T };

    ghost view = { λ a. a.items.items };
}

impl<T> ItemList<T> {
    /// No items. It takes no memory.
    pub fn new(alloc: Global) -> ItemList<T>
        ensures { result ≡ [] }
    {
        ItemList {
            items: Vec::new(alloc),
        }
    }

    /// The items of a vector, in their order, in the memory that they stand in.
    pub fn from_vec(items: Vec<T>) -> ItemList<T>
        ensures { result ≡ items.items }
    {
        ItemList { items }
    }

    /// The items as a vector, in the memory that they stand in.
    pub fn into_list(self) -> Vec<T>
        ensures { result.items ≡ self }
    {
        self.items
    }

    /// The number of items.
    pub fn len(&self) -> usize
        ensures { result ≡ length self.now }
    {
        self.items.len()
    }

    /// Whether there is no item.
    pub fn is_empty(&self) -> bool
        ensures { result ≡ (length self.now == 0) }
    {
        self.items.is_empty()
    }

    /// The items as a slice.
    pub fn as_slice(&self) -> &[T]
        ensures { result.now ≡ self.now }
    {
        self.items.as_slice()
    }
}

impl<T: Drop> ItemList<T> {
    /// Adds an item at the end. Where memory is refused the list is unchanged, and the item is dropped.
    pub fn push(&mut self, item: T) -> Result<(), NoMemory>
        ensures ok { OnOk result (self.new ≡ self.old ++ item ∷ []) }
        ensures err { OnErr result (self.new ≡ self.old) }
    {
        self.items.push(item)?;
        Ok(())
    }
}

impl<T: Copy> ItemList<T> {
    /// The item at a place, counted from 0.
    pub fn get(&self, i: usize) -> T
        requires { i < length self.now }
        ensures { slice_get self.now i ≡ Some result }
    {
        self.items[i]
    }

    /// A second list of the same items. `NoMemory` where room for it was refused.
    pub fn try_copy(&self) -> Result<ItemList<T>, NoMemory>
        ensures { IfOk result (λ copy. copy ≡ self.now) }
    {
        let alloc = *self.items.allocator();
        Ok(ItemList {
            items: Vec::from_slice(alloc, &self.items)?,
        })
    }
}
