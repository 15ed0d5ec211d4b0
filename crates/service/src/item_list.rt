// A short list of items.
ghost use Rattle.std.specs.Prelude.{◌≡◌, ◌<◌, ◌≤◌, [], ◌∷◌, ◌++◌, length};

use crate::tools::ENTRIES;
use store::Item;

// Items of one transaction, in the order of its entries. Callers are promised a type that is `Copy`, and no `ArrayVec` is.
#[derive(Clone, Copy)]
pub struct ItemList {
    places: [Item; ENTRIES],
    used: usize,
    ghost whole: { length places ≡ 8 },
    ghost fits: { used ≤ 8 },
}

impl ItemList {
    ghost use Rattle.service.specs.Views.{items_of};

    pub(crate) fn new() -> ItemList
        ensures { items_of result ≡ [] }
    {
        ItemList {
            places: [0; ENTRIES],
            used: 0,
        }
    }

    pub(crate) fn push(&mut self, item: Item)
        requires { length (items_of self.old) < 8 }
        ensures { items_of self.new ≡ items_of self.old ++ item ∷ [] }
    {
        self.places[self.used] = item;
        self.used += 1;
    }

    pub fn as_slice(&self) -> &[Item]
        ensures { result.now ≡ items_of self.now }
    {
        &self.places[..self.used]
    }
}
