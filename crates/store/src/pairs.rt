// Two stores side by side: the first one's items, and then the second one's, as far as a store may have them.
ghost use Rattle.std.specs.Prelude.{◌≡◌, ◌<◌, ◌≤◌, length, slice_set};
ghost use Rattle.store.specs.Few.{few_pair};
ghost use Rattle.store.specs.Pair.{pair, Located};

use crate::{Item, MOST_ITEMS, Store, Version};

#[derive(Drop)]
pub struct Pair<A: Store, B: Store> {
    first: A,
    second: B,
}

// Which of the two stores has an item, and at which place there.
enum Half {
    First(Item),
    Second(Item),
}

impl<A: Store, B: Store> Pair<A, B> {
    pub fn new(first: A, second: B) -> Pair<A, B>
        ensures first { result.first ≡ first }
        ensures second { result.second ≡ second }
    {
        Pair { first, second }
    }

    // The two stores, to look at.
    pub fn first(&self) -> &A
        ensures { result.now ≡ self.now.first }
    {
        &self.first
    }

    pub fn second(&self) -> &B
        ensures { result.now ≡ self.now.second }
    {
        &self.second
    }

    pub fn into_parts(self) -> (A, B)
        ensures first { result.0 ≡ self.first }
        ensures second { result.1 ≡ self.second }
    {
        let Pair { first, second } = self;
        (first, second)
    }

    // None past the last place that a store may have.
    fn half(&self, item: Item) -> Option<Half>
        ensures { Located (length (A.Store.versions self.now.first)) item result }
    {
        let seam = self.first.count();
        if item < seam {
            Some(Half::First(item))
        } else if (item as usize) < MOST_ITEMS {
            Some(Half::Second(item - seam))
        } else {
            None
        }
    }
}

impl<A: Store, B: Store> Store for Pair<A, B> {
    ghost versions = { λ p. pair (A.Store.versions p.first) (B.Store.versions p.second) };

    ghost few = { λ p. few_pair (A.Store.versions p.first) (B.Store.versions p.second) };

    #[tactic(auto, using(crate::proofs::PairLaws::length_pair))]
    fn count(&self) -> u16 {
        (self.first.count() + self.second.count()).min(MOST_ITEMS as u16)
    }

    fn get(&self, item: Item) -> Option<Version> {
        match self.half(item)? {
            Half::First(place) => self.first.get(place),
            Half::Second(place) => self.second.get(place),
        }
    }

    // Beside the versions: at most one of the two is put to, and past the last place none.
    fn put(&mut self, item: Item, version: Version)
        ensures versions { pair (A.Store.versions self.new.first) (B.Store.versions self.new.second) ≡ slice_set (pair (A.Store.versions self.old.first) (B.Store.versions self.old.second)) item version }
        ensures first { length (A.Store.versions self.old.first) ≤ item → self.new.first ≡ self.old.first }
        ensures second { item < length (A.Store.versions self.old.first) → self.new.second ≡ self.old.second }
        ensures past { 256 ≤ item → self.new.second ≡ self.old.second }
    {
        match self.half(item) {
            Some(Half::First(place)) => self.first.put(place, version),
            Some(Half::Second(place)) => self.second.put(place, version),
            None => {}
        }
    }
}
