use crate::{PLACES, Queue, Token, slices};
use store::{Item, Stamp};

// A token with a mark, to tell equal ones apart.
#[derive(Clone, Copy, PartialEq, Eq, Debug, Default)]
struct Mark {
    item: Item,
    stamp: Stamp,
    mark: u8,
}

impl Token for Mark {
    ghost tells = { record { item = λ x. x.item; stamp = λ x. x.stamp } };

    fn item(&self) -> Item {
        self.item
    }

    fn stamp(&self) -> Stamp {
        self.stamp
    }
}

// A kind of token with no default.
#[derive(Clone, Copy, PartialEq, Eq, Debug)]
struct Sealed {
    mark: Mark,
}

impl Token for Sealed {
    ghost tells = { record { item = λ x. x.mark.item; stamp = λ x. x.mark.stamp } };

    fn item(&self) -> Item {
        self.mark.item
    }

    fn stamp(&self) -> Stamp {
        self.mark.stamp
    }
}

fn token(item: Item, stamp: Stamp, mark: u8) -> Mark {
    Mark { item, stamp, mark }
}

fn seal(item: Item, stamp: Stamp, mark: u8) -> Sealed {
    Sealed {
        mark: token(item, stamp, mark),
    }
}

#[test]
fn equal_stamps_keep_their_order(rt: HostRuntime) {
    let mut places = [token(0, 0, 0); 4];
    assert!(rt; slices::insert(&mut places, 0, token(1, 5, 1)));
    assert!(rt; slices::insert(&mut places, 1, token(2, 7, 2)));
    assert!(rt; slices::insert(&mut places, 2, token(3, 5, 3)));
    assert_eq!(rt;
        places,
        [
            token(1, 5, 1),
            token(3, 5, 3),
            token(2, 7, 2),
            token(0, 0, 0),
        ]
    );
    let mut queue = Queue::<Mark, 4>::new();
    assert!(rt; queue.insert(token(1, 5, 1)).is_ok());
    assert!(rt; queue.insert(token(2, 7, 2)).is_ok());
    assert!(rt; queue.insert(token(3, 5, 3)).is_ok());
    assert_eq!(rt; queue.tokens(), &places[..3]);
}

#[test]
fn full_places_refuse(rt: HostRuntime) {
    let mut places = [token(1, 5, 1), token(2, 7, 2)];
    assert!(rt; !slices::insert(&mut places, 2, token(3, 6, 3)));
    assert_eq!(rt; places, [token(1, 5, 1), token(2, 7, 2)]);
    let mut queue = Queue::<Mark, 2>::new();
    assert!(rt; queue.insert(token(1, 5, 1)).is_ok());
    assert!(rt; queue.insert(token(2, 7, 2)).is_ok());
    let refused = queue.insert(token(3, 6, 3)).err();
    assert_eq!(rt; refused.map(|full| full.element()), Some(token(3, 6, 3)));
    assert_eq!(rt; queue.tokens(), places.as_slice());
}

#[test]
fn the_first_of_two_equal_goes(rt: HostRuntime) {
    let mut places = [token(1, 4, 0), token(1, 5, 1), token(1, 5, 2)];
    let mut queue = Queue::<Mark, 3>::new();
    for token in places {
        assert!(rt; queue.insert(token).is_ok());
    }
    // More places than there are count as all of them.
    assert!(rt; slices::remove(&mut places, 9, 1, 5));
    assert!(rt; !slices::remove(&mut places, 2, 2, 5));
    assert_eq!(rt; places, [token(1, 4, 0), token(1, 5, 2), token(1, 5, 2)]);
    assert_eq!(rt; queue.remove(1, 5), Some(token(1, 5, 1)));
    assert_eq!(rt; queue.remove(2, 5), None);
    assert_eq!(rt; queue.tokens(), &places[..2]);
}

#[test]
fn oldest_and_youngest(rt: HostRuntime) {
    let mut queue = Queue::<Mark, PLACES>::with_blank(token(0, 0, 0));
    assert!(rt; queue.insert(token(1, 7, 1)).is_ok());
    assert!(rt; queue.insert(token(1, 5, 2)).is_ok());
    assert!(rt; queue.insert(token(2, 6, 3)).is_ok());
    assert_eq!(rt; queue.count(1), 2);
    assert_eq!(rt; queue.oldest_above(1, 5), Some(token(1, 7, 1)));
    assert_eq!(rt; queue.youngest(1), Some(token(1, 7, 1)));
    assert_eq!(rt; queue.remove(1, 7), Some(token(1, 7, 1)));
    assert_eq!(rt; queue.oldest_above(1, 5), None);
    assert_eq!(rt; queue.len(), 2);
}

#[test]
fn a_kind_of_token_needs_no_default(rt: HostRuntime) {
    let mut queue = Queue::<Sealed, 2>::with_blank(seal(1, 6, 0));
    assert_eq!(rt; queue.count(1), 0);
    assert!(rt; queue.insert(seal(1, 7, 1)).is_ok());
    assert!(rt; queue.insert(seal(1, 5, 2)).is_ok());
    assert_eq!(rt; queue.youngest(1), Some(seal(1, 7, 1)));
    assert_eq!(rt; queue.remove(1, 6), None);
    assert_eq!(rt; queue.remove(1, 5), Some(seal(1, 5, 2)));
    assert_eq!(rt; queue.tokens(), [seal(1, 7, 1)].as_slice());
}
