ghost use Rattle.std.specs.Prelude.{◌≡◌, ◌≤◌, [], length, is_some, IfErr, is_ok, nat_lt, find};

use crate::{Token, slices};
use arrayvec::CapacityError;
use store::{Item, Stamp};

// The places of a queue.
pub const PLACES: usize = 128;

// Tokens in the first `used` of `PLACES` places, in ascending stamp order. Contracts see them by the word `tokens`, of which the
// service's state is made, as of what `seat_of` says of a tool.
#[derive(Drop)]
pub struct Queue<T, const PLACES: usize> {
    pub(crate) places: [T; PLACES],
    pub(crate) used: usize,
    ghost fits: { used ≤ PLACES },
}

impl<T: Token, const PLACES: usize> Queue<T, PLACES> {
    ghost use Rattle.arrayvec.specs.CapacityError.{error_element};
    ghost use Rattle.queue.specs.Tokens.{insert, is_at, has, remove, count, oldest, youngest};
    ghost use Rattle.queue.specs.Queues.{tokens};

    // An empty queue; `blank` fills its places.
    pub fn with_blank(blank: T) -> Self
        ensures { tokens result ≡ [] }
    {
        Queue {
            places: [blank; PLACES],
            used: 0,
        }
    }

    pub fn len(&self) -> usize
        ensures { result ≡ length (tokens self.now) }
    {
        self.tokens().len()
    }

    pub fn tokens(&self) -> &[T]
        ensures { result.now ≡ tokens self.now }
    {
        &self.places[..self.used]
    }

    // How many tokens the item has.
    pub fn count(&self, item: Item) -> usize
        ensures { result ≡ count T.tells item (tokens self.now) }
    {
        slices::count(self.tokens(), item)
    }

    // The oldest token of the item with a larger stamp.
    pub fn oldest_above(&self, item: Item, stamp: Stamp) -> Option<T>
        ensures { result ≡ oldest T.tells item stamp (tokens self.now) }
    {
        slices::oldest_above(self.tokens(), item, stamp)
    }

    pub fn youngest(&self, item: Item) -> Option<T>
        ensures { result ≡ youngest T.tells item (tokens self.now) }
    {
        slices::youngest(self.tokens(), item)
    }

    // Puts the token behind those of an equal or smaller stamp; a full queue hands it back and stays as it is.
    pub fn insert(&mut self, token: T) -> Result<(), CapacityError<T>>
        ensures fits { is_ok result ≡ nat_lt (length (tokens self.old)) PLACES }
        ensures after { tokens self.new ≡ insert T.tells PLACES token (tokens self.old) }
        ensures returned { IfErr result (λ e. error_element e ≡ token) }
    {
        if !slices::insert(&mut self.places, self.used, token) {
            return Err(CapacityError::new(token));
        }
        self.used += 1;
        Ok(())
    }
    // Takes out the first token with that item and stamp.
    #[tactic(auto, using(crate::proofs::Places::within))]
    pub fn remove(&mut self, item: Item, stamp: Stamp) -> Option<T>
        ensures found { is_some result ≡ has T.tells item stamp (tokens self.old) }
        ensures token { result ≡ find (is_at T.tells item stamp) (tokens self.old) }
        ensures after { tokens self.new ≡ remove T.tells item stamp (tokens self.old) }
    {
        let token = slices::take_out(&mut self.places, self.used, item, stamp)?;
        self.used -= 1;
        Some(token)
    }
}

// A queue whose unused places hold the default.
impl<T: Token + Default, const PLACES: usize> Queue<T, PLACES> {
    ghost use Rattle.queue.specs.Queues.{tokens};

    pub fn new() -> Self
        ensures { tokens result ≡ [] }
    {
        Queue::with_blank(T::default())
    }
}
