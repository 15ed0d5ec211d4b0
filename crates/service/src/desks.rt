// What a service keeps beside its store: the tools and the two queues.
use crate::calls::Answer;
use crate::tokens::{ReadToken, WriteToken};
use crate::tools::{TOOLS, Tool};
use queue::{PLACES, Queue};
use store::{Item, Version};

#[derive(Drop)]
pub struct Desk {
    pub(crate) tools: [Tool; TOOLS],
    pub(crate) reads: Queue<ReadToken, PLACES>,
    pub(crate) writes: Queue<WriteToken, PLACES>,
}

// A version to put in the store.
#[derive(Clone, Copy)]
pub struct Change {
    pub item: Item,
    pub version: Version,
}

// What an accepted call answers and changes in the store.
#[derive(Clone, Copy)]
pub struct Effect {
    pub answer: Answer,
    pub change: Option<Change>,
}
