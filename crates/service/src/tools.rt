// One tool and its transaction.
use arrayvec::ArrayVec;
use store::{Item, Stamp, Value};

// The tools that a service serves.
pub const TOOLS: usize = 16;
// The items that one transaction may use.
pub const ENTRIES: usize = 8;
// The largest counter that a stamp may have, and the first tick that is too large.
pub const LAST_COUNTER: u64 = 1 << 40;

// Where a tool stands; each phase allows only some calls.
#[derive(Clone, Copy, PartialEq, Eq, Debug)]
pub enum Phase {
    Idle,
    Open,
    Closed,
    Failed,
    Committed,
    Aborting,
}

// Whether an entry has a token in the queues.
#[derive(Clone, Copy, PartialEq, Eq, Debug, Default)]
pub enum Stand {
    #[default]
    Bare,
    Held,
    Settled,
}

// What a transaction did with one item: the value it would leave, the `twrite` of the version
// that it read from the store, and whether it wrote. A read has a value too, so `written` is a flag beside it.
#[derive(Clone, Copy, Default)]
pub struct Entry {
    pub item: Item,
    pub value: Value,
    pub seen: Option<Stamp>,
    pub written: bool,
    pub stand: Stand,
}

// A tool: its last counter, the stamp that it closed a transaction under last, and the entries in use. The stamp counts in
// four phases of six, and stands once beside them.
#[derive(Drop)]
pub struct Tool {
    pub phase: Phase,
    pub last: u64,
    pub stamp: Stamp,
    pub entries: ArrayVec<Entry, ENTRIES>,
}
