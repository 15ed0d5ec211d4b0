// A transaction as its holder sees it. None of these values may be let fall: each is used up by what ends it.
use service::Refusal;
use store::Stamp;

// An open transaction of a tool.
pub struct Open {
    pub(crate) tool: u8,
}

// A closed one, with the stamp that it was closed under.
pub struct Closed {
    pub(crate) tool: u8,
    pub(crate) stamp: Stamp,
}

// The right to commit a transaction, all of whose entries were certified. It must be spent. It holds what a closed one
// holds, and is a type of its own, so that neither can stand for the other.
pub struct Grant {
    pub(crate) tool: u8,
    pub(crate) stamp: Stamp,
}

// Why there is no grant.
pub enum Uncertified {
    // An entry was rejected: the transaction is aborted and settled, and over.
    Rejected(Refusal),
    // Any other refusal hands the transaction back.
    Refused(Refusal, Closed),
}
