// The calls of a service.
ghost use Rattle.std.specs.Prelude.{◌≡◌, None, Result};
ghost use Rattle.queue.specs.Tokens.{count};
ghost use Rattle.queue.specs.Queues.{tokens};
ghost use Rattle.service.specs.Service.{start, read_tells, write_tells};
ghost use Rattle.service.specs.Desks.{item_of, Finds, changed};
ghost use Rattle.service.specs.Services.{largest_found, state_of, Makes, done, valued, stamped, AnswersDone, looked};
ghost use Rattle.service.specs.declared.calls.Call.TheVariants.{Begin, Read, Write, Close, Certify, Commit, Abort, Settle};

use crate::calls::{Answer, Call};
use crate::desks::{Change, Desk};
use crate::looks::Look;
use crate::refusals::Refusal;
use crate::services::Service;
use crate::tools::TOOLS;
use queue::Token;
use store::{Item, Stamp, Store, Value, Version};

// Puts a changed version, if there is one.
fn put_change<S: Store>(store: &mut S, change: Option<Change>)
    ensures puts { S.versions store.new ≡ changed change (S.versions store.old) }
    ensures kept { change ≡ None → store.new ≡ store.old }
{
    if let Some(change) = change {
        store.put(change.item, change.version);
    }
}

// The largest stamp of a read or a write in the store.
fn largest_stamp<S: Store>(store: &S) -> u64
    ensures { result ≡ largest_found (S.versions store.now) }
{
    (0..store.count())
        .filter_map(|item| store.get(item))
        .map(|version| version.twrite.max(version.tread))
        .fold(0, u64::max)
}

impl<S: Store> Service<S> {
    // All tools idle and no tokens; the next stamps lie above every stamp in the store.
    pub fn start(store: S) -> Service<S>
        ensures store { result.store ≡ store }
        ensures starts { state_of S.versions result ≡ start (S.versions store) }
    {
        let last = largest_stamp(&store) / TOOLS as u64;
        Service {
            store,
            desk: Desk::new(last),
        }
    }

    // The version of the item that the call names.
    fn find(&self, call: Call) -> Option<Version>
        ensures { Finds (S.versions self.now.store) (item_of call) result }
    {
        self.store.get(call.item()?)
    }

    // Any call.
    pub fn call(&mut self, call: Call) -> Result<Answer, Refusal>
        ensures { Makes S.versions self.old call result self.new }
    {
        let found = self.find(call);
        let effect = self.desk.serve(call, found)?;
        put_change(&mut self.store, effect.change);
        Ok(effect.answer)
    }

    // A call that answers nothing but that it is done.
    fn finish(&mut self, call: Call) -> Result<(), Refusal>
        ensures { AnswersDone call → Makes S.versions self.old call (done result) self.new }
    {
        self.call(call).map(|_| ())
    }

    // An idle tool opens a transaction without entries.
    pub fn begin(&mut self, tool: u8) -> Result<(), Refusal>
        ensures { Makes S.versions self.old (Begin tool) (done result) self.new }
    {
        self.finish(Call::Begin { tool })
    }

    // The item's current value in the open transaction; a first use reads it from the store.
    pub fn read(&mut self, tool: u8, item: Item) -> Result<Value, Refusal>
        ensures { Makes S.versions self.old (Read tool item) (valued result) self.new }
    {
        match self.call(Call::Read { tool, item })? {
            Answer::Value(value) => Ok(value),
            Answer::Done | Answer::Stamp(_) => unreachable(),
        }
    }

    // Sets the item's current value in the open transaction.
    pub fn write(&mut self, tool: u8, item: Item, value: Value) -> Result<(), Refusal>
        ensures { Makes S.versions self.old (Write tool item value) (done result) self.new }
    {
        self.finish(Call::Write { tool, item, value })
    }

    // Ends the reads and writes and gives the transaction its stamp.
    pub fn close(&mut self, tool: u8, tick: u64) -> Result<Stamp, Refusal>
        ensures { Makes S.versions self.old (Close tool tick) (stamped result) self.new }
    {
        match self.call(Call::Close { tool, tick })? {
            Answer::Stamp(stamp) => Ok(stamp),
            Answer::Done | Answer::Value(_) => unreachable(),
        }
    }

    // Certifies one entry of the closed transaction; a rejection leaves it only abort.
    pub fn certify(&mut self, tool: u8, item: Item) -> Result<(), Refusal>
        ensures { Makes S.versions self.old (Certify tool item) (done result) self.new }
    {
        self.finish(Call::Certify { tool, item })
    }

    // Commits the closed transaction, all of whose entries hold a token.
    pub fn commit(&mut self, tool: u8) -> Result<(), Refusal>
        ensures { Makes S.versions self.old (Commit tool) (done result) self.new }
    {
        self.finish(Call::Commit { tool })
    }

    // Gives an open, closed or failed transaction up; its tokens stand until they are settled.
    pub fn abort(&mut self, tool: u8) -> Result<(), Refusal>
        ensures { Makes S.versions self.old (Abort tool) (done result) self.new }
    {
        self.finish(Call::Abort { tool })
    }

    // Takes an entry's tokens out, and puts what a committed one leaves.
    pub fn settle(&mut self, tool: u8, item: Item) -> Result<(), Refusal>
        ensures { Makes S.versions self.old (Settle tool item) (done result) self.new }
    {
        self.finish(Call::Settle { tool, item })
    }

    fn token_counts(&self, item: Item) -> (usize, usize)
        ensures reads { result.0 ≡ count read_tells item (tokens self.now.desk.reads) }
        ensures writes { result.1 ≡ count write_tells item (tokens self.now.desk.writes) }
    {
        (self.desk.reads.count(item), self.desk.writes.count(item))
    }

    // The item's version and how many tokens it has.
    pub fn peek(&self, item: Item) -> Result<Look, Refusal>
        ensures { result ≡ looked (state_of S.versions self.now) item }
    {
        let version = self.store.get(item).ok_or(Refusal::UnknownItem)?;
        let (reads, writes) = self.token_counts(item);
        Ok(Look {
            version,
            reads,
            writes,
        })
    }

    // The store, to be looked at.
    pub fn store(&self) -> &S
        ensures { result.now ≡ self.now.store }
    {
        &self.store
    }

    // Ends the service and gives its store back.
    pub fn into_store(self) -> S
        ensures { result ≡ self.store }
    {
        let Service { store, desk } = self;
        drop(desk);
        store
    }
}
