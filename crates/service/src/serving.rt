// What the desk does with each call. It sees of the store the one version that the call names.
ghost use Rattle.std.specs.Prelude.{◌≡◌, ◌/◌, ◌<◌, true, List, map, length, replicate, None};
ghost use Rattle.store.specs.declared.Version.{Version as Stored};
ghost use Rattle.service.specs.declared.calls.Call.TheVariants.{Begin, Read, Write, Close, Certify, Commit, Abort, Settle};
ghost use Rattle.std.specs.Option.{option_map};
ghost use Rattle.std.specs.List.{slice_get};
ghost use Rattle.queue.specs.Tokens.{ascending};
ghost use Rattle.queue.specs.Queues.{tokens};
ghost use Rattle.service.specs.Refusals.{refusal};
ghost use Rattle.service.specs.Certification.{certification, judged};
ghost use Rattle.service.specs.Service.{fresh, start, largest, read_tells, write_tells, claim, meets, with_read, with_write, without_read, without_write};
ghost use Rattle.service.specs.Desks.{seat_of, state, told, change_of, Acts, Serves, Quiet, Lawful};

use crate::calls::{Answer, Call};
use crate::certification;
use crate::certification::{Claim, Standing};
use crate::desks::{Desk, Effect};
use crate::refusals::Refusal;
use crate::settlements::settlement;
use crate::tokens::Certified;
use crate::tool_numbers::ToolNumber;
use crate::tools::{Entry, Phase, TOOLS, Tool};
use queue::{Queue, Token};
use std::array;
use store::{Item, Stamp, Value, Version};

// An answer that leaves the store as it is.
fn plain(reply: Result<Answer, Refusal>) -> Result<Effect, Refusal>
    ensures told { told result ≡ reply }
    ensures same { change_of result ≡ None }
{
    reply.map(|answer| Effect {
        answer,
        change: None,
    })
}

fn stamp_of<T: Token + Drop>(token: Option<T>) -> Option<Stamp>
    ensures { result ≡ option_map T.tells.stamp token }
{
    token.map(|token| token.stamp())
}

// Each tool idle, its counters given out up to `last`.
fn idle_tools(last: u64) -> [Tool; TOOLS]
    ensures { map seat_of result ≡ replicate 16 (fresh last) }
{
    array::from_fn(|_| Tool::idle(last))
}

impl Desk {
    // All tools idle, their counters given out up to `last`, and no tokens.
    pub(crate) fn new(last: u64) -> Desk
        ensures { (vs : List Stored) → largest vs / 16 ≡ last → state vs result ≡ start vs }
    {
        Desk {
            tools: idle_tools(last),
            reads: Queue::new(),
            writes: Queue::new(),
        }
    }

    // What a call does, and that it changes no version without need: two clauses, since the check finds the second by itself.
    fn begin(&mut self, tool: ToolNumber) -> Result<Effect, Refusal>
        ensures acts { Acts self.old (Begin tool.number) None result self.new }
        ensures quiet { Quiet (Begin tool.number) None result }
    {
        self.tools[tool.index()].begin();
        plain(Ok(Answer::Done))
    }

    fn read(
        &mut self,
        tool: ToolNumber,
        item: Item,
        found: Option<Version>,
    ) -> Result<Effect, Refusal>
        ensures acts { Acts self.old (Read tool.number item) found result self.new }
        ensures quiet { Quiet (Read tool.number item) found result }
    {
        let version = found.ok_or(Refusal::UnknownItem)?;
        plain(self.tools[tool.index()].read(item, version))
    }

    fn write(
        &mut self,
        tool: ToolNumber,
        item: Item,
        value: Value,
        found: Option<Version>,
    ) -> Result<Effect, Refusal>
        ensures acts { Acts self.old (Write tool.number item value) found result self.new }
        ensures quiet { Quiet (Write tool.number item value) found result }
    {
        if found.is_none() {
            return Err(Refusal::UnknownItem);
        }
        plain(self.tools[tool.index()].write(item, value))
    }

    fn close(&mut self, tool: ToolNumber, tick: u64) -> Result<Effect, Refusal>
        ensures acts { Acts self.old (Close tool.number tick) None result self.new }
        ensures quiet { Quiet (Close tool.number tick) None result }
    {
        plain(self.tools[tool.index()].close(tool, tick))
    }

    fn commit(&mut self, tool: ToolNumber) -> Result<Effect, Refusal>
        ensures acts { Acts self.old (Commit tool.number) None result self.new }
        ensures quiet { Quiet (Commit tool.number) None result }
    {
        plain(self.tools[tool.index()].commit())
    }

    fn abort(&mut self, tool: ToolNumber) -> Result<Effect, Refusal>
        ensures acts { Acts self.old (Abort tool.number) None result self.new }
        ensures quiet { Quiet (Abort tool.number) None result }
    {
        self.tools[tool.index()].abort();
        plain(Ok(Answer::Done))
    }

    // The first rule of certification that the entry fails rejects it, its item being as it stands.
    fn check(&self, stamp: Stamp, entry: Entry, found: Option<Version>) -> Result<(), Refusal>
        requires reads { ascending read_tells (tokens self.now.reads) ≡ true }
        requires writes { ascending write_tells (tokens self.now.writes) ≡ true }
        ensures { (vs : List Stored) → slice_get vs entry.item ≡ found → result ≡ judged (refusal (certification (claim entry stamp) (meets (state vs self.now) entry.item stamp))) }
    {
        let Version { twrite, tread, .. } = found.unwrap_or_default();
        let Entry { seen, written, .. } = entry;
        let writer = stamp_of(self.writes.oldest_above(entry.item, twrite));
        let reader = stamp_of(self.reads.youngest(entry.item));
        certification::check(
            Claim {
                seen,
                written,
                stamp,
            },
            Standing {
                twrite,
                tread,
                writer,
                reader,
            },
        )
    }

    // The tokens of a certified entry; there is a place for each, since no other entry of the tools has it.
    fn enqueue(&mut self, tool: ToolNumber, stamp: Stamp, entry: Entry)
        requires reads { length (tokens self.old.reads) < 128 }
        requires writes { length (tokens self.old.writes) < 128 }
        ensures tools { self.new.tools ≡ self.old.tools }
        ensures reads { tokens self.new.reads ≡ with_read tool.number entry.item stamp entry (tokens self.old.reads) }
        ensures writes { tokens self.new.writes ≡ with_write tool.number entry.item stamp entry (tokens self.old.writes) }
    {
        let tool = tool.number;
        let item = entry.item;
        if entry.seen.is_some() {
            let _ = self.reads.insert(Certified {
                tool,
                item,
                stamp,
                value: (),
            });
        }
        if entry.written {
            let _ = self.writes.insert(Certified {
                tool,
                item,
                stamp,
                value: entry.value,
            });
        }
    }

    // The tokens of an entry go.
    fn dequeue(&mut self, stamp: Stamp, entry: Entry)
        ensures tools { self.new.tools ≡ self.old.tools }
        ensures reads { tokens self.new.reads ≡ without_read entry.item stamp entry (tokens self.old.reads) }
        ensures writes { tokens self.new.writes ≡ without_write entry.item stamp entry (tokens self.old.writes) }
    {
        if entry.seen.is_some() {
            self.reads.remove(entry.item, stamp);
        }
        if entry.written {
            self.writes.remove(entry.item, stamp);
        }
    }

    // All rules are tested before either token goes into its queue.
    fn certify(
        &mut self,
        tool: ToolNumber,
        item: Item,
        found: Option<Version>,
    ) -> Result<Effect, Refusal>
        requires { Lawful self.old }
        ensures acts { Acts self.old (Certify tool.number item) found result self.new }
        ensures quiet { Quiet (Certify tool.number item) found result }
    {
        let own = &self.tools[tool.index()];
        let (k, entry) = own.find(item).ok_or(Refusal::NoEntry)?;
        let stamp = own.stamp;
        if entry.stand.is_held() {
            return Err(Refusal::HasToken);
        }
        if let Err(refusal) = self.check(stamp, entry, found) {
            self.tools[tool.index()].fail();
            return Err(refusal);
        }
        self.enqueue(tool, stamp, entry);
        self.tools[tool.index()].hold(k);
        plain(Ok(Answer::Done))
    }

    // Takes the entry's tokens out; a committed entry changes its item's version.
    fn settle(
        &mut self,
        tool: ToolNumber,
        item: Item,
        found: Option<Version>,
    ) -> Result<Effect, Refusal>
        ensures acts { Acts self.old (Settle tool.number item) found result self.new }
        ensures quiet { Quiet (Settle tool.number item) found result }
    {
        let own = &self.tools[tool.index()];
        let (k, entry) = own.find(item).ok_or(Refusal::NoEntry)?;
        let stamp = own.stamp;
        let phase = own.phase;
        if !entry.stand.is_held() {
            return Err(Refusal::NoToken);
        }
        let change = settlement(phase, stamp, entry, found);
        self.dequeue(stamp, entry);
        self.tools[tool.index()].settle(k);
        Ok(Effect {
            answer: Answer::Done,
            change,
        })
    }

    // The tool's phase and the arriving call decide together.
    pub(crate) fn serve(&mut self, call: Call, found: Option<Version>) -> Result<Effect, Refusal>
        requires { Lawful self.old }
        ensures serves { Serves self.old call found result self.new }
        ensures quiet { Quiet call found result }
    {
        let tool = ToolNumber::try_from(call.tool())?;
        match (self.tools[tool.index()].phase, call) {
            (Phase::Idle, Call::Begin { .. }) => self.begin(tool),
            (Phase::Open, Call::Read { item, .. }) => self.read(tool, item, found),
            (Phase::Open, Call::Write { item, value, .. }) => self.write(tool, item, value, found),
            (Phase::Open, Call::Close { tick, .. }) => self.close(tool, tick),
            (Phase::Closed, Call::Certify { item, .. }) => self.certify(tool, item, found),
            (Phase::Closed, Call::Commit { .. }) => self.commit(tool),
            (Phase::Open | Phase::Closed | Phase::Failed, Call::Abort { .. }) => self.abort(tool),
            (Phase::Committed | Phase::Aborting, Call::Settle { item, .. }) => self.settle(
                tool, item, found,
            ),
            _ => Err(Refusal::WrongState),
        }
    }
}
