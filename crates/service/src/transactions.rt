// What a call does to its tool's own record.
ghost use Rattle.std.specs.Prelude.{◌≡◌, ℕ, ◌+◌, ◌*◌, ◌<◌, [], ◌∷◌, ◌++◌, length, is_ok, OnOk, IfErr, IfSome, Some, nat_lt};
ghost use Rattle.std.specs.List.{slice_get};
ghost use Rattle.std.specs.Option.{option_map};
ghost use Rattle.service.specs.declared.tools.Phase.TheVariants.{Failed};
ghost use Rattle.service.specs.declared.calls.Call.TheVariants.{Begin, Read, Write, Close, Certify, Commit, Abort, Settle};
ghost use Rattle.service.specs.declared.refusals.Refusal.TheVariants.{TooManyEntries};
ghost use Rattle.service.specs.Entries.{is_held, find, index_from, any_held, all_held};
ghost use Rattle.service.specs.Service.{State, next_seat, Replies, fresh, entered, phased, unless_held};
ghost use Rattle.service.specs.Desks.{seat_of};

use crate::calls::Answer;
use crate::refusals::Refusal;
use crate::tool_numbers::ToolNumber;
use crate::tools::{Entry, LAST_COUNTER, Phase, Stand, TOOLS, Tool};
use arrayvec::ArrayVec;
use store::{Item, Value, Version};

impl Stand {
    pub(crate) fn is_held(self) -> bool
        ensures { result ≡ is_held self }
    {
        matches!(self, Stand::Held)
    }
}

impl Tool {
    // An idle tool that gave out counters up to `last`.
    pub(crate) fn idle(last: u64) -> Tool
        ensures { seat_of result ≡ fresh last }
    {
        Tool {
            phase: Phase::Idle,
            last,
            stamp: 0,
            entries: ArrayVec::new(),
        }
    }

    // The place of the item's entry.
    fn place_of(&self, item: Item) -> Option<usize>
        ensures value { result ≡ index_from 0 item (seat_of self.now).entries }
        ensures within { IfSome result (λ k. k < length (seat_of self.now).entries) }
    {
        self.entries.iter().position(|entry| item == entry.item)
    }

    // The item's entry and its place.
    pub(crate) fn find(&self, item: Item) -> Option<(usize, Entry)>
        ensures place { option_map (λ f. f.0) result ≡ index_from 0 item (seat_of self.now).entries }
        ensures within { IfSome result (λ f. f.0 < length (seat_of self.now).entries) }
        ensures entry { option_map (λ f. f.1) result ≡ find item (seat_of self.now).entries }
        ensures own { IfSome result (λ f. f.1.item ≡ item) }
    {
        let k = self.place_of(item)?;
        Some((k, self.entries[k]))
    }

    pub(crate) fn all_held(&self) -> bool
        ensures { result ≡ all_held (seat_of self.now).entries }
    {
        self.entries.iter().all(|entry| entry.stand.is_held())
    }

    pub(crate) fn any_held(&self) -> bool
        ensures { result ≡ any_held (seat_of self.now).entries }
    {
        self.entries.iter().any(|entry| entry.stand.is_held())
    }

    pub(crate) fn begin(&mut self)
        ensures { (s : State) (t : ℕ) → seat_of self.new ≡ next_seat s (seat_of self.old) (Begin t) }
    {
        self.phase = Phase::Open;
        self.entries.clear();
    }

    // One entry more, behind the others, where there is room.
    fn push(&mut self, entry: Entry) -> Result<(), Refusal>
        ensures room { is_ok result ≡ nat_lt (length (seat_of self.old).entries) 8 }
        ensures pushed { OnOk result (seat_of self.new ≡ entered (seat_of self.old) ((seat_of self.old).entries ++ entry ∷ [])) }
        ensures full { IfErr result (λ r. (r ≡ TooManyEntries) × (self.new ≡ self.old)) }
    {
        self.entries
            .try_push(entry)
            .map_err(|_| Refusal::TooManyEntries)
    }

    pub(crate) fn read(&mut self, item: Item, version: Version) -> Result<Answer, Refusal>
        ensures { (s : State) (t : ℕ) → slice_get s.versions item ≡ Some version → Replies s (seat_of self.old) (Read t item) result (seat_of self.new) }
    {
        if let Some((_, entry)) = self.find(item) {
            return Ok(Answer::Value(entry.value));
        }
        let Version { value, twrite, .. } = version;
        self.push(Entry {
            item,
            value,
            seen: Some(twrite),
            written: false,
            stand: Stand::Bare,
        })?;
        Ok(Answer::Value(value))
    }

    pub(crate) fn write(&mut self, item: Item, value: Value) -> Result<Answer, Refusal>
        ensures { (s : State) (t : ℕ) → item < length s.versions → Replies s (seat_of self.old) (Write t item value) result (seat_of self.new) }
    {
        if let Some((k, entry)) = self.find(item) {
            self.entries[k] = Entry {
                value,
                written: true,
                ..entry
            };
            return Ok(Answer::Done);
        }
        self.push(Entry {
            item,
            value,
            seen: None,
            written: true,
            stand: Stand::Bare,
        })?;
        Ok(Answer::Done)
    }

    // The stamp is the next counter above the tool's last and above the tick, with the tool in its low digit.
    pub(crate) fn close(&mut self, tool: ToolNumber, tick: u64) -> Result<Answer, Refusal>
        ensures { (s : State) → Replies s (seat_of self.old) (Close tool.number tick) result (seat_of self.new) }
    {
        if tick >= LAST_COUNTER {
            return Err(Refusal::TickTooLarge);
        }
        let before = self.last.max(tick);
        if before >= LAST_COUNTER {
            return Err(Refusal::CounterSpent);
        }
        let counter = before + 1;
        let stamp = counter * TOOLS as u64 + u64::from(tool.number);
        self.phase = Phase::Closed;
        self.last = counter;
        self.stamp = stamp;
        Ok(Answer::Stamp(stamp))
    }

    pub(crate) fn commit(&mut self) -> Result<Answer, Refusal>
        ensures { (s : State) (t : ℕ) → Replies s (seat_of self.old) (Commit t) result (seat_of self.new) }
    {
        if !self.all_held() {
            return Err(Refusal::NotCertified);
        }
        self.phase = if self.entries.is_empty() {
            Phase::Idle
        } else {
            Phase::Committed
        };
        Ok(Answer::Done)
    }

    // Idle once no token stands.
    fn rest(&mut self)
        ensures { seat_of self.new ≡ unless_held (seat_of self.old) }
    {
        if !self.any_held() {
            self.phase = Phase::Idle;
            self.entries.clear();
        }
    }

    pub(crate) fn abort(&mut self)
        ensures { (s : State) (t : ℕ) → seat_of self.new ≡ next_seat s (seat_of self.old) (Abort t) }
    {
        self.phase = Phase::Aborting;
        self.rest();
    }

    pub(crate) fn fail(&mut self)
        ensures { seat_of self.new ≡ phased (seat_of self.old) Failed }
    {
        self.phase = Phase::Failed;
    }

    // The entry at place k now has a token. The place is handed on, since finding it again would walk the entries twice.
    pub(crate) fn hold(&mut self, k: usize)
        requires { k < length (seat_of self.old).entries }
        ensures { (i : ℕ) (s : State) (t : ℕ) → index_from 0 i (seat_of self.old).entries ≡ Some k → seat_of self.new ≡ next_seat s (seat_of self.old) (Certify t i) }
    {
        self.entries[k].stand = Stand::Held;
    }

    // The entry at place k has no token any more.
    pub(crate) fn settle(&mut self, k: usize)
        requires { k < length (seat_of self.old).entries }
        ensures { (i : ℕ) (s : State) (t : ℕ) → index_from 0 i (seat_of self.old).entries ≡ Some k → seat_of self.new ≡ next_seat s (seat_of self.old) (Settle t i) }
    {
        self.entries[k].stand = Stand::Settled;
        self.rest();
    }
}
