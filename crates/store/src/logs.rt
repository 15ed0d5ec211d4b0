// The log: a record for each put, one after the other in a lent buffer, the last of an item being its version.
ghost use Rattle.std.specs.Prelude.{◌≡◌, ◌+◌, ◌*◌, ◌<◌, ◌≤◌, true, length, is_ok, slice_set};
ghost use Rattle.store.specs.Few.{few_made};
ghost use Rattle.store.specs.Log.{record_size, log, version_of_item, used as used_in, after_put, roomy, checked, opened};

use crate::faults::Fault;
use crate::records::{RECORD, Records};
use crate::{Item, Store, Version, faults, records};

#[derive(Drop)]
pub struct Log<'a> {
    records: Records<'a>,
    count: u16,
    ghost few: { count ≤ 256 },
    ghost good: { (0 < count → (is_ok (checked records.area.bytes.now count) ≡ true) × (records.used ≡ used_in records.area.bytes.now)) },
}

impl<'a> Log<'a> {
    // Whether a buffer can be a log of so many items.
    pub fn check(bytes: &[u8], count: usize) -> Result<(), Fault>
        ensures { result ≡ checked bytes.now count }
    {
        faults::check_count(count)?;
        faults::check_length(bytes, RECORD * (count + 1))?;
        let records = records::records_in(bytes);
        if !records::are_sound(records, count) {
            return Err(Fault::Record);
        }
        if !records::are_zero(&bytes[RECORD * records.len()..]) {
            return Err(Fault::Trailing);
        }
        Ok(())
    }

    // Opened in spite of a refusal, a log has no items, and so it never writes.
    pub fn open(bytes: &'a mut [u8], count: usize) -> Log<'a>
        ensures lent { result.records.area.bytes.now ≡ bytes.old }
        ensures items { result.count ≡ opened bytes.old count }
    {
        match Log::check(bytes, count) {
            Ok(()) => Log {
                records: Records::open(bytes),
                count: count as u16,
            },
            Err(_) => Log {
                records: Records::none(bytes),
                count: 0,
            },
        }
    }

    // The whole buffer. A table has the like of this, of `open` and of `check`, each stated by its own format.
    pub fn bytes(&self) -> &[u8]
        ensures { result.now ≡ self.now.records.area.bytes.now }
    {
        self.records.area.bytes
    }

    // Compacts, if the log is full.
    fn make_room(&mut self)
        requires { 0 < self.old.count }
        ensures bytes { self.new.records.area.bytes.now ≡ roomy self.old.records.area.bytes.now }
        ensures items { self.new.count ≡ self.old.count }
        ensures versions { log self.new.records.area.bytes.now self.new.count ≡ log self.old.records.area.bytes.now self.old.count }
        ensures room { record_size * (self.new.records.used + 1) ≤ length self.new.records.area.bytes.now }
    {
        if self.records.is_full() {
            self.records.compact();
        }
    }
}

impl Store for Log<'_> {
    ghost versions = { λ l. log l.records.area.bytes.now l.count };

    ghost few = { λ l. few_made (version_of_item l.records.area.bytes.now) l.count l.few };

    #[tactic(auto, using(crate::proofs::Made::length_made))]
    fn count(&self) -> u16 {
        self.count
    }

    #[tactic(auto, using(crate::proofs::Made::nth_made, crate::proofs::Made::nth_made_past))]
    fn get(&self, item: Item) -> Option<Version> {
        if item >= self.count {
            return None;
        }
        self.records.version(item)
    }

    // Beside the versions: what every byte of the buffer is, and that the count stays, which no type can say of a change.
    #[tactic(auto, using(crate::proofs::Made::set_made_past))]
    fn put(&mut self, item: Item, version: Version)
        ensures versions { log self.new.records.area.bytes.now self.new.count ≡ slice_set (log self.old.records.area.bytes.now self.old.count) item version }
        ensures bytes { self.new.records.area.bytes.now ≡ after_put self.old.records.area.bytes.now self.old.count item version }
        ensures items { self.new.count ≡ self.old.count }
    {
        if item < self.count {
            self.make_room();
            self.records.push(item, version);
        }
    }
}
