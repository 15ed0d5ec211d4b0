// The table: one record of fixed length for each item, one after the other in a lent buffer.
ghost use Rattle.std.specs.Prelude.{◌≡◌, ◌*◌, ◌<◌, ◌≤◌, length, slice_set};
ghost use Rattle.store.specs.Packed.{version_size};
ghost use Rattle.store.specs.Few.{few_made};
ghost use Rattle.store.specs.Table.{table, version_at, after_put, checked, opened};

use crate::areas::Area;
use crate::faults::Fault;
use crate::{Item, Store, Version, faults, packed};

// A record is a packed version.
const RECORD: usize = packed::SIZE;

#[derive(Drop)]
pub struct Table<'a> {
    area: Area<'a>,
    count: u16,
    ghost few: { count ≤ 256 },
    ghost fits: { version_size * count ≤ length area.bytes.now },
}

impl<'a> Table<'a> {
    // Whether a buffer can be a table of so many items.
    pub fn check(bytes: &[u8], count: usize) -> Result<(), Fault>
        ensures { result ≡ checked bytes.now count }
    {
        faults::check_count(count)?;
        faults::check_length(bytes, RECORD * count)
    }

    // Opened in spite of a refusal, a table has no items, and so it never writes.
    pub fn open(bytes: &'a mut [u8], count: usize) -> Table<'a>
        ensures lent { result.area.bytes.now ≡ bytes.old }
        ensures items { result.count ≡ opened bytes.old count }
    {
        let count = match Table::check(bytes, count) {
            Ok(()) => count as u16,
            Err(_) => 0,
        };
        Table {
            area: Area { bytes },
            count,
        }
    }

    // The whole buffer. A log has the like of this, of `open` and of `check`, each stated by its own format.
    pub fn bytes(&self) -> &[u8]
        ensures { result.now ≡ self.now.area.bytes.now }
    {
        self.area.bytes
    }
}

impl Store for Table<'_> {
    ghost versions = { λ t. table t.area.bytes.now t.count };

    ghost few = { λ t. few_made (version_at t.area.bytes.now) t.count t.few };

    #[tactic(auto, using(crate::proofs::Made::length_made))]
    fn count(&self) -> u16 {
        self.count
    }

    #[tactic(auto, using(crate::proofs::TableLaws::table_get, crate::proofs::Made::nth_made_past))]
    fn get(&self, item: Item) -> Option<Version> {
        if item >= self.count {
            return None;
        }
        let at = RECORD * item as usize;
        packed::unpack(&self.area.bytes[at..at + RECORD])
    }

    // Beside the versions: what every byte of the buffer is, and that the count stays, which no type can say of a change.
    #[tactic(auto, using(crate::proofs::Made::set_made_past))]
    fn put(&mut self, item: Item, version: Version)
        ensures versions { table self.new.area.bytes.now self.new.count ≡ slice_set (table self.old.area.bytes.now self.old.count) item version }
        ensures bytes { self.new.area.bytes.now ≡ after_put self.old.area.bytes.now self.old.count item version }
        ensures items { self.new.count ≡ self.old.count }
    {
        if item < self.count {
            self.area
                .write(RECORD * item as usize, &packed::pack(version));
        }
    }
}
