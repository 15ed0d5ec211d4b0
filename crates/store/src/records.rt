// The log's records: one tagged field each, with the item and the packed version.
ghost use Rattle.std.specs.Prelude.{◌≡◌, ℕ, ◌+◌, ◌*◌, ◌/◌, ◌<◌, ◌≤◌, ◌&&◌, true, not, map, length, Some, None, ◌==◌, nat_eq, nat_lt, slice_index, slice_index_or, slice_set, MatchBool, ◌≢◌};
ghost use Rattle.std.specs.List.{range_with_len, list_all, prefix_len};
ghost use Rattle.store.specs.Bytes.{over};
ghost use Rattle.store.specs.Log.{record_size, record_of, item_of, version_of, version_from, sound, record_at, records, used as used_in, last_place, kept, image};

use crate::areas::Area;
use crate::{Item, MOST_ITEMS, Version, packed};

const TAG: u8 = 0x52;

const ITEM: usize = size_of::<Item>();

const CONTENT: usize = ITEM + packed::SIZE;
// the low byte of the length; the high one is 0
const LENGTH: u8 = CONTENT as u8;
// where the item and the version begin
const HEAD: usize = 3;

const VERSION: usize = HEAD + ITEM;

pub(crate) const RECORD: usize = HEAD + CONTENT;

// The bytes of a record.
fn encode(item: Item, version: Version) -> [u8; RECORD]
    ensures { result ≡ record_of item version }
{
    let mut bytes = [0; RECORD];
    bytes[0..HEAD].copy_from_slice(&[TAG, 0x00, LENGTH]);
    bytes[HEAD..VERSION].copy_from_slice(&item.to_be_bytes());
    bytes[VERSION..RECORD].copy_from_slice(&packed::pack(version));
    bytes
}

// The item of a record.
fn item_of(bytes: &[u8; RECORD]) -> Item
    ensures { result ≡ item_of bytes.now }
{
    let [_, _, _, high, low, ..] = bytes;
    Item::from_be_bytes([*high, *low])
}

fn version_of(bytes: &[u8; RECORD]) -> Option<Version>
    ensures { result ≡ Some (version_of bytes.now) }
{
    packed::unpack(&bytes[VERSION..])
}

// Whether a record has its tag and its length, and one of `count` items.
fn is_sound(bytes: &[u8; RECORD], count: usize) -> bool
    ensures { result ≡ sound count bytes.now }
{
    matches!(bytes, [TAG, 0x00, LENGTH, ..]) && (item_of(bytes) as usize) < count
}

pub(crate) fn are_sound(records: &[[u8; RECORD]], count: usize) -> bool
    ensures { result ≡ list_all (sound count) records.now }
{
    records.iter().all(|record| is_sound(record, count))
}

pub(crate) fn are_zero(bytes: &[u8]) -> bool
    ensures { result ≡ list_all (λ b. nat_eq b 0) bytes.now }
{
    bytes.iter().all(|b| *b == 0)
}

// Every place that a record fits in.
fn places(bytes: &[u8]) -> &[[u8; RECORD]]
    ensures places { result.now ≡ map (record_at bytes.now) (range_with_len 0 (length bytes.now / record_size)) }
    ensures count { length result.now ≡ length bytes.now / record_size }
{
    bytes.as_chunks().0
}

// How many places come before the first whose tag is 0.
fn tagged(places: &[[u8; RECORD]]) -> usize
    ensures tags { result ≡ prefix_len (λ place. not (slice_index place 0 == 0)) places.now }
    ensures within { result ≤ length places.now }
{
    places.iter().take_while(|place| place[0] != 0).count()
}

// The records before the log's end.
pub(crate) fn records_in(bytes: &[u8]) -> &[[u8; RECORD]]
    ensures records { result.now ≡ records bytes.now }
    ensures count { length result.now ≡ used_in bytes.now }
    ensures fits { record_size * length result.now ≤ length bytes.now }
{
    let places = places(bytes);
    &places[..tagged(places)]
}

// A record at a place behind all others: it is the last of its item. That an item is below 256 its callers know from the
// log's count or from the record; a type for it would be made at two calls, and no clause would be shorter.
fn note(latest: &mut [Option<u16>; MOST_ITEMS], item: Item, place: usize)
    requires there { item < 256 }
    requires fits { place < 65536 }
    ensures { latest.new ≡ slice_set latest.old item (Some place) }
{
    latest[item as usize] = Some(place as u16);
}

// Whether an entry of the index names a place.
fn names(entry: Option<u16>, place: usize) -> bool
    ensures { MatchBool result (entry ≡ Some place) (entry ≢ Some place) }
{
    entry.is_some_and(|last| last as usize == place)
}

impl Area<'_> {
    fn record_at(&self, place: usize) -> &[u8; RECORD]
        requires { record_size * (place + 1) ≤ length self.now.bytes.now }
        ensures { result.now ≡ record_at self.now.bytes.now place }
    {
        &places(self.bytes)[place]
    }

    // The place of each item's last record, of the first `used`. Who keeps it keeps what it asks too, so that is told again.
    fn index(&self, used: usize) -> [Option<u16>; MOST_ITEMS]
        requires fits { record_size * used ≤ length self.now.bytes.now }
        requires short { used ≤ 65536 }
        requires sound { list_all (sound 256) (map (record_at self.now.bytes.now) (range_with_len 0 used)) ≡ true }
        ensures places { (item : ℕ) → item < 256 → slice_index_or result item None ≡ last_place self.now.bytes.now used item }
        ensures wide { length result ≡ 256 }
        ensures sound { list_all (sound 256) (map (record_at self.now.bytes.now) (range_with_len 0 used)) ≡ true }
    {
        let mut latest = [None; MOST_ITEMS];
        for (place, record) in places(self.bytes)[..used].iter().enumerate() {
            note(&mut latest, item_of(record), place);
        }
        latest
    }
}

// The records in a buffer, and the place of each item's last one.
#[derive(Drop)]
pub(crate) struct Records<'a> {
    pub(crate) area: Area<'a>,
    used: usize,
    // an entry for each item that there may be, since a store has no heap
    latest: [Option<u16>; MOST_ITEMS],
    ghost fits: { record_size * used ≤ length area.bytes.now },
    ghost short: { used ≤ 65536 },
    ghost sound: { list_all (sound 256) (map (record_at area.bytes.now) (range_with_len 0 used)) ≡ true },
    ghost wide: { length latest ≡ 256 },
    ghost index: { ((item : ℕ) → item < 256 → slice_index_or latest item None ≡ last_place area.bytes.now used item) },
}

impl<'a> Records<'a> {
    // Those before the log's end.
    pub(crate) fn open(bytes: &'a mut [u8]) -> Records<'a>
        requires short { length bytes.old ≤ 65536 }
        requires sound { list_all (sound 256) (records bytes.old) ≡ true }
        ensures lent { result.area.bytes.now ≡ bytes.old }
        ensures used { result.used ≡ used_in bytes.old }
    {
        let used = records_in(bytes).len();
        let area = Area { bytes };
        let latest = area.index(used);
        Records { area, used, latest }
    }

    // None, whatever the buffer holds.
    pub(crate) fn none(bytes: &'a mut [u8]) -> Records<'a>
        ensures { result.area.bytes.now ≡ bytes.old }
    {
        Records {
            area: Area { bytes },
            used: 0,
            latest: [None; MOST_ITEMS],
        }
    }

    // An item's version: that of its last record.
    pub(crate) fn version(&self, item: Item) -> Option<Version>
        requires { item < 256 }
        ensures { result ≡ Some (version_from self.now.area.bytes.now (last_place self.now.area.bytes.now self.now.used item)) }
    {
        match self.latest[item as usize] {
            Some(place) => version_of(self.area.record_at(place as usize)),
            None => Some(Version::default()),
        }
    }

    // Whether no record fits any more.
    pub(crate) fn is_full(&self) -> bool
        ensures { result ≡ nat_lt (length self.now.area.bytes.now) (record_size * (self.now.used + 1)) }
    {
        RECORD * (self.used + 1) > self.area.bytes.len()
    }

    // Writes a record behind the others.
    pub(crate) fn push(&mut self, item: Item, version: Version)
        requires there { item < 256 }
        requires room { record_size * (self.old.used + 1) ≤ length self.old.area.bytes.now }
        requires short { length self.old.area.bytes.now ≤ 65536 }
        ensures bytes { self.new.area.bytes.now ≡ over (record_size * self.old.used) (record_of item version) self.old.area.bytes.now }
        ensures used { self.new.used ≡ self.old.used + 1 }
    {
        self.area.write(RECORD * self.used, &encode(item, version));
        let used = self.used;
        note(&mut self.latest, item, used);
        self.used = used + 1;
    }

    // Keeps the last record of each item, in their order, and zeroes what comes after them.
    #[tactic(auto, using(crate::proofs::RecordLaws::sifted_sounds, crate::proofs::RecordLaws::sifted_front, crate::proofs::RecordLaws::sifted_used))]
    pub(crate) fn compact(&mut self)
        ensures bytes { self.new.area.bytes.now ≡ image (kept (map (record_at self.old.area.bytes.now) (range_with_len 0 self.old.used))) (length self.old.area.bytes.now) }
        ensures used { self.new.used ≡ length (kept (map (record_at self.old.area.bytes.now) (range_with_len 0 self.old.used))) }
    {
        let (used, latest) = (self.used, self.latest);
        let area = &mut self.area;
        let mut end = 0;
        // Counted: records move within the buffer, so none is lent while the places are walked.
        for place in 0..used {
            if names(latest[item_of(area.record_at(place)) as usize], place) {
                area.shift(RECORD * place, RECORD * end, RECORD);
                end += 1;
            }
        }
        area.clear(RECORD * end);
        self.latest = self.area.index(end);
        self.used = end;
    }
}
