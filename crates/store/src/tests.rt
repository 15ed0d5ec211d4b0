use super::*;
use std::process::Abort;
use std::test::Fail;

// count, length, and what opening a table of zeroes answers
const EDGES: [(usize, usize, Result<(), Fault>); 9] = [
    (0, 100, Err(Fault::Count)),
    (1, 20, Ok(())),
    (1, 19, Err(Fault::Length)),
    (256, 5120, Ok(())),
    (256, 5119, Err(Fault::Length)),
    (257, 6000, Err(Fault::Count)),
    (257, 65537, Err(Fault::Count)),
    (3, 65536, Ok(())),
    (3, 65537, Err(Fault::Length)),
];

fn table_edge(
    rt: &impl Abort,
    all: &mut [u8],
    count: usize,
    length: usize,
    answer: Result<(), Fault>,
) {
    assert!(rt; length <= all.len());
    let bytes = &mut all[0..length];
    assert_eq!(rt; Table::check(bytes, count), answer);
    let mut table = Table::open(bytes, count);
    let items = if answer.is_ok() { count } else { 0 };
    assert_eq!(rt; table.count() as usize, items);
    // nothing is there past the end, and nothing is written there
    for item in [items, 255, 256, 65535] {
        if items <= item && item <= 65535 {
            table.put(item as u16, ONE);
            assert_eq!(rt; table.get(item as u16), None);
        }
    }
    for byte in table.bytes() {
        assert_eq!(rt; *byte, 0);
    }
}

const ONE: Version = Version {
    value: 0x01020304,
    twrite: 0x1112131415161718,
    tread: 0x2122232425262728,
};

#[test]
fn table_edges(rt: HostRuntime) {
    let all: &mut [u8] = &mut [0; 65537];
    for (count, length, answer) in EDGES {
        table_edge(&rt, all, count, length, answer);
    }
}

fn valued(value: u32) -> Version {
    Version {
        value,
        ..Version::default()
    }
}

// The record's bytes, highest first, and no byte beside them.
#[test]
fn table_bytes(rt: HostRuntime) {
    let mut bytes = [9; 62];
    let mut table = Table::open(&mut bytes, 3);
    table.put(1, ONE);
    assert_eq!(rt; table.get(1), Some(ONE));
    assert!(rt; table.bytes().len() == 62);
    assert_eq!(rt; table.bytes()[19], 9);
    assert_eq!(rt;
        &table.bytes()[20..40],
        [
            1, 2, 3, 4, 0x11, 0x12, 0x13, 0x14, 0x15, 0x16, 0x17, 0x18, 0x21, 0x22, 0x23, 0x24,
            0x25, 0x26, 0x27, 0x28,
        ]
        .as_slice()
    );
    assert_eq!(rt; &table.bytes()[40..62], [9; 22].as_slice());
}

#[test]
fn table_last_item(rt: HostRuntime) {
    let mut bytes = [0; 5120];
    let mut table = Table::open(&mut bytes, 256);
    table.put(255, ONE);
    assert_eq!(rt; table.get(255), Some(ONE));
    assert_eq!(rt; table.get(254), Some(Version::default()));
    assert_eq!(rt; table.get(256), None);
}

#[test]
fn fault_numbers(rt: HostRuntime) {
    assert_eq!(rt; u8::from(Fault::Count), 30);
    assert_eq!(rt; u8::from(Fault::Length), 31);
    assert_eq!(rt; u8::from(Fault::Record), 32);
    assert_eq!(rt; u8::from(Fault::Trailing), 33);
}

// A log's record of an item, with the value in its last byte.
fn record(item: u8, value: u8) -> [u8; 25] {
    let mut bytes = [0; 25];
    bytes[0] = 0x52;
    bytes[2] = 0x16;
    bytes[4] = item;
    bytes[8] = value;
    bytes
}

// two items, and so room for three records: an offset, a byte written there, and what opening answers
const SPOILED: [(usize, u8, Result<(), Fault>); 11] = [
    (0, 0x52, Ok(())),
    (0, 0x53, Err(Fault::Record)),
    (1, 1, Err(Fault::Record)),
    (2, 0x17, Err(Fault::Record)),
    (3, 1, Err(Fault::Record)),
    (4, 2, Err(Fault::Record)),
    (0, 0, Err(Fault::Trailing)),
    (25, 0x53, Err(Fault::Record)),
    (26, 1, Err(Fault::Trailing)),
    (49, 1, Err(Fault::Trailing)),
    (75, 1, Err(Fault::Trailing)),
];

fn spoiled(rt: &impl Abort, at: usize, byte: u8, answer: Result<(), Fault>) {
    let bytes: &mut [u8] = &mut [0; 76];
    bytes[0..25].copy_from_slice(&record(1, 7));
    assert!(rt; at < bytes.len());
    bytes[at] = byte;
    assert_eq!(rt; Log::check(bytes, 2), answer);
    let mut log = Log::open(bytes, 2);
    assert_eq!(rt; log.count(), if answer.is_ok() { 2 } else { 0 });
    if answer.is_err() {
        log.put(0, ONE);
        assert_eq!(rt; log.get(0), None);
        assert!(rt; at < log.bytes().len());
        assert_eq!(rt; log.bytes()[at], byte);
    }
}

#[test]
fn log_spoiled(rt: HostRuntime) {
    for (at, byte, answer) in SPOILED {
        spoiled(&rt, at, byte, answer);
    }
}

// count, length, and what opening a log of zeroes answers
const LOG_EDGES: [(usize, usize, Result<(), Fault>); 8] = [
    (0, 100, Err(Fault::Count)),
    (1, 50, Ok(())),
    (1, 49, Err(Fault::Length)),
    (256, 6425, Ok(())),
    (256, 6424, Err(Fault::Length)),
    (257, 65536, Err(Fault::Count)),
    (2, 65536, Ok(())),
    (2, 65537, Err(Fault::Length)),
];

#[test]
fn log_edges(rt: HostRuntime) {
    let all: &mut [u8] = &mut [0; 65537];
    for (count, length, answer) in LOG_EDGES {
        assert!(rt; length <= all.len());
        assert_eq!(rt; Log::check(&all[0..length], count), answer);
    }
}

// The same puts on a log, which fills and compacts, and on a table: the same versions.
fn puts(rt: &impl Abort, bytes: &mut [u8], count: u16) -> Result<(), Fail> {
    let mut log = Log::open(bytes, count as usize);
    let cells: &mut [u8] = &mut [0; 5120];
    let mut table = Table::open(cells, count as usize);
    assert_eq!(rt; log.count(), count);
    for round in 0..200u32 {
        let item = (round.wrapping_mul(round).wrapping_mul(7) % 300) as u16;
        let version = Version {
            value: round,
            twrite: round as u64 * 3,
            tread: u64::MAX - round as u64,
        };
        log.put(item, version);
        table.put(item, version);
        assert_eq!(rt; log.get(item), table.get(item));
    }
    for item in 0..300 {
        assert_eq!(rt; log.get(item), table.get(item));
    }
    Log::check(log.bytes(), count as usize)?;
    Ok(())
}

#[test]
fn log_compacts(rt: HostRuntime) -> Result<(), Fail> {
    puts(&rt, &mut [0; 50], 1)?;
    puts(&rt, &mut [0; 74], 1)?;
    puts(&rt, &mut [0; 101], 3)?;
    puts(&rt, &mut [0; 1000], 30)?;
    puts(&rt, &mut [0; 6425], 256)
}

// One item, two places: the second record, and the third after the first two are one.
#[test]
fn log_bytes(rt: HostRuntime) {
    let mut bytes = [0; 60];
    let mut log = Log::open(&mut bytes, 1);
    log.put(0, valued(1));
    log.put(0, valued(2));
    assert!(rt; log.bytes().len() == 60);
    assert_eq!(rt; &log.bytes()[0..25], record(0, 1).as_slice());
    assert_eq!(rt; &log.bytes()[25..50], record(0, 2).as_slice());
    log.put(0, valued(3));
    assert!(rt; log.bytes().len() == 60);
    assert_eq!(rt; &log.bytes()[0..25], record(0, 2).as_slice());
    assert_eq!(rt; &log.bytes()[25..50], record(0, 3).as_slice());
    assert_eq!(rt; &log.bytes()[50..60], [0; 10].as_slice());
}

// 100 items three times: cut off at 256, where the 57th of the last store would stand.
fn nested<A: Store + Drop, B: Store + Drop, C: Store + Drop>(rt: &impl Abort, a: A, b: B, c: C) {
    let mut pair = Pair::new(Pair::new(a, b), c);
    assert_eq!(rt; pair.count(), 256);
    for item in [0, 99, 100, 199, 200, 255] {
        assert_eq!(rt; pair.get(item), Some(valued(0)));
        pair.put(item, valued(item as u32 + 1));
        assert_eq!(rt; pair.get(item), Some(valued(item as u32 + 1)));
    }
    pair.put(256, ONE);
    assert_eq!(rt; pair.get(256), None);
    assert_eq!(rt; pair.first().count(), 200);
    assert_eq!(rt; pair.second().count(), 100);
    let (inner, last) = pair.into_parts();
    let (first, second) = inner.into_parts();
    assert_eq!(rt; first.get(99), Some(valued(100)));
    assert_eq!(rt; second.get(0), Some(valued(101)));
    assert_eq!(rt; last.get(55), Some(valued(256)));
    assert_eq!(rt; last.get(56), Some(valued(0)));
}

#[test]
fn pairs_nest(rt: HostRuntime) {
    let mut a = [0; 2000];
    let mut b = [0; 2000];
    let mut c = [0; 2525];
    nested(
        &rt,
        Table::open(&mut a, 100),
        Table::open(&mut b, 100),
        Log::open(&mut c, 100),
    );
}
