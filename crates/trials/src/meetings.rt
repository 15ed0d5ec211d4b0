// Transactions of several tools over the same items.
use service::{Refusal, Service};
use std::process::Abort;
use std::test::Fail;
use store::{Log, Pair, Store, Table};

// Certifies and commits a closed transaction that uses one item, and settles it.
fn finish<S: Store>(service: &mut Service<S>, tool: u8, item: u16) -> Result<(), Refusal> {
    service.certify(tool, item)?;
    service.commit(tool)?;
    service.settle(tool, item)
}

fn a_lost_update_is_rejected_on<S: Store + Drop>(rt: &impl Abort, store: S) {
    let mut service = Service::start(store);
    for tool in 1..3 {
        assert_eq!(rt; service.begin(tool), Ok(()));
        assert_eq!(rt; service.read(tool, 0), Ok(0));
        assert_eq!(rt; service.write(tool, 0, 7), Ok(()));
        assert!(rt; service.close(tool, 0).is_ok());
    }
    assert_eq!(rt; finish(&mut service, 1, 0), Ok(()));
    assert_eq!(rt; service.certify(2, 0), Err(Refusal::VersionChanged));
    assert_eq!(rt; service.commit(2), Err(Refusal::WrongState));
    assert_eq!(rt; service.abort(2), Ok(()));
    assert_eq!(rt; service.begin(2), Ok(()));
    assert_eq!(rt; service.read(2, 0), Ok(7));
}

#[test]
fn a_lost_update_is_rejected(rt: HostRuntime) {
    let mut buffer = [0u8; 40];
    a_lost_update_is_rejected_on(&rt, Table::open(&mut buffer, 2));
}

fn a_late_write_is_dropped_and_its_read_counts_on<S: Store + Drop>(
    rt: &impl Abort,
    store: S,
) -> Result<(), Fail> {
    let mut service = Service::start(store);
    assert_eq!(rt; service.begin(1), Ok(()));
    assert_eq!(rt; service.read(1, 0), Ok(0));
    assert_eq!(rt; service.write(1, 0, 5), Ok(()));
    assert_eq!(rt; service.close(1, 0), Ok(17));
    assert_eq!(rt; service.certify(1, 0), Ok(()));
    assert_eq!(rt; service.commit(1), Ok(()));
    assert_eq!(rt; service.begin(2), Ok(()));
    assert_eq!(rt; service.write(2, 0, 6), Ok(()));
    assert_eq!(rt; service.close(2, 3), Ok(66));
    assert_eq!(rt; finish(&mut service, 2, 0), Ok(()));
    assert_eq!(rt; service.settle(1, 0), Ok(()));
    let look = service.peek(0)?;
    assert_eq!(rt; look.version.value, 6);
    assert_eq!(rt; look.version.twrite, 66);
    assert_eq!(rt; look.version.tread, 17);
    Ok(())
}

#[test]
fn a_late_write_is_dropped_and_its_read_counts(rt: HostRuntime) -> Result<(), Fail> {
    let mut buffer = [0u8; 20];
    a_late_write_is_dropped_and_its_read_counts_on(&rt, Table::open(&mut buffer, 1))
}

fn full_queues_on<S: Store + Drop>(rt: &impl Abort, store: S) -> Result<(), Fail> {
    let mut service = Service::start(store);
    for tool in 0..16 {
        assert_eq!(rt; service.begin(tool), Ok(()));
        for item in 0..8 {
            assert_eq!(rt; service.read(tool, item), Ok(0));
        }
        assert!(rt; service.close(tool, 0).is_ok());
        for item in 0..8 {
            assert_eq!(rt; service.certify(tool, item), Ok(()));
        }
    }
    let look = service.peek(3)?;
    assert_eq!(rt; look.reads, 16);
    assert_eq!(rt; look.writes, 0);
    Ok(())
}

#[test]
fn full_queues(rt: HostRuntime) -> Result<(), Fail> {
    let mut buffer = [0u8; 160];
    full_queues_on(&rt, Table::open(&mut buffer, 8))
}

// The same over the other stores.

#[test]
fn over_a_log(rt: HostRuntime) -> Result<(), Fail> {
    let mut two = [0u8; 75];
    a_lost_update_is_rejected_on(&rt, Log::open(&mut two, 2));
    let mut one = [0u8; 50];
    a_late_write_is_dropped_and_its_read_counts_on(&rt, Log::open(&mut one, 1))?;
    let mut eight = [0u8; 225];
    full_queues_on(&rt, Log::open(&mut eight, 8))
}

#[test]
fn over_a_pair(rt: HostRuntime) -> Result<(), Fail> {
    let mut table = [0u8; 20];
    let mut log = [0u8; 60];
    a_late_write_is_dropped_and_its_read_counts_on(
        &rt,
        Pair::new(Table::open(&mut table, 1), Log::open(&mut log, 1)),
    )?;
    // A refused table has no items, and so the pair is the log.
    let mut short = [0u8; 19];
    let mut other = [0u8; 60];
    a_late_write_is_dropped_and_its_read_counts_on(
        &rt,
        Pair::new(Table::open(&mut short, 1), Log::open(&mut other, 1)),
    )
}
