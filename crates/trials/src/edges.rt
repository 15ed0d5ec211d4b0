// The first and the last of what is allowed.
use service::{Refusal, Service};
use std::process::Abort;
use store::{Store, Table};

fn last_item<S: Store + Drop>(rt: &impl Abort, store: S) {
    let mut service = Service::start(store);
    assert_eq!(rt; service.begin(0), Ok(()));
    assert_eq!(rt; service.read(0, 255), Ok(0));
    assert_eq!(rt; service.read(0, 256), Err(Refusal::UnknownItem));
    assert_eq!(rt; service.write(0, 256, 1), Err(Refusal::UnknownItem));
    assert!(rt; service.peek(255).is_ok());
    assert!(rt; service.peek(256).is_err());
}

#[test]
fn the_last_item(rt: HostRuntime) {
    let mut buffer = [0u8; 5120];
    last_item(&rt, Table::open(&mut buffer, 256));
}

fn ninth_entry<S: Store + Drop>(rt: &impl Abort, store: S) {
    let mut service = Service::start(store);
    assert_eq!(rt; service.begin(15), Ok(()));
    for item in 0..8 {
        assert_eq!(rt; service.write(15, item, 1), Ok(()));
    }
    assert_eq!(rt; service.read(15, 8), Err(Refusal::TooManyEntries));
    assert_eq!(rt; service.write(15, 8, 1), Err(Refusal::TooManyEntries));
    assert_eq!(rt; service.write(15, 7, 2), Ok(()));
    assert_eq!(rt; service.read(15, 7), Ok(2));
    assert_eq!(rt; service.begin(16), Err(Refusal::UnknownTool));
}

#[test]
fn the_ninth_entry(rt: HostRuntime) {
    let mut buffer = [0u8; 200];
    ninth_entry(&rt, Table::open(&mut buffer, 10));
}

fn last_tick<S: Store + Drop>(rt: &impl Abort, store: S) {
    let mut service = Service::start(store);
    assert_eq!(rt; service.begin(3), Ok(()));
    assert_eq!(rt; service.close(3, 1 << 40), Err(Refusal::TickTooLarge));
    assert_eq!(rt; service.close(3, (1 << 40) - 1), Ok(17592186044419));
    assert_eq!(rt; service.abort(3), Ok(()));
    assert_eq!(rt; service.begin(3), Ok(()));
    assert_eq!(rt; service.close(3, 0), Err(Refusal::CounterSpent));
    assert_eq!(rt; service.close(3, 1 << 40), Err(Refusal::TickTooLarge));
}

#[test]
fn the_last_tick(rt: HostRuntime) {
    let mut buffer = [0u8; 20];
    last_tick(&rt, Table::open(&mut buffer, 1));
}

fn large_stamps<S: Store + Drop>(rt: &impl Abort, store: S) {
    let mut service = Service::start(store);
    assert_eq!(rt; service.begin(0), Ok(()));
    assert_eq!(rt; service.read(0, 0), Ok(0xffff_ffff));
    assert_eq!(rt; service.close(0, 7), Err(Refusal::CounterSpent));
    assert_eq!(rt; service.abort(0), Ok(()));
}

#[test]
fn stamps_near_the_largest(rt: HostRuntime) {
    let mut buffer = [0xffu8; 20];
    large_stamps(&rt, Table::open(&mut buffer, 1));
}

fn no_items<S: Store + Drop>(rt: &impl Abort, store: S) {
    let mut service = Service::start(store);
    assert_eq!(rt; service.begin(0), Ok(()));
    assert_eq!(rt; service.read(0, 0), Err(Refusal::UnknownItem));
    assert_eq!(rt; service.close(0, 0), Ok(16));
    assert_eq!(rt; service.commit(0), Ok(()));
}

#[test]
fn a_refused_table_has_no_items(rt: HostRuntime) {
    let mut buffer = [0u8; 19];
    no_items(&rt, Table::open(&mut buffer, 1));
}
