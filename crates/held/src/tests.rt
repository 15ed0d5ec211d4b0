use super::*;
use service::{Refusal, Service};
use std::process::Abort;
use std::test::Fail;
use store::{Log, Pair, Store, Table};

// A test looks at its answers once nothing is held any more, since a check that fails would let the transaction fall.

// What a test that fails has in hand.
trait LetGo {
    fn let_go(self);
}

impl LetGo for () {
    fn let_go(self) {}
}

impl LetGo for Open {
    fn let_go(self) {
        let Open { tool: _ } = self;
    }
}

impl LetGo for Closed {
    fn let_go(self) {
        let Closed { tool: _, stamp: _ } = self;
    }
}

impl LetGo for Grant {
    fn let_go(self) {
        let Grant { tool: _, stamp: _ } = self;
    }
}

// The answer alone: what a refusal hands back is let go.
fn answered<T, H: LetGo>(answer: Result<T, (Refusal, H)>) -> Result<T, Refusal> {
    match answer {
        Ok(value) => Ok(value),
        Err((refusal, held)) => {
            held.let_go();
            Err(refusal)
        }
    }
}

// The refusal, with what it hands back.
fn refused<T: LetGo, E>(answer: Result<T, E>) -> Result<E, Fail> {
    match answer {
        Ok(value) => {
            value.let_go();
            Err(Fail::new("not refused"))
        }
        Err(refusal) => Ok(refusal),
    }
}

// A rejection is an answer of its own.
fn certified(
    answer: Result<Grant, Uncertified>,
) -> Result<Result<Grant, (Refusal, Closed)>, Refusal> {
    match answer {
        Ok(grant) => Ok(Ok(grant)),
        Err(Uncertified::Rejected(refusal)) => Err(refusal),
        Err(Uncertified::Refused(refusal, held)) => Ok(Err((refusal, held))),
    }
}

fn rejected(answer: Result<Grant, Uncertified>) -> Result<Refusal, Fail> {
    match certified(answer) {
        Ok(Ok(grant)) => {
            grant.let_go();
            Err(Fail::new("granted"))
        }
        Ok(Err((_, held))) => {
            held.let_go();
            Err(Fail::new("refused"))
        }
        Err(refusal) => Ok(refusal),
    }
}

// A second tool writes the item by single calls, and commits.
fn overwrite<S: Store>(service: &mut Service<S>, tool: u8, item: u16) -> Result<(), Refusal> {
    service.begin(tool)?;
    service.write(tool, item, 99)?;
    let _ = service.close(tool, 0)?;
    service.certify(tool, item)?;
    service.commit(tool)?;
    service.settle(tool, item)
}

// How many tokens the item has, of each kind.
fn tokens<S: Store>(service: &Service<S>, item: u16) -> (usize, usize) {
    service
        .peek(item)
        .map_or((0, 0), |look| (look.reads, look.writes))
}

fn value<S: Store>(service: &Service<S>, item: u16) -> u32 {
    service.peek(item).map_or(0, |look| look.version.value)
}

fn commits<S: Store + Drop>(rt: &impl Abort, store: S) -> Result<(), Fail> {
    let mut service = Service::start(store);
    let held = Open::begin(&mut service, 3)?;
    let read = held.read(&mut service, 0);
    let written = held.write(&mut service, 1, 7);
    let again = held.read(&mut service, 1);
    let unknown = held.write(&mut service, 9, 7);
    let held = answered(held.close(&mut service, 9))?;
    let stamp = held.stamp();
    let grant = answered(certified(held.certify_all(&mut service))?)?;
    let standing = (tokens(&service, 0), tokens(&service, 1));
    let (tool, same) = (grant.tool(), grant.stamp());
    answered(grant.commit_all(&mut service))?;
    assert_eq!(rt; read, Ok(0));
    assert_eq!(rt; written, Ok(()));
    assert_eq!(rt; again, Ok(7));
    assert_eq!(rt; unknown, Err(Refusal::UnknownItem));
    assert_eq!(rt; (tool, stamp, same), (3, 163, 163));
    assert_eq!(rt; standing, ((1, 0), (0, 1)));
    assert_eq!(rt; value(&service, 1), 7);
    assert_eq!(rt; tokens(&service, 0), (0, 0));
    assert_eq!(rt; tokens(&service, 1), (0, 0));
    assert_eq!(rt; service.begin(3), Ok(()));
    Ok(())
}

fn aborts<S: Store + Drop>(rt: &impl Abort, store: S) -> Result<(), Fail> {
    let mut service = Service::start(store);
    let held = Open::begin(&mut service, 3)?;
    let written = held.write(&mut service, 1, 7);
    let held = answered(held.close(&mut service, 0))?;
    let grant = answered(certified(held.certify_all(&mut service))?)?;
    answered(grant.abort_all(&mut service))?;
    assert_eq!(rt; written, Ok(()));
    assert_eq!(rt; value(&service, 1), 0);
    assert_eq!(rt; tokens(&service, 1), (0, 0));
    assert_eq!(rt; service.begin(3), Ok(()));
    Ok(())
}

// Another tool changes a version that was read: the transaction is over, and its tokens are gone.
fn is_rejected<S: Store + Drop>(rt: &impl Abort, store: S) -> Result<(), Fail> {
    let mut service = Service::start(store);
    let held = Open::begin(&mut service, 3)?;
    let written = held.write(&mut service, 1, 7);
    let read = held.read(&mut service, 0);
    let other = overwrite(&mut service, 5, 0);
    let held = answered(held.close(&mut service, 9))?;
    let why = rejected(held.certify_all(&mut service))?;
    assert_eq!(rt; written, Ok(()));
    assert_eq!(rt; read, Ok(0));
    assert_eq!(rt; other, Ok(()));
    assert_eq!(rt; why, Refusal::VersionChanged);
    assert_eq!(rt; value(&service, 1), 0);
    assert_eq!(rt; tokens(&service, 1), (0, 0));
    assert_eq!(rt; service.begin(3), Ok(()));
    Ok(())
}

// What is refused is handed back, and can be tried again.
fn opens_again<S: Store + Drop>(rt: &impl Abort, store: S) -> Result<(), Fail> {
    let mut service = Service::start(store);
    let held = Open::begin(&mut service, 3)?;
    let (late, held) = refused(held.close(&mut service, 1 << 40))?;
    let gone = service.abort(3);
    let (closing, held) = refused(held.close(&mut service, 0))?;
    let (aborting, held) = refused(held.abort(&mut service))?;
    let begun = service.begin(3);
    let aborted = answered(held.abort(&mut service));
    assert_eq!(rt; late, Refusal::TickTooLarge);
    assert_eq!(rt; gone, Ok(()));
    assert_eq!(rt; closing, Refusal::WrongState);
    assert_eq!(rt; aborting, Refusal::WrongState);
    assert_eq!(rt; begun, Ok(()));
    assert_eq!(rt; aborted, Ok(()));
    let unknown = refused(Open::begin(&mut service, 16))?;
    assert_eq!(rt; unknown, Refusal::UnknownTool);
    Ok(())
}

// The tool has gone on to another transaction, closed under another stamp.
fn another_stamp<S: Store + Drop>(rt: &impl Abort, store: S) -> Result<(), Fail> {
    let mut service = Service::start(store);
    let held = Open::begin(&mut service, 3)?;
    let held = answered(held.close(&mut service, 0))?;
    let gone = service.abort(3);
    let begun = service.begin(3);
    let (early, held) = refused(certified(held.certify_all(&mut service))?)?;
    let next = service.close(3, 0);
    let (certifying, held) = refused(certified(held.certify_all(&mut service))?)?;
    let (aborting, Closed { tool, stamp }) = refused(held.abort(&mut service))?;
    assert_eq!(rt; gone, Ok(()));
    assert_eq!(rt; begun, Ok(()));
    assert_eq!(rt; early, Refusal::WrongState);
    assert_eq!(rt; next, Ok(35));
    assert_eq!(rt; certifying, Refusal::WrongState);
    assert_eq!(rt; aborting, Refusal::WrongState);
    assert_eq!(rt; (tool, stamp), (3, 19));
    Ok(())
}

// A single call has it rejected: it can be aborted, and nothing else.
fn has_failed<S: Store + Drop>(rt: &impl Abort, store: S) -> Result<(), Fail> {
    let mut service = Service::start(store);
    let held = Open::begin(&mut service, 3)?;
    let read = held.read(&mut service, 0);
    let other = overwrite(&mut service, 5, 0);
    let held = answered(held.close(&mut service, 9))?;
    let single = service.certify(3, 0);
    let (certifying, held) = refused(certified(held.certify_all(&mut service))?)?;
    let aborted = answered(held.abort(&mut service));
    assert_eq!(rt; read, Ok(0));
    assert_eq!(rt; other, Ok(()));
    assert_eq!(rt; single, Err(Refusal::VersionChanged));
    assert_eq!(rt; certifying, Refusal::WrongState);
    assert_eq!(rt; aborted, Ok(()));
    Ok(())
}

// A grant whose tool was committed by a single call has to wait for the settlement.
fn waits<S: Store + Drop>(rt: &impl Abort, store: S) -> Result<(), Fail> {
    let mut service = Service::start(store);
    let held = Open::begin(&mut service, 3)?;
    let written = held.write(&mut service, 0, 7);
    let held = answered(held.close(&mut service, 0))?;
    let grant = answered(certified(held.certify_all(&mut service))?)?;
    let (early, grant) = refused(grant.give_up(&service))?;
    let single = service.commit(3);
    let (committing, grant) = refused(grant.commit_all(&mut service))?;
    let (aborting, grant) = refused(grant.abort_all(&mut service))?;
    let (waiting, grant) = refused(grant.give_up(&service))?;
    let settled = service.settle(3, 0);
    answered(grant.give_up(&service))?;
    assert_eq!(rt; written, Ok(()));
    assert_eq!(rt; early, Refusal::WrongState);
    assert_eq!(rt; single, Ok(()));
    assert_eq!(rt; committing, Refusal::WrongState);
    assert_eq!(rt; aborting, Refusal::WrongState);
    assert_eq!(rt; waiting, Refusal::WrongState);
    assert_eq!(rt; settled, Ok(()));
    assert_eq!(rt; value(&service, 0), 7);
    Ok(())
}

// Without entries there is nothing to commit: the grant may be given up, and the tool stays closed.
fn without_entries<S: Store + Drop>(rt: &impl Abort, store: S) -> Result<(), Fail> {
    let mut service = Service::start(store);
    let held = Open::begin(&mut service, 3)?;
    let held = answered(held.close(&mut service, 0))?;
    let stamp = held.stamp();
    let grant = answered(certified(held.certify_all(&mut service))?)?;
    answered(grant.give_up(&service))?;
    assert!(rt; service.is_closed(3, stamp));
    assert_eq!(rt; service.commit(3), Ok(()));
    Ok(())
}

// A grant is not tied to its service: one that is closed under the same stamp asks for its own tokens.
fn elsewhere<S: Store + Drop, T: Store + Drop>(
    rt: &impl Abort,
    here: S,
    there: T,
) -> Result<(), Fail> {
    let mut service = Service::start(here);
    let held = Open::begin(&mut service, 3)?;
    let held = answered(held.close(&mut service, 0))?;
    let grant = answered(certified(held.certify_all(&mut service))?)?;
    let mut second = Service::start(there);
    let begun = second.begin(3);
    let written = second.write(3, 0, 7);
    let next = second.close(3, 0);
    let (committing, grant) = refused(grant.commit_all(&mut second))?;
    answered(grant.abort_all(&mut second))?;
    assert_eq!(rt; begun, Ok(()));
    assert_eq!(rt; written, Ok(()));
    assert_eq!(rt; next, Ok(19));
    assert_eq!(rt; committing, Refusal::NotCertified);
    assert_eq!(rt; second.begin(3), Ok(()));
    Ok(())
}

#[test]
fn held_over_a_table(rt: HostRuntime) -> Result<(), Fail> {
    commits(&rt, Table::open(&mut [0; 40], 2))?;
    aborts(&rt, Table::open(&mut [0; 40], 2))?;
    is_rejected(&rt, Table::open(&mut [0; 40], 2))
}

#[test]
fn held_over_a_log(rt: HostRuntime) -> Result<(), Fail> {
    commits(&rt, Log::open(&mut [0; 100], 2))?;
    aborts(&rt, Log::open(&mut [0; 100], 2))?;
    is_rejected(&rt, Log::open(&mut [0; 100], 2))
}

#[test]
fn held_over_a_pair(rt: HostRuntime) -> Result<(), Fail> {
    commits(
        &rt,
        Pair::new(Table::open(&mut [0; 20], 1), Log::open(&mut [0; 50], 1)),
    )
}

#[test]
fn handed_back_over_a_table(rt: HostRuntime) -> Result<(), Fail> {
    opens_again(&rt, Table::open(&mut [0; 40], 2))?;
    another_stamp(&rt, Table::open(&mut [0; 40], 2))?;
    has_failed(&rt, Table::open(&mut [0; 40], 2))
}

#[test]
fn grants_over_a_table(rt: HostRuntime) -> Result<(), Fail> {
    waits(&rt, Table::open(&mut [0; 40], 2))?;
    without_entries(&rt, Table::open(&mut [0; 40], 2))?;
    elsewhere(
        &rt,
        Table::open(&mut [0; 40], 2),
        Table::open(&mut [0; 40], 2),
    )
}
