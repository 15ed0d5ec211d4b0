#![tactic(auto)]
// An auto-tuner over a table of parameters. It moves a gain towards what it measures, in transactions that it holds; at
// a rejection it begins again. An operator's tool changes a limit meanwhile, by single calls, so that one rejection happens.
ghost use Rattle.std.specs.Prelude.{◌≡◌, ℕ, ◌≢◌, Some, None, IfErr};
ghost use Rattle.service.specs.Service.{seat};
ghost use Rattle.service.specs.Services.{state_of};
ghost use Rattle.tuner.specs.declared.Ended.TheVariants.{Refused as EndedRefused, Printing};
ghost use Rattle.tuner.specs.declared.Hand.TheVariants.{Open as OpenInHand, Closed as ClosedInHand, Granted};
ghost use Rattle.tuner.specs.Hands.{IsOpen, Stands, GivenUp};

use held::{Closed, Grant, Open, Uncertified};
use service::{Refusal, Service};
use std::io;
use store::{Item, Store, Table, Value};

// The tools and the items.
const TUNER: u8 = 2;

const OPERATOR: u8 = 7;

const GAIN: Item = 0;

const LIMIT: Item = 1;

const ATTEMPTS: u64 = 3;

// What the tuner has in hand. It may not be let fall, so it is handed on and given up.
enum Hand {
    Open(Open),
    Closed(Closed),
    Granted(Grant),
}

// Why the tuner cannot go on, and what it has in hand then.
struct Stop {
    refusal: Refusal,
    hand: Option<Hand>,
}

impl From<Refusal> for Stop {
    ghost from_gives = { λ refusal stop. stop ≡ record { refusal = refusal; hand = None } };

    fn from(refusal: Refusal) -> Stop {
        Stop {
            refusal,
            hand: None,
        }
    }
}

// One conversion for each thing that can be in hand, so that `?` takes what a refusal hands back; each names its own case.
impl From<(Refusal, Open)> for Stop {
    ghost from_gives = { λ back stop. stop ≡ record { refusal = back.0; hand = Some (OpenInHand back.1) } };

    fn from((refusal, held): (Refusal, Open)) -> Stop {
        let hand = Some(Hand::Open(held));
        Stop { refusal, hand }
    }
}

impl From<(Refusal, Closed)> for Stop {
    ghost from_gives = { λ back stop. stop ≡ record { refusal = back.0; hand = Some (ClosedInHand back.1) } };

    fn from((refusal, held): (Refusal, Closed)) -> Stop {
        let hand = Some(Hand::Closed(held));
        Stop { refusal, hand }
    }
}

impl From<(Refusal, Grant)> for Stop {
    ghost from_gives = { λ back stop. stop ≡ record { refusal = back.0; hand = Some (Granted back.1) } };

    fn from((refusal, held): (Refusal, Grant)) -> Stop {
        let hand = Some(Hand::Granted(held));
        Stop { refusal, hand }
    }
}

// Why a session ended early. Nothing is in hand then, so unlike a `Stop` it may be dropped and printed.
#[derive(Debug, Drop)]
enum Ended {
    Refused(Refusal),
    Printing(io::Error),
}

impl From<Refusal> for Ended {
    ghost from_gives = { λ refusal ended. ended ≡ EndedRefused refusal };

    fn from(refusal: Refusal) -> Ended {
        Ended::Refused(refusal)
    }
}

impl From<io::Error> for Ended {
    ghost from_gives = { λ error ended. ended ≡ Printing error };

    fn from(error: io::Error) -> Ended {
        Ended::Printing(error)
    }
}

// Gives up what is in hand, which is never refused while it is its tool's, and says why the tuner could not go on.
fn give_up<S: Store>(stop: Stop, service: &mut Service<S>) -> Refusal
    requires { Stands (state_of S.versions service.old) stop }
    ensures why { result ≡ stop.refusal }
    ensures given_up { GivenUp S.versions service.old stop service.new }
{
    let Stop { refusal, hand } = stop;
    match hand {
        None => {}
        Some(Hand::Open(held)) => held.abort(service).unwrap(),
        Some(Hand::Closed(held)) => held.abort(service).unwrap(),
        Some(Hand::Granted(held)) => held.abort_all(service).unwrap(),
    }
    refusal
}

// The operator lowers the limit, one call after the other.
fn lower_limit<S: Store>(service: &mut Service<S>, limit: Value) -> Result<(), Refusal>
    ensures { (t : ℕ) → t ≢ 7 → seat (state_of S.versions service.new) t ≡ seat (state_of S.versions service.old) t }
{
    service.begin(OPERATOR)?;
    service.write(OPERATOR, LIMIT, limit)?;
    let _ = service.close(OPERATOR, 0)?;
    service.certify(OPERATOR, LIMIT)?;
    service.commit(OPERATOR)?;
    service.settle(OPERATOR, LIMIT)
}

// The next gain: half the way to the measured one, but not above the limit.
fn next_gain(gain: Value, limit: Value, measured: Value) -> Value {
    let middle = gain / 2 + measured / 2;
    middle.min(limit)
}

// The transaction's reads and its write. Each step of the tuner says by itself how it takes its transaction and leaves it.
fn adjust<S: Store>(
    held: &Open,
    service: &mut Service<S>,
    measured: Value,
) -> Result<Value, Refusal>
    ensures { IsOpen (state_of S.versions service.old) held.now.tool → IsOpen (state_of S.versions service.new) held.now.tool }
{
    let gain = held.read(service, GAIN)?;
    let limit = held.read(service, LIMIT)?;
    let next = next_gain(gain, limit, measured);
    held.write(service, GAIN, next)?;
    Ok(next)
}

// The transaction's calls. In the first attempt the operator comes between them and the certification.
fn work<S: Store>(
    held: &Open,
    service: &mut Service<S>,
    number: u64,
    measured: Value,
) -> Result<Value, Refusal>
    ensures { held.now.tool ≢ 7 → IsOpen (state_of S.versions service.old) held.now.tool → IsOpen (state_of S.versions service.new) held.now.tool }
{
    let next = adjust(held, service, measured)?;
    if number == 1 {
        lower_limit(service, 40)?;
    }
    Ok(next)
}

// Closes the transaction, certifies it and commits it. A rejection is no stop: the next attempt may do better.
fn finish<S: Store>(
    held: Open,
    service: &mut Service<S>,
    tick: u64,
) -> Result<Result<(), Refusal>, Stop>
    ensures { IsOpen (state_of S.versions service.old) held.tool → IfErr result (λ stop. Stands (state_of S.versions service.new) stop) }
{
    let closed = held.close(service, tick)?;
    match closed.certify_all(service) {
        Ok(grant) => {
            grant.commit_all(service)?;
            Ok(Ok(()))
        }
        Err(Uncertified::Rejected(refusal)) => Ok(Err(refusal)),
        Err(Uncertified::Refused(refusal, closed)) => Err(Stop::from((refusal, closed))),
    }
}

// One attempt: the gain that it wrote, and whether it was committed or rejected.
fn attempt<S: Store>(
    service: &mut Service<S>,
    number: u64,
    measured: Value,
) -> Result<(Value, Result<(), Refusal>), Stop>
    ensures { IfErr result (λ stop. Stands (state_of S.versions service.new) stop) }
{
    let held = Open::begin(service, TUNER)?;
    match work(&held, service, number, measured) {
        Ok(next) => Ok((next, finish(held, service, number)?)),
        Err(refusal) => Err(Stop::from((refusal, held))),
    }
}

// Attempts until one is committed, at most `ATTEMPTS` of them.
fn tune<S: Store>(
    rt: &HostRuntime,
    service: &mut Service<S>,
    measured: Value,
) -> Result<(), Ended> {
    for number in 1..=ATTEMPTS {
        let (next, outcome) = match attempt(service, number, measured) {
            Ok(attempted) => attempted,
            Err(stop) => return Err(Ended::Refused(give_up(stop, service))),
        };
        match outcome {
            Ok(()) => {
                println!(rt; "attempt {number}: gain {next} committed")?;
                return Ok(());
            }
            Err(refusal) => {
                let rule = u8::from(refusal);
                println!(rt; "attempt {number}: gain {next} rejected by rule {rule}, begin again")?;
            }
        }
    }
    println!(rt; "given up after {ATTEMPTS} attempts")?;
    Ok(())
}

fn show<S: Store>(rt: &HostRuntime, service: &Service<S>) -> Result<(), Ended> {
    let gain = service.peek(GAIN)?.version.value;
    let limit = service.peek(LIMIT)?.version.value;
    println!(rt; "gain {gain}, limit {limit}")?;
    Ok(())
}

// The operator sets a limit, and the tuner works twice.
fn session<S: Store + Drop>(rt: &HostRuntime, store: S) -> Result<(), Ended> {
    let mut service = Service::start(store);
    lower_limit(&mut service, 60)?;
    show(rt, &service)?;
    tune(rt, &mut service, 100)?;
    show(rt, &service)?;
    tune(rt, &mut service, 20)?;
    show(rt, &service)
}

fn main(rt: HostRuntime) -> Result<(), Ended> {
    let mut buffer = [0; 40];
    session(&rt, Table::open(&mut buffer, 2))
}
