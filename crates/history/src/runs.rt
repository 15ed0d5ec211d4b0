// Lists of calls, made on a service one after the other.
ghost use Rattle.std.specs.Prelude.{◌≡◌, min, List, [], length, drop};
ghost use Rattle.store.specs.declared.Version.{Version};
ghost use Rattle.service.specs.Service.{Does};
ghost use Rattle.service.specs.Services.{state_of};
ghost use Rattle.history.specs.History.{History};
ghost use Rattle.history.specs.Runs.{Run, Runs, onward};

use service::{Answer, Call, Refusal, Service};
use store::Store;

// What a call answered.
pub type Outcome = Result<Answer, Refusal>;

// Makes one call and writes its answer down.
fn make<S: Store>(service: &mut Service<S>, call: Call, answer: &mut Outcome)
    ensures { Does (state_of S.versions service.old) call answer.new (state_of S.versions service.new) }
{
    *answer = service.call(call);
}

// Makes the calls in their order and writes down their answers, as many as there are places for. Whatever run from
// start led to the service, it goes on as a run, and so it keeps the law.
pub fn resume<S: Store>(service: &mut Service<S>, calls: &[Call], answers: &mut [Outcome]) -> usize
    ensures count { result ≡ min (length calls.now) (length answers.old) }
    ensures rest { drop result answers.new ≡ drop result answers.old }
    ensures runs { (vs : List Version) (h : History) → Run vs h (state_of S.versions service.old) → Runs vs (onward calls.now answers.new h) (state_of S.versions service.new) }
{
    let count = calls.len().min(answers.len());
    // By index: with a zipped `iter_mut` the proof, as tried, does not close, since it knows nothing of what is written.
    for i in 0..count {
        make(service, calls[i], &mut answers[i]);
    }
    count
}

// A service that has served no call yet.
fn begin<S: Store>(store: S) -> Service<S>
    ensures { Run (S.versions store) [] (state_of S.versions result) }
{
    Service::start(store)
}

// The same from start on.
pub fn run<S: Store>(store: S, calls: &[Call], answers: &mut [Outcome]) -> Service<S>
    ensures runs { Runs (S.versions store) (onward calls.now answers.new []) (state_of S.versions result) }
    ensures rest { drop (length calls.now) answers.new ≡ drop (length calls.now) answers.old }
{
    let mut service = begin(store);
    let _ = resume(&mut service, calls, answers);
    service
}
