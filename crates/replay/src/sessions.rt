// A service under replay: its lines with their answers, and what they leave.
ghost use Rattle.std.specs.Prelude.{List, ◌∷◌};
ghost use Rattle.store.specs.declared.Version.{Version as Start};
ghost use Rattle.service.specs.Services.{state_of};
ghost use Rattle.history.specs.History.{History};
ghost use Rattle.history.specs.Runs.{Run, Runs};

use crate::answers::{Hexadecimal, Reply};
use crate::words::{self, Line, Request};
use frame::LONGEST_REPLY;
use history::{Event, Outcome, all_settled, committed_stamps, resume, serial_run};
use service::{Call, Refusal, Service};
use std::alloc::{AllocError, Global};
use store::{Log, Pair, Store, Table, Version};

// A store whose buffers can be shown. `bytes` is a method of each store's own, and of no trait.
pub trait Shown {
    fn buffers(&self, heap: Global) -> Result<Vec<&[u8]>, AllocError>;
}

impl Shown for Table<'_> {
    fn buffers(&self, heap: Global) -> Result<Vec<&[u8]>, AllocError> {
        Ok(vec![in heap; self.bytes()]?)
    }
}

impl Shown for Log<'_> {
    fn buffers(&self, heap: Global) -> Result<Vec<&[u8]>, AllocError> {
        Ok(vec![in heap; self.bytes()]?)
    }
}

impl<A: Store + Shown, B: Store + Shown> Shown for Pair<A, B> {
    fn buffers(&self, heap: Global) -> Result<Vec<&[u8]>, AllocError> {
        let mut all = self.first().buffers(heap)?;
        all.extend(self.second().buffers(heap)?)?;
        Ok(all)
    }
}

// Makes one call: the run that led to the service goes on by it.
fn made<S: Store>(service: &mut Service<S>, call: Call) -> Outcome
    ensures { (vs : List Start) (h : History) → Run vs h (state_of S.versions service.old) → Runs vs ((call, result) ∷ h) (state_of S.versions service.new) }
{
    let calls = [call];
    let mut answers = [Err(Refusal::WrongState)];
    let _ = resume(service, &calls, &mut answers);
    answers[0]
}

// All versions of a store.
fn versions<S: Store>(heap: Global, store: &S) -> Result<Vec<Version>, AllocError> {
    (0..store.count())
        .filter_map(|item| store.get(item))
        .collect(heap)
}

// A service, and what was called of it.
#[derive(Drop)]
struct Session<S> {
    service: Service<S>,
    events: Vec<Event>,
}

impl<S: Store> Session<S> {
    // Answers a line, and notes the call that it made.
    fn answer(&mut self, heap: Global, text: &str) -> Result<Reply, AllocError> {
        let Some(Line::Request(request)) = words::parse(heap, text)? else {
            return Ok(Reply::NotUnderstood)
        };
        match request {
            Request::Call(call) => {
                let outcome = made(&mut self.service, call);
                self.events.push((call, outcome))?;
                Ok(Reply::Called(outcome))
            }
            Request::Peek(item) => Ok(Reply::Seen(self.service.peek(item))),
            Request::Frame(frame) => self.serve(heap, frame.as_slice()),
        }
    }

    // Serves a frame. It counts as the call that it makes, with the answer that its reply holds.
    fn serve(&mut self, heap: Global, frame: &[u8]) -> Result<Reply, AllocError> {
        let mut buffer = [0u8; LONGEST_REPLY];
        let length = match frame::serve(&mut self.service, frame, &mut buffer) {
            Ok(length) => length,
            Err(fault) => return Ok(Reply::Served(Err(fault))),
        };
        let reply = &buffer[0..length.min(LONGEST_REPLY)];
        if let Ok(call) = frame::read_request(frame) {
            if let Ok(outcome) = frame::read_reply(call, reply) {
                self.events.push((call, outcome))?;
            }
        }
        Ok(Reply::Served(Ok(reply.to_vec(heap)?)))
    }
}

// The lines behind the opening one.
pub fn replay<S: Store + Shown + Drop>(
    rt: &HostRuntime,
    store: S,
    lines: &[String],
) -> anyhow::Result<()> {
    let heap = rt.alloc();
    let start = versions(heap, &store)?;
    let mut session = Session {
        service: Service::start(store),
        events: Vec::new(heap),
    };
    for text in lines {
        let reply = session.answer(heap, text.as_str())?;
        println!(rt; "{text}: {reply}")?;
    }
    report(rt, &session, start.as_slice())
}

// What the lines left: the serial order, the items beside the serial run, and the buffers.
fn report<S: Store + Shown>(
    rt: &HostRuntime,
    session: &Session<S>,
    start: &[Version],
) -> anyhow::Result<()> {
    let heap = rt.alloc();
    let Session { service, events } = session;
    print!(rt; "serial")?;
    for stamp in &committed_stamps(heap, events.as_slice())? {
        print!(rt; " {stamp}")?;
    }
    println!(rt; "")?;
    let left = versions(heap, service.store())?;
    let run = serial_run(heap, start, events.as_slice())?;
    for (item, (version, cell)) in left.iter().zip(&run).enumerate() {
        println!(rt;
            "item {item} {} {} {} {} {}",
            version.value, version.twrite, version.tread, cell.value, cell.stamp
        )?;
    }
    for buffer in &service.store().buffers(heap)? {
        println!(rt; "bytes {}", Hexadecimal(buffer))?;
    }
    let settled = all_settled(heap, events.as_slice())?;
    println!(rt; "{}", if settled { "settled" } else { "unsettled" })?;
    Ok(())
}
