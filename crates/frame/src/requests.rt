// Requests as frames.
ghost use Rattle.std.specs.Prelude.{◌≡◌, take, IfOk, Ok};
ghost use Rattle.frame.specs.Fields.{Reads};
ghost use Rattle.frame.specs.Drafts.{contents};
ghost use Rattle.frame.specs.Requests.{frame_of, requested, written_request, taken_call, read_request};
ghost use Rattle.frame.specs.RoundTrip.{CallFits, RequestsOneFrame};

use crate::drafts::Draft;
use crate::faults::Fault;
use crate::fields::Fields;
use crate::kinds::Kind;
use service::Call;
use store::{Item, Value};

// The number of each call in a frame, read in both directions. It is no discriminant of `Call`, whose cases carry values.
const BEGIN: u8 = 1;

const READ: u8 = 2;

const WRITE: u8 = 3;

const CLOSE: u8 = 4;

const CERTIFY: u8 = 5;

const COMMIT: u8 = 6;

const ABORT: u8 = 7;

const SETTLE: u8 = 8;

// The numbers that a request may carry; its call says which of the last three count. The call is a number and no `Call`,
// since a request may come with one that names no call.
#[derive(Clone, Copy, PartialEq, Eq, Debug)]
pub struct Request {
    pub tool: u8,
    pub call: u8,
    pub item: Item,
    pub value: Value,
    pub tick: u64,
}

impl TryFrom<Request> for Call {
    type Error = Fault;

    ghost try_from_gives = { λ request answer. (answer ≡ requested request) × IfOk answer CallFits };

    fn try_from(request: Request) -> Result<Call, Fault> {
        let Request {
            tool,
            call,
            item,
            value,
            tick,
        } = request;
        match call {
            BEGIN => Ok(Call::Begin { tool }),
            READ => Ok(Call::Read { tool, item }),
            WRITE => Ok(Call::Write { tool, item, value }),
            CLOSE => Ok(Call::Close { tool, tick }),
            CERTIFY => Ok(Call::Certify { tool, item }),
            COMMIT => Ok(Call::Commit { tool }),
            ABORT => Ok(Call::Abort { tool }),
            SETTLE => Ok(Call::Settle { tool, item }),
            _ => Err(Fault::Unknown),
        }
    }
}

// The numbers that a call does not take are 0.
impl From<Call> for Request {
    ghost from_gives = { λ call request. requested request ≡ Ok call };

    fn from(call: Call) -> Request {
        let (number, item, value, tick) = match call {
            Call::Begin { .. } => (BEGIN, 0, 0, 0),
            Call::Read { item, .. } => (READ, item, 0, 0),
            Call::Write { item, value, .. } => (WRITE, item, value, 0),
            Call::Close { tick, .. } => (CLOSE, 0, 0, tick),
            Call::Certify { item, .. } => (CERTIFY, item, 0, 0),
            Call::Commit { .. } => (COMMIT, 0, 0, 0),
            Call::Abort { .. } => (ABORT, 0, 0, 0),
            Call::Settle { item, .. } => (SETTLE, item, 0, 0),
        };
        Request {
            tool: call.tool(),
            call: number,
            item,
            value,
            tick,
        }
    }
}

impl From<Call> for Draft {
    ghost from_gives = { λ call draft. contents draft ≡ frame_of call };

    fn from(call: Call) -> Draft {
        let request = Request::from(call);
        let mut frame = Draft::new();
        frame.put(Kind::Tool, u64::from(request.tool));
        frame.put(Kind::Call, u64::from(request.call));
        match call {
            Call::Read { item, .. } | Call::Certify { item, .. } | Call::Settle { item, .. } => {
                frame.put(Kind::Item, u64::from(item));
            }
            Call::Write { item, value, .. } => {
                frame.put(Kind::Item, u64::from(item));
                frame.put(Kind::Value, u64::from(value));
            }
            Call::Close { tick, .. } => frame.put(Kind::Tick, tick),
            Call::Begin { .. } | Call::Commit { .. } | Call::Abort { .. } => {}
        }
        frame
    }
}

// Writes the request's frame to the front of the buffer and answers its length; later bytes stay, and a refusal
// leaves the whole buffer.
pub fn write_request(request: Request, buffer: &mut [u8]) -> Result<usize, Fault>
    ensures writes { (result, buffer.new) ≡ written_request request buffer.old }
    ensures back { IfOk result (λ n. read_request (take n buffer.new) ≡ requested request) }
{
    let call = Call::try_from(request)?;
    Draft::from(call).copy_to(buffer)
}

// The call with that number, with what it takes.
fn read_call(tool: u8, number: u8, fields: &mut Fields) -> Result<Call, Fault>
    ensures { Reads (taken_call tool number) fields.old.rest.now result fields.new.rest.now }
{
    let call = Call::try_from(Request {
        tool,
        call: number,
        item: 0,
        value: 0,
        tick: 0,
    })?;
    Ok(match call {
        Call::Read { .. } => Call::Read {
            tool,
            item: fields.next(Kind::Item)? as Item,
        },
        Call::Write { .. } => Call::Write {
            tool,
            item: fields.next(Kind::Item)? as Item,
            value: fields.next(Kind::Value)? as Value,
        },
        Call::Close { .. } => Call::Close {
            tool,
            tick: fields.next(Kind::Tick)?,
        },
        Call::Certify { .. } => Call::Certify {
            tool,
            item: fields.next(Kind::Item)? as Item,
        },
        Call::Settle { .. } => Call::Settle {
            tool,
            item: fields.next(Kind::Item)? as Item,
        },
        Call::Begin { .. } | Call::Commit { .. } | Call::Abort { .. } => call,
    })
}

// The call that a frame asks for.
pub fn read_request(frame: &[u8]) -> Result<Call, Fault>
    ensures reads { result ≡ read_request frame.now }
    ensures back { IfOk result (λ c. frame_of c ≡ frame.now) }
{
    let mut fields = Fields { rest: frame };
    let tool = fields.next(Kind::Tool)? as u8;
    let number = fields.next(Kind::Call)? as u8;
    let call = read_call(tool, number, &mut fields)?;
    fields.end()?;
    Ok(call)
}

// Each request has one frame: what is written is read again, and what is read was written so.
pub fn requests_have_one_frame()
    ensures { RequestsOneFrame }
{}
