// Replies as frames.
ghost use Rattle.std.specs.Prelude.{◌≡◌, take, IfOk, Ok};
ghost use Rattle.service.specs.declared.calls.Call.{Call as Asked};
ghost use Rattle.frame.specs.Fields.{Reads};
ghost use Rattle.frame.specs.Drafts.{contents, written};
ghost use Rattle.frame.specs.Replies.{reply_of, gives, taken_answer, taken_reply, read_reply, Suits, ReplyFits, RepliesOneFrame};

use crate::drafts::Draft;
use crate::faults::Fault;
use crate::fields::Fields;
use crate::kinds::Kind;
use service::{Answer, Call, Refusal};
use store::Value;

// The answer of an accepted call; any other is the number of a refusal.
const ACCEPTED: u8 = 0;

// What a tool is told of its call.
pub type Reply = Result<Answer, Refusal>;

impl From<Reply> for Draft {
    ghost from_gives = { λ reply draft. (contents draft ≡ reply_of reply) × ReplyFits reply };

    fn from(reply: Reply) -> Draft {
        let mut frame = Draft::new();
        let answer = reply.map_or_else(u8::from, |_| ACCEPTED);
        frame.put(Kind::Answer, u64::from(answer));
        match reply {
            Ok(Answer::Value(value)) => frame.put(Kind::Value, u64::from(value)),
            Ok(Answer::Stamp(stamp)) => frame.put(Kind::Stamp, stamp),
            Ok(Answer::Done) | Err(_) => {}
        }
        frame
    }
}

// Writes the reply's frame to the front of the buffer and answers its length; later bytes stay, and a refusal leaves
// the whole buffer.
pub fn write_reply(reply: Reply, buffer: &mut [u8]) -> Result<usize, Fault>
    ensures writes { (result, buffer.new) ≡ written (reply_of reply) buffer.old }
    ensures back { IfOk result (λ n. (c : Asked) → Suits c reply → read_reply c (take n buffer.new) ≡ Ok reply) }
{
    Draft::from(reply).copy_to(buffer)
}

// What an accepted call gives.
fn read_given(call: Call, fields: &mut Fields) -> Result<Answer, Fault>
    ensures { Reads (taken_answer (gives call)) fields.old.rest.now result fields.new.rest.now }
{
    match call {
        Call::Read { .. } => Ok(Answer::Value(fields.next(Kind::Value)? as Value)),
        Call::Close { .. } => Ok(Answer::Stamp(fields.next(Kind::Stamp)?)),
        Call::Begin { .. }
        | Call::Write { .. }
        | Call::Certify { .. }
        | Call::Commit { .. }
        | Call::Abort { .. }
        | Call::Settle { .. } => Ok(Answer::Done),
    }
}

// The reply with that answer, and with what the call gives.
fn read_answer(call: Call, answer: u8, fields: &mut Fields) -> Result<Reply, Fault>
    ensures { Reads (taken_reply call answer) fields.old.rest.now result fields.new.rest.now }
{
    match answer {
        ACCEPTED => Ok(Ok(read_given(call, fields)?)),
        refused => Ok(Err(Refusal::try_from(refused)?)),
    }
}

// The reply that a frame holds, which depends on the call that it answers.
pub fn read_reply(call: Call, frame: &[u8]) -> Result<Reply, Fault>
    ensures reads { result ≡ read_reply call frame.now }
    ensures back { IfOk result (λ a. (reply_of a ≡ frame.now) × Suits call a) }
{
    let mut fields = Fields { rest: frame };
    let answer = fields.next(Kind::Answer)? as u8;
    let reply = read_answer(call, answer, &mut fields)?;
    fields.end()?;
    Ok(reply)
}

// Each reply has one frame: what is written is read again, and what is read was written so.
pub fn replies_have_one_frame()
    ensures { RepliesOneFrame }
{}
