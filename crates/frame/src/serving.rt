// Frames served by a service.
ghost use Rattle.frame.specs.Serving.{accepted, Serves};

use crate::faults::Fault;
use crate::kinds::LONGEST_REPLY;
use crate::replies::write_reply;
use crate::requests::read_request;
use service::Service;
use store::Store;

// Makes the call that a frame asks for, writes the reply to the front of the buffer and answers its length; later bytes
// stay. A fault is found before anything runs.
pub fn serve<S: Store>(
    service: &mut Service<S>,
    frame: &[u8],
    reply: &mut [u8],
) -> Result<usize, Fault>
    ensures { Serves S.versions service.old reply.old result service.new reply.new (accepted frame.now reply.old) }
{
    let call = read_request(frame)?;
    if reply.len() < LONGEST_REPLY {
        return Err(Fault::Room);
    }
    let answer = service.call(call);
    write_reply(answer, reply)
}
