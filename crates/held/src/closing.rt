// The closed transaction.
ghost use Rattle.std.specs.Prelude.{◌≡◌};
ghost use Rattle.service.specs.Services.{state_of};
ghost use Rattle.held.specs.Calls.{Performs};
ghost use Rattle.held.specs.Held.{is_abortable, aborts_closed, certifies_all};

use crate::steps::{certify_bare, undo};
use crate::transactions::{Closed, Grant, Uncertified};
use service::{Refusal, Service};
use store::{Stamp, Store};

// Whether the tool's transaction is still this one; a failed one may be aborted. Tool and stamp go as two, since the
// service's calls take them so.
fn is_abortable<S: Store>(service: &Service<S>, tool: u8, stamp: Stamp) -> bool
    ensures { result ≡ is_abortable (state_of S.versions service.now) tool stamp }
{
    service.is_closed(tool, stamp) || service.is_failed(tool, stamp)
}

impl Closed {
    // The stamp that it was closed under.
    pub fn stamp(&self) -> Stamp
        ensures { result ≡ self.now.stamp }
    {
        self.stamp
    }

    // Certifies every entry that holds no token yet. At a rejection it aborts, settles everything and answers that.
    pub fn certify_all<S: Store>(self, service: &mut Service<S>) -> Result<Grant, Uncertified>
        ensures { Performs S.versions service.old (certifies_all self) result service.new }
    {
        let Closed { tool, stamp } = self;
        if !service.is_closed(tool, stamp) {
            return Err(Uncertified::Refused(Refusal::WrongState, Closed { tool, stamp }));
        }
        match certify_bare(service, tool) {
            Ok(()) => Ok(Grant { tool, stamp }),
            Err(refusal) if refusal.is_rejection() => {
                undo(service, tool);
                Err(Uncertified::Rejected(refusal))
            }
            Err(refusal) => Err(Uncertified::Refused(refusal, Closed { tool, stamp })),
        }
    }

    // Gives the transaction up; its tokens stand until they are settled.
    pub fn abort<S: Store>(self, service: &mut Service<S>) -> Result<(), (Refusal, Closed)>
        ensures { Performs S.versions service.old (aborts_closed self) result service.new }
    {
        let Closed { tool, stamp } = self;
        if !is_abortable(service, tool, stamp) {
            return Err((Refusal::WrongState, Closed { tool, stamp }));
        }
        service
            .abort(tool)
            .map_err(|refusal| (refusal, Closed { tool, stamp }))
    }
}
