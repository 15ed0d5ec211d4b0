// The grant, and the three ways to spend it.
ghost use Rattle.std.specs.Prelude.{◌≡◌};
ghost use Rattle.service.specs.Services.{state_of};
ghost use Rattle.held.specs.Calls.{Performs};
ghost use Rattle.held.specs.Held.{spends, commits_all, aborts_all, given_up};

use crate::steps::finish;
use crate::transactions::Grant;
use service::{Call, Refusal, Service};
use store::{Stamp, Store};

impl Grant {
    pub fn tool(&self) -> u8
        ensures { result ≡ self.now.tool }
    {
        self.tool
    }

    pub fn stamp(&self) -> Stamp
        ensures { result ≡ self.now.stamp }
    {
        self.stamp
    }

    // Makes the call that ends the transaction and settles everything.
    fn spend<S: Store>(self, service: &mut Service<S>, call: Call) -> Result<(), (Refusal, Grant)>
        ensures { Performs S.versions service.old (spends self call) result service.new }
    {
        let Grant { tool, stamp } = self;
        if !service.is_closed(tool, stamp) {
            return Err((Refusal::WrongState, Grant { tool, stamp }));
        }
        finish(service, call).map_err(|refusal| (refusal, Grant { tool, stamp }))
    }

    // Commits the transaction and settles everything.
    pub fn commit_all<S: Store>(self, service: &mut Service<S>) -> Result<(), (Refusal, Grant)>
        ensures { Performs S.versions service.old (commits_all self) result service.new }
    {
        let tool = self.tool;
        self.spend(service, Call::Commit { tool })
    }

    // Aborts the transaction and settles everything.
    pub fn abort_all<S: Store>(self, service: &mut Service<S>) -> Result<(), (Refusal, Grant)>
        ensures { Performs S.versions service.old (aborts_all self) result service.new }
    {
        let tool = self.tool;
        self.spend(service, Call::Abort { tool })
    }

    // Lets the transaction be, once none of its tokens stands. It makes no call.
    pub fn give_up<S: Store>(self, service: &Service<S>) -> Result<(), (Refusal, Grant)>
        ensures { result ≡ given_up self (state_of S.versions service.now) }
    {
        let Grant { tool, stamp } = self;
        if service.has_tokens(tool, stamp) {
            return Err((Refusal::WrongState, Grant { tool, stamp }));
        }
        Ok(())
    }
}
