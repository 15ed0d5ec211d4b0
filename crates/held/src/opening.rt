// The open transaction.
ghost use Rattle.service.specs.declared.calls.Call.TheVariants.{Begin, Read, Write, Close, Abort};
ghost use Rattle.service.specs.Services.{Makes, done, valued};
ghost use Rattle.held.specs.Held.{begun, BegunFor, closed_at, ClosedFrom, ended, Back};

use crate::transactions::{Closed, Open};
use service::{Refusal, Service};
use store::{Item, Store, Value};

impl Open {
    // An idle tool opens a transaction, to be held.
    pub fn begin<S: Store>(service: &mut Service<S>, tool: u8) -> Result<Open, Refusal>
        ensures makes { Makes S.versions service.old (Begin tool) (begun result) service.new }
        ensures held { BegunFor tool result }
    {
        service.begin(tool)?;
        Ok(Open { tool })
    }

    // The item's current value; a first use reads it from the store.
    pub fn read<S: Store>(&self, service: &mut Service<S>, item: Item) -> Result<Value, Refusal>
        ensures { Makes S.versions service.old (Read self.now.tool item) (valued result) service.new }
    {
        service.read(self.tool, item)
    }

    // Sets the item's current value.
    pub fn write<S: Store>(
        &self,
        service: &mut Service<S>,
        item: Item,
        value: Value,
    ) -> Result<(), Refusal>
        ensures { Makes S.versions service.old (Write self.now.tool item value) (done result) service.new }
    {
        service.write(self.tool, item, value)
    }

    // Ends the reads and writes.
    pub fn close<S: Store>(
        self,
        service: &mut Service<S>,
        tick: u64,
    ) -> Result<Closed, (Refusal, Open)>
        ensures makes { Makes S.versions service.old (Close self.tool tick) (closed_at result) service.new }
        ensures held { ClosedFrom self result }
    {
        let Open { tool } = self;
        service
            .close(tool, tick)
            .map(|stamp| Closed { tool, stamp })
            .map_err(|refusal| (refusal, Open { tool }))
    }

    // Gives the transaction up.
    pub fn abort<S: Store>(self, service: &mut Service<S>) -> Result<(), (Refusal, Open)>
        ensures makes { Makes S.versions service.old (Abort self.tool) (ended result) service.new }
        ensures back { Back self result }
    {
        let Open { tool } = self;
        service
            .abort(tool)
            .map_err(|refusal| (refusal, Open { tool }))
    }
}
