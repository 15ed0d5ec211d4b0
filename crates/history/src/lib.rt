#![tactic(auto)]
// What every run of the service shows. A run is a list of calls with their answers, from start on; the specifications
// say what its serial order is. These functions do nothing: their contracts are the laws.
ghost use Rattle.history.specs.Runs.{SerialOrder, QueuesHold, RefusalsKeep, OnlySettleWrites, StampsFresh};
ghost use Rattle.history.specs.Shortcuts.{ShortcutsBreak};
ghost use Rattle.history.specs.Example.{ExampleMeets};

mod reports;
mod runs;

pub use reports::{Cell, Event, all_settled, committed_stamps, serial_run};
pub use runs::{Outcome, resume, run};

// Every run is as good as its committed transactions one after the other, by their stamps.
pub fn serial_order()
    ensures { SerialOrder }
{}

// No queue ever needs more than its places.
pub fn queues_never_full()
    ensures { QueuesHold }
{}

// A refusal changes nothing, but that of a certification leaves its tool failed.
pub fn refusals_keep_the_state()
    ensures { RefusalsKeep }
{}

// No stamp is given twice, and none that the store had at start.
pub fn stamps_are_fresh()
    ensures { StampsFresh }
{}

// An item's version changes when it is settled, and at no other call.
pub fn only_settle_writes()
    ensures { OnlySettleWrites }
{}

// Four shortcuts in the rules, each with a history that it lets through and that has no serial order.
pub fn shortcuts_break_the_order()
    ensures { ShortcutsBreak }
{}

// A run with a rejected certification and a late write, which has one.
pub fn example_meets_the_order()
    ensures { ExampleMeets }
{}
