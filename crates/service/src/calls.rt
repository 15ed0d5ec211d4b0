// Calls and answers as data.
ghost use Rattle.std.specs.Prelude.{◌≡◌};
ghost use Rattle.service.specs.Service.{tool_of};
ghost use Rattle.service.specs.Desks.{item_of};

use store::{Item, Stamp, Value};

// What a tool asks for.
#[derive(Clone, Copy, PartialEq, Eq, Debug)]
pub enum Call {
    Begin { tool: u8 },
    Read { tool: u8, item: Item },
    Write { tool: u8, item: Item, value: Value },
    Close { tool: u8, tick: u64 },
    Certify { tool: u8, item: Item },
    Commit { tool: u8 },
    Abort { tool: u8 },
    Settle { tool: u8, item: Item },
}

impl Call {
    pub fn tool(self) -> u8
        ensures { result ≡ tool_of self }
    {
        match self {
            Call::Begin { tool }
            | Call::Read { tool, .. }
            | Call::Write { tool, .. }
            | Call::Close { tool, .. }
            | Call::Certify { tool, .. }
            | Call::Commit { tool }
            | Call::Abort { tool }
            | Call::Settle { tool, .. } => tool,
        }
    }

    // The item that the call names.
    pub fn item(self) -> Option<Item>
        ensures { result ≡ item_of self }
    {
        match self {
            Call::Read { item, .. }
            | Call::Write { item, .. }
            | Call::Certify { item, .. }
            | Call::Settle { item, .. } => Some(item),
            Call::Begin { .. } | Call::Close { .. } | Call::Commit { .. } | Call::Abort { .. } =>
                None,
        }
    }
}

// What an accepted call answers: a read its value, a close its stamp.
#[derive(Clone, Copy, PartialEq, Eq, Debug)]
pub enum Answer {
    Done,
    Value(Value),
    Stamp(Stamp),
}
