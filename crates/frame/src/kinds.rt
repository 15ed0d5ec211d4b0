// The kinds of field.
ghost use Rattle.std.specs.Prelude.{◌≡◌};
ghost use Rattle.frame.specs.Fields.{tag as tag_of, width as width_of};

use store::{Item, Stamp, Value};

// The tag and the two bytes of the length.
const HEAD: usize = 3;

// The longest request, that of a write, and the longest reply, that of a close.
pub(crate) const LONGEST_REQUEST: usize = 4 * HEAD
    + 2 * size_of::<u8>()
    + size_of::<Item>()
    + size_of::<Value>();

pub const LONGEST_REPLY: usize = 2 * HEAD + size_of::<u8>() + size_of::<Stamp>();

// Each kind by its tag.
#[derive(Clone, Copy, PartialEq, Eq, Debug)]
pub(crate) enum Kind {
    Tool = 0x54,
    Call = 0x43,
    Item = 0x49,
    Value = 0x56,
    Tick = 0x4B,
    Stamp = 0x53,
    Answer = 0x41,
}

impl Kind {
    pub(crate) fn tag(self) -> u8
        ensures { result ≡ tag_of self }
    {
        self as u8
    }

    // How many bytes the content has.
    pub(crate) fn width(self) -> usize
        ensures { result ≡ width_of self }
    {
        match self {
            Kind::Tool | Kind::Call | Kind::Answer => size_of::<u8>(),
            Kind::Item => size_of::<Item>(),
            Kind::Value => size_of::<Value>(),
            Kind::Tick => size_of::<u64>(),
            Kind::Stamp => size_of::<Stamp>(),
        }
    }
}
