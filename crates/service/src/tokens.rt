// The two kinds of token.
use queue::Token;
use store::{Item, Stamp, Value};

// A certified use of an item, with the value that it would leave.
#[derive(Clone, Copy, Default)]
pub struct Certified<V> {
    pub tool: u8,
    pub item: Item,
    pub stamp: Stamp,
    pub value: V,
}

// A read leaves nothing.
pub type ReadToken = Certified<()>;

pub type WriteToken = Certified<Value>;

impl<V: Copy + Default> Token for Certified<V> {
    ghost use Rattle.service.specs.Tokens.{certified_tells};

    ghost tells = { certified_tells };

    fn item(&self) -> Item {
        self.item
    }

    fn stamp(&self) -> Stamp {
        self.stamp
    }
}

impl<V> Certified<V> {
    ghost use Rattle.std.specs.Prelude.{◌≡◌};
    ghost use Rattle.service.specs.Tokens.{is_of};

    // Whether the tool had it certified under that stamp.
    pub(crate) fn is_of(&self, tool: u8, stamp: Stamp) -> bool
        ensures { result ≡ is_of tool stamp self.now }
    {
        self.tool == tool && self.stamp == stamp
    }
}
