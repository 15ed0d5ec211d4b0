ghost use Rattle.std.specs.Prelude.{◌≡◌};
ghost use Rattle.queue.specs.Tokens.{Tells};

use store::{Item, Stamp};

// A certified read or write that waits for its settlement.
pub trait Token: Copy {
    ghost tells: { Tells Self };

    fn item(&self) -> Item
        ensures { result ≡ tells.item self.now };

    fn stamp(&self) -> Stamp
        ensures { result ≡ tells.stamp self.now };
}
