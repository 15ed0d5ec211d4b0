// Why a frame is refused.
ghost use Rattle.std.specs.Prelude.{◌≡◌, Some};
ghost use Rattle.frame.specs.declared.faults.Fault.TheVariants.{Unknown};
ghost use Rattle.frame.specs.Faults.{number, meaning as meaning_of};

use service::UnknownRefusal;
use std::error::Error;
use std::fmt;

#[derive(Clone, Copy, PartialEq, Eq, Debug)]
pub enum Fault {
    Cut = 20,
    Tag = 21,
    Length = 22,
    Unknown = 23,
    Trailing = 24,
    Room = 25,
}

impl Fault {
    // The text alone, for a program that has no writer to print it to.
    pub fn meaning(self) -> &'static str
        ensures { result.now ≡ meaning_of self }
    {
        match self {
            Fault::Cut => "the frame ends inside a field",
            Fault::Tag => "a field has another tag",
            Fault::Length => "a field has another length",
            Fault::Unknown => "no call or answer has that number",
            Fault::Trailing => "bytes are left over after the last field",
            Fault::Room => "the buffer is too short",
        }
    }
}

impl From<Fault> for u8 {
    ghost from_gives = { λ fault n. n ≡ number fault };

    fn from(fault: Fault) -> u8 {
        fault as u8
    }
}

impl From<UnknownRefusal> for Fault {
    ghost from_gives = { λ _ fault. fault ≡ Unknown };

    fn from(_number: UnknownRefusal) -> Fault {
        Self::Unknown
    }
}

impl fmt::Display for Fault {
    ghost output = { λ fault. Some (meaning_of fault) };

    fn fmt<W: fmt::Write>(&self, f: &mut fmt::Formatter<W>) -> fmt::Result {
        f.write_str(self.meaning())
    }
}

impl Error for Fault {}
