// Why a buffer cannot be opened as a store.
ghost use Rattle.std.specs.Prelude.{◌≡◌, ◌∷◌, [], ◌||◌, ◌==◌, Some, length, nat_lt};
ghost use Rattle.store.specs.Faults.{number as number_of, meaning as meaning_of, first_of};
ghost use Rattle.store.specs.declared.faults.Fault.TheVariants.{Count, Length};

use crate::{MOST_BYTES, MOST_ITEMS};
use std::error::Error;
use std::fmt;

#[derive(Clone, Copy, PartialEq, Eq, Debug)]
pub enum Fault {
    Count = 30,
    Length = 31,
    Record = 32,
    Trailing = 33,
}

impl From<Fault> for u8 {
    ghost from_gives = { λ fault number. number ≡ number_of fault };

    fn from(fault: Fault) -> u8 {
        fault as u8
    }
}

impl Fault {
    // What the refusal means. Unlike printing it, this needs no writer and cannot fail.
    pub fn meaning(self) -> &'static str
        ensures { result.now ≡ meaning_of self }
    {
        match self {
            Fault::Count => "the count of items is 0 or above 256",
            Fault::Length => "the buffer is above 65536 bytes, or too short for its items",
            Fault::Record => "a log record has a wrong tag, length or item",
            Fault::Trailing => "a byte after the log's end is not 0",
        }
    }
}

impl fmt::Display for Fault {
    ghost output = { λ fault. Some (meaning_of fault) };

    fn fmt<W: fmt::Write>(&self, f: &mut fmt::Formatter<W>) -> fmt::Result {
        f.write_str(self.meaning())
    }
}

impl Error for Fault {}

// Whether a store may have so many items.
pub(crate) fn check_count(count: usize) -> Result<(), Fault>
    ensures { result ≡ first_of ((count == 0 || nat_lt 256 count, Count) ∷ []) }
{
    if count == 0 || count > MOST_ITEMS {
        return Err(Fault::Count);
    }
    Ok(())
}

// Whether a buffer is not too long, and has at least so many bytes.
pub(crate) fn check_length(bytes: &[u8], least: usize) -> Result<(), Fault>
    ensures { result ≡ first_of ((nat_lt 65536 (length bytes.now) || nat_lt (length bytes.now) least, Length) ∷ []) }
{
    if bytes.len() > MOST_BYTES || bytes.len() < least {
        return Err(Fault::Length);
    }
    Ok(())
}
