// Each refusal's number and what it means in words.
ghost use Rattle.std.specs.Prelude.{◌≡◌, ◌++◌, Some, codes, decimal};
ghost use Rattle.service.specs.Refusals.{number, meaning as meaning_of, rejects, Numbered};

use std::error::Error;
use std::fmt;

// Why a call is refused. Numbers 9 to 13 reject a certification and leave its transaction only abort.
#[derive(Clone, Copy, PartialEq, Eq, Debug)]
pub enum Refusal {
    UnknownTool = 1,
    WrongState = 2,
    UnknownItem = 3,
    TooManyEntries = 4,
    TickTooLarge = 5,
    CounterSpent = 6,
    NoEntry = 7,
    HasToken = 8,
    VersionChanged = 9,
    BehindWrite = 10,
    WriteBetween = 11,
    BehindRead = 12,
    ReadStands = 13,
    NotCertified = 14,
    NoToken = 15,
}

// A number that no refusal has.
#[derive(Clone, Copy, PartialEq, Eq, Debug)]
pub struct UnknownRefusal(pub u8);

impl Refusal {
    // The text alone, for a program that has no writer to print it to.
    pub fn meaning(self) -> &'static str
        ensures { result.now ≡ meaning_of self }
    {
        match self {
            Refusal::UnknownTool => "no such tool",
            Refusal::WrongState => "the tool's state does not allow it",
            Refusal::UnknownItem => "no such item",
            Refusal::TooManyEntries => "a ninth item in one transaction",
            Refusal::TickTooLarge => "the tick is too large",
            Refusal::CounterSpent => "the counters are spent",
            Refusal::NoEntry => "the transaction does not use the item",
            Refusal::HasToken => "the item is certified already",
            Refusal::VersionChanged => "another version was read",
            Refusal::BehindWrite => "a later write is in the store",
            Refusal::WriteBetween => "a certified write lies between",
            Refusal::BehindRead => "a later read was settled",
            Refusal::ReadStands => "a later read is certified",
            Refusal::NotCertified => "an item is not certified",
            Refusal::NoToken => "the item has no token to settle",
        }
    }

    // Whether a certification was rejected, so that its tool has failed.
    pub fn is_rejection(self) -> bool
        ensures { result ≡ rejects self }
    {
        matches!(
            self,
            Refusal::VersionChanged
                | Refusal::BehindWrite
                | Refusal::WriteBetween
                | Refusal::BehindRead
                | Refusal::ReadStands
        )
    }
}

impl From<Refusal> for u8 {
    ghost from_gives = { λ refusal n. n ≡ number refusal };

    fn from(refusal: Refusal) -> u8 {
        refusal as u8
    }
}

impl TryFrom<u8> for Refusal {
    type Error = UnknownRefusal;

    ghost try_from_gives = { Numbered };

    fn try_from(number: u8) -> Result<Refusal, UnknownRefusal> {
        match number {
            1 => Ok(Refusal::UnknownTool),
            2 => Ok(Refusal::WrongState),
            3 => Ok(Refusal::UnknownItem),
            4 => Ok(Refusal::TooManyEntries),
            5 => Ok(Refusal::TickTooLarge),
            6 => Ok(Refusal::CounterSpent),
            7 => Ok(Refusal::NoEntry),
            8 => Ok(Refusal::HasToken),
            9 => Ok(Refusal::VersionChanged),
            10 => Ok(Refusal::BehindWrite),
            11 => Ok(Refusal::WriteBetween),
            12 => Ok(Refusal::BehindRead),
            13 => Ok(Refusal::ReadStands),
            14 => Ok(Refusal::NotCertified),
            15 => Ok(Refusal::NoToken),
            _ => Err(UnknownRefusal(number)),
        }
    }
}

impl fmt::Display for Refusal {
    ghost output = { λ refusal. Some (meaning_of refusal) };

    fn fmt<W: fmt::Write>(&self, f: &mut fmt::Formatter<W>) -> fmt::Result {
        f.write_str(self.meaning())
    }
}

impl fmt::Display for UnknownRefusal {
    ghost output = { λ unknown. Some (codes "no refusal has number " ++ decimal unknown.0) };

    fn fmt<W: fmt::Write>(&self, f: &mut fmt::Formatter<W>) -> fmt::Result {
        write!(f, "no refusal has number {}", self.0)
    }
}

impl Error for Refusal {}

impl Error for UnknownRefusal {}
