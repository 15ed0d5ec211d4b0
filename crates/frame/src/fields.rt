// The fields of a frame that is read.
ghost use Rattle.std.specs.Prelude.{◌≡◌, ◌^◌, ◌<◌, ◌≤◌, length, IfOk, Ok, Err};
ghost use Rattle.store.specs.Bytes.{number_in};
ghost use Rattle.frame.specs.Fields.{width as width_of, taken, Reads};
ghost use Rattle.frame.specs.Requests.{ended};
ghost use Rattle.frame.specs.Parts.{kind_of, content_of, Found};

use crate::faults::Fault;
use crate::kinds::Kind;

// A field, whose content is a part of the frame. A `Kind` beside it says what is expected before there is a content.
#[derive(Clone, Copy)]
pub(crate) enum Field<'a> {
    Tool(&'a [u8]),
    Call(&'a [u8]),
    Item(&'a [u8]),
    Value(&'a [u8]),
    Tick(&'a [u8]),
    Stamp(&'a [u8]),
    Answer(&'a [u8]),
}

impl<'a> Field<'a> {
    fn new(kind: Kind, content: &'a [u8]) -> Field<'a>
        ensures kind { kind_of result ≡ kind }
        ensures content { (content_of result).now ≡ content.now }
    {
        match kind {
            Kind::Tool => Field::Tool(content),
            Kind::Call => Field::Call(content),
            Kind::Item => Field::Item(content),
            Kind::Value => Field::Value(content),
            Kind::Tick => Field::Tick(content),
            Kind::Stamp => Field::Stamp(content),
            Kind::Answer => Field::Answer(content),
        }
    }

    fn content(self) -> &'a [u8]
        ensures { result.now ≡ (content_of self.entry).now }
    {
        match self {
            Field::Tool(content)
            | Field::Call(content)
            | Field::Item(content)
            | Field::Value(content)
            | Field::Tick(content)
            | Field::Stamp(content)
            | Field::Answer(content) => content,
        }
    }

    // The field of that kind at the front of a frame, and what follows it.
    pub(crate) fn take(kind: Kind, frame: &'a [u8]) -> Result<(Field<'a>, &'a [u8]), Fault>
        ensures { Found kind frame.now result }
    {
        let [tag, high, low, rest @ ..] = frame else {
            return Err(Fault::Cut);
        };
        if *tag != kind.tag() {
            return Err(Fault::Tag);
        }
        let width = kind.width();
        if u16::from_be_bytes([*high, *low]) as usize != width {
            return Err(Fault::Length);
        }
        let Some((content, rest)) = rest.split_at_checked(width) else {
            return Err(Fault::Cut);
        };
        Ok((Field::new(kind, content), rest))
    }
}

// The number that at most eight bytes write, the highest byte first.
fn read_number(bytes: &[u8]) -> u64
    requires { length bytes.now ≤ 8 }
    ensures value { result ≡ number_in bytes.now }
    ensures bound { result < 256 ^ length bytes.now }
{
    let mut all = [0; size_of::<u64>()];
    let high = all.len() - bytes.len();
    all[high..].copy_from_slice(bytes);
    u64::from_be_bytes(all)
}

// A frame from the field on that is read next.
#[derive(Drop)]
pub(crate) struct Fields<'a> {
    pub(crate) rest: &'a [u8],
}

impl Fields<'_> {
    // The number in the field of that kind. It fits the type that is as wide, so callers cast it; a trait of the integers
    // in place of the cast would say each width a second time. Inlined, since each caller knows the kind.
    #[inline(always)]
    pub(crate) fn next(&mut self, kind: Kind) -> Result<u64, Fault>
        ensures takes { Reads (taken kind) self.old.rest.now result self.new.rest.now }
        ensures bound { IfOk result (λ n. n < 256 ^ width_of kind) }
    {
        let (field, rest) = Field::take(kind, self.rest)?;
        self.rest = rest;
        Ok(read_number(field.content()))
    }

    // Nothing may follow the last field.
    pub(crate) fn end(self) -> Result<(), Fault>
        ensures { result ≡ ended (tt, self.entry.rest.now) }
    {
        match self.rest {
            [] => Ok(()),
            [..] => Err(Fault::Trailing),
        }
    }
}
