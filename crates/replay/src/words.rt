// A line of the input, and what it asks for.
ghost use Rattle.std.specs.Prelude.{◌≡◌, ◌-◌, ◌++◌, take, replicate, vec_len, IfOk};

use service::Call;
use std::alloc::{AllocError, Global};
use std::num::{ParseIntError, TryFromIntError};
use store::Item;

// What a line asks for.
#[derive(Drop)]
pub enum Line {
    Opening(Opening),
    Request(Request),
}

// A store to open.
#[derive(Drop)]
pub enum Opening {
    Table(Shape),
    Log(Shape),
    Pair(Shape, Shape),
}

// A request of the service over the open store.
#[derive(Drop)]
pub enum Request {
    Call(Call),
    Peek(Item),
    Frame(Vec<u8>),
}

// So many items in a buffer of so many bytes, zero but for those at its front.
#[derive(Drop)]
pub struct Shape {
    pub count: usize,
    length: usize,
    front: Vec<u8>,
}

impl Shape {
    // Made when a store is opened on it, so that a line which opens none costs no more than its words.
    pub fn into_buffer(self) -> Result<Vec<u8>, AllocError>
        ensures { IfOk result (λ buffer. buffer.items ≡ take self.length self.front.items ++ replicate (self.length - vec_len self.front) 0) }
    {
        let Shape {
            length,
            mut front,
            ..
        } = self;
        front.resize(length, 0)?;
        Ok(front)
    }
}

// The longest buffer that the program makes. No store takes more than 65,536 bytes; a longer buffer is there to be refused.
const MOST_BYTES: usize = 1 << 20;

// Why there is no line to be had from the words.
#[derive(Drop)]
enum Unread {
    NotUnderstood,
    Memory(AllocError),
}

impl From<AllocError> for Unread {
    fn from(error: AllocError) -> Unread {
        Unread::Memory(error)
    }
}

impl From<ParseIntError> for Unread {
    fn from(_error: ParseIntError) -> Unread {
        Unread::NotUnderstood
    }
}

impl From<TryFromIntError> for Unread {
    fn from(_error: TryFromIntError) -> Unread {
        Unread::NotUnderstood
    }
}

// A decimal number; a sign is none.
fn number(word: &str) -> Result<u64, Unread> {
    if word.starts_with('+') {
        return Err(Unread::NotUnderstood);
    }
    Ok(word.parse::<u64>()?)
}

// A byte as two hexadecimal digits.
fn byte(pair: &[u8; 2]) -> Result<u8, Unread> {
    let [high, low] = pair.map(|c| char::from(c).to_digit(16));
    match (high, low) {
        (Some(high), Some(low)) => Ok((16 * high + low) as u8),
        _ => Err(Unread::NotUnderstood),
    }
}

// Bytes as pairs of hexadecimal digits.
fn bytes(heap: Global, word: &str) -> Result<Vec<u8>, Unread> {
    let (pairs, rest) = word.as_bytes().as_chunks::<2>();
    if !rest.is_empty() {
        return Err(Unread::NotUnderstood);
    }
    pairs.iter().map(byte).try_collect(heap)
}

// The request that a word and its numbers spell.
fn spelled(name: &str, numbers: &[u64]) -> Result<Request, Unread> {
    Ok(Request::Call(match (name, numbers) {
        ("begin", [tool]) => Call::Begin {
            tool: u8::try_from(*tool)?,
        },
        ("read", [tool, item]) => Call::Read {
            tool: u8::try_from(*tool)?,
            item: Item::try_from(*item)?,
        },
        ("write", [tool, item, value]) => Call::Write {
            tool: u8::try_from(*tool)?,
            item: Item::try_from(*item)?,
            value: u32::try_from(*value)?,
        },
        ("close", [tool, tick]) => Call::Close {
            tool: u8::try_from(*tool)?,
            tick: *tick,
        },
        ("certify", [tool, item]) => Call::Certify {
            tool: u8::try_from(*tool)?,
            item: Item::try_from(*item)?,
        },
        ("commit", [tool]) => Call::Commit {
            tool: u8::try_from(*tool)?,
        },
        ("abort", [tool]) => Call::Abort {
            tool: u8::try_from(*tool)?,
        },
        ("settle", [tool, item]) => Call::Settle {
            tool: u8::try_from(*tool)?,
            item: Item::try_from(*item)?,
        },
        ("peek", [item]) => return Ok(Request::Peek(Item::try_from(*item)?)),
        _ => return Err(Unread::NotUnderstood),
    }))
}

// A store of so many items in so many bytes, if the program makes such a buffer.
fn shaped(count: u64, length: u64, front: Vec<u8>) -> Result<Shape, Unread> {
    let count = usize::try_from(count)?;
    let length = usize::try_from(length)?;
    if front.len() > length || length > MOST_BYTES {
        return Err(Unread::NotUnderstood);
    }
    Ok(Shape {
        count,
        length,
        front,
    })
}

// `COUNT LENGTH [BYTES]`
fn single(heap: Global, words: &[&str]) -> Result<Shape, Unread> {
    match words {
        [count, length] => shaped(number(count)?, number(length)?, Vec::new(heap)),
        [count, length, front] => shaped(number(count)?, number(length)?, bytes(heap, front)?),
        _ => Err(Unread::NotUnderstood),
    }
}

// `COUNT LENGTH COUNT LENGTH`
fn pair(heap: Global, words: &[&str]) -> Result<Opening, Unread> {
    let [count, length, other_count, other_length] = words else {
        return Err(Unread::NotUnderstood)
    };
    let first = shaped(number(count)?, number(length)?, Vec::new(heap))?;
    let second = shaped(number(other_count)?, number(other_length)?, Vec::new(heap))?;
    Ok(Opening::Pair(first, second))
}

// `frame BYTES`; without bytes it is the empty frame.
fn frame(heap: Global, words: &[&str]) -> Result<Vec<u8>, Unread> {
    match words {
        [] => Ok(Vec::new(heap)),
        [word] => bytes(heap, word),
        _ => Err(Unread::NotUnderstood),
    }
}

fn understood(heap: Global, text: &str) -> Result<Line, Unread> {
    let words: Vec<&str> = text
        .split(' ')
        .filter(|word| !word.is_empty())
        .collect(heap)?;
    let Some((name, rest)) = words.as_slice().split_first() else {
        return Err(Unread::NotUnderstood)
    };
    match *name {
        "table" => Ok(Line::Opening(Opening::Table(single(heap, rest)?))),
        "log" => Ok(Line::Opening(Opening::Log(single(heap, rest)?))),
        "pair" => Ok(Line::Opening(pair(heap, rest)?)),
        "frame" => Ok(Line::Request(Request::Frame(frame(heap, rest)?))),
        _ => {
            let numbers: Vec<u64> = rest.iter().map(|word| number(word)).try_collect(heap)?;
            Ok(Line::Request(spelled(name, numbers.as_slice())?))
        }
    }
}

// Whether a line is there to be read: it is neither blank nor a comment.
pub(crate) fn is_asking(text: &str) -> bool {
    let text = text.trim_start_matches(' ');
    !text.is_empty() && !text.starts_with('#')
}

// What a line asks for, if it is understood. Memory that runs out ends the program, and so it alone is an error here; a line
// that is not understood has an answer.
pub fn parse(heap: Global, text: &str) -> Result<Option<Line>, AllocError> {
    match understood(heap, text) {
        Ok(line) => Ok(Some(line)),
        Err(Unread::NotUnderstood) => Ok(None),
        Err(Unread::Memory(error)) => Err(error),
    }
}
