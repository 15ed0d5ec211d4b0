// Answers as they are printed.
use history::Outcome;
use service::{Answer, Look, Refusal};
use std::fmt;
use store::Fault;

// What a line of the input is answered.
#[derive(Drop)]
pub enum Reply {
    Opened(Result<(), Fault>),
    Called(Outcome),
    Seen(Result<Look, Refusal>),
    Served(Result<Vec<u8>, frame::Fault>),
    NotUnderstood,
}

impl fmt::Display for Reply {
    fn fmt<W: fmt::Write>(&self, f: &mut fmt::Formatter<W>) -> fmt::Result {
        match self {
            Reply::Opened(Ok(())) | Reply::Called(Ok(Answer::Done)) => write!(f, "0"),
            Reply::Called(Ok(Answer::Value(value))) => write!(f, "0 {value}"),
            Reply::Called(Ok(Answer::Stamp(stamp))) => write!(f, "0 {stamp}"),
            Reply::Seen(Ok(look)) => seen(f, look),
            Reply::Served(Ok(bytes)) => Hexadecimal(bytes.as_slice()).fmt(f),
            Reply::Called(Err(why)) | Reply::Seen(Err(why)) => refused(f, *why),
            Reply::Opened(Err(why)) => refused(f, *why),
            Reply::Served(Err(why)) => refused(f, *why),
            Reply::NotUnderstood => write!(f, "not understood"),
        }
    }
}

fn refused<W: fmt::Write, R: Copy + Into<u8> + fmt::Display>(
    f: &mut fmt::Formatter<W>,
    why: R,
) -> fmt::Result {
    let number: u8 = why.into();
    write!(f, "{number} ({why})")
}

fn seen<W: fmt::Write>(f: &mut fmt::Formatter<W>, look: &Look) -> fmt::Result {
    let Look {
        version,
        reads,
        writes,
    } = look;
    write!(
        f,
        "0 {} {} {} {reads} {writes}",
        version.value, version.twrite, version.tread
    )
}

// Bytes as two hexadecimal digits each.
#[derive(Clone, Copy)]
pub struct Hexadecimal<'a>(pub &'a [u8]);

const DIGITS: [u8; 16] = *b"0123456789ABCDEF";
// The bytes that are spelled at a time.
const PIECE: usize = 32;

impl fmt::Display for Hexadecimal<'_> {
    // By pieces, since formatting each byte by itself takes several times as long.
    fn fmt<W: fmt::Write>(&self, f: &mut fmt::Formatter<W>) -> fmt::Result {
        for piece in self.0.chunks(PIECE) {
            let mut text = [0; 2 * PIECE];
            for (pair, byte) in text.as_chunks_mut::<2>().0.iter_mut().zip(piece) {
                *pair = [
                    DIGITS[usize::from(*byte >> 4)],
                    DIGITS[usize::from(*byte & 15)],
                ];
            }
            let digits = text
                .get(..2 * piece.len())
                .and_then(|digits| str::from_utf8(digits).ok())
                .ok_or(fmt::Error)?;
            f.write_str(digits)?;
        }
        Ok(())
    }
}
