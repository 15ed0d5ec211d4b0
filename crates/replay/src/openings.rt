// The line that opens the store.
use crate::answers::Reply;
use crate::sessions::{self, Shown};
use crate::words::{self, Line, Opening};
use store::{Fault, Log, Pair, Store, Table};

// Opens the store that the first line to do so names, and replays those behind it over that store.
pub fn replay_all(rt: &HostRuntime, lines: &[String]) -> anyhow::Result<()> {
    // Counted, since what follows the opening line is handed on.
    for (k, text) in lines.iter().enumerate() {
        if let Some(Line::Opening(opening)) = words::parse(rt.alloc(), text.as_str())? {
            return open(rt, text.as_str(), opening, &lines[k + 1..]);
        }
        println!(rt; "{text}: {}", Reply::NotUnderstood)?;
    }
    Ok(())
}

// The arms of the table and of the log differ in the type alone: no trait opens a store, which borrows its buffer.
fn open(rt: &HostRuntime, text: &str, opening: Opening, rest: &[String]) -> anyhow::Result<()> {
    match opening {
        Opening::Table(shape) => {
            let count = shape.count;
            let mut buffer = shape.into_buffer()?;
            let checked = Table::check(buffer.as_slice(), count);
            let table = Table::open(buffer.as_mut_slice(), count);
            replay(rt, text, checked, table, rest)
        }
        Opening::Log(shape) => {
            let count = shape.count;
            let mut buffer = shape.into_buffer()?;
            let checked = Log::check(buffer.as_slice(), count);
            let log = Log::open(buffer.as_mut_slice(), count);
            replay(rt, text, checked, log, rest)
        }
        // A table beside a log; the table's refusal is answered first.
        Opening::Pair(first, second) => {
            let count = first.count;
            let other_count = second.count;
            let mut buffer = first.into_buffer()?;
            let mut other = second.into_buffer()?;
            let checked = Table::check(buffer.as_slice(), count).and_then(|()| Log::check(
                other.as_slice(),
                other_count,
            ));
            let table = Table::open(buffer.as_mut_slice(), count);
            let log = Log::open(other.as_mut_slice(), other_count);
            replay(rt, text, checked, Pair::new(table, log), rest)
        }
    }
}

// Answers the line, and replays the others over the store.
fn replay<S: Store + Shown + Drop>(
    rt: &HostRuntime,
    text: &str,
    checked: Result<(), Fault>,
    store: S,
    rest: &[String],
) -> anyhow::Result<()> {
    println!(rt; "{text}: {}", Reply::Opened(checked))?;
    sessions::replay(rt, store, rest)
}
