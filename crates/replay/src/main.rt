#![tactic(auto)]
// Replays a list of calls: each line with its answer, then the serial order, the items and the buffer.

mod answers;
mod openings;
mod sessions;
mod words;

fn main(rt: HostRuntime) -> anyhow::Result<()> {
    let heap = rt.alloc();
    let mut lines = Vec::new(heap);
    // A loop: each line may fail by itself, and a chain would have to carry that past the test.
    for line in rt.lines(heap) {
        let line = line?;
        if words::is_asking(line.as_str()) {
            lines.push(line)?;
        }
    }
    openings::replay_all(&rt, lines.as_slice())
}
