use store::Version;

// What a look at one item shows: its version, and how many tokens of each kind it has.
#[derive(Clone, Copy, PartialEq, Eq, Debug)]
pub struct Look {
    pub version: Version,
    pub reads: usize,
    pub writes: usize,
}
