// The buffer that a store works on, lent by its owner: a board has no heap.
ghost use Rattle.std.specs.Prelude.{◌≡◌, ◌+◌, ◌-◌, ◌≤◌, ◌++◌, length, take, replicate};
ghost use Rattle.store.specs.Bytes.{over, part};

// It stands apart from the stores, whose invariants speak of it, so that its bytes can be lent while they are written.
#[derive(Drop)]
pub(crate) struct Area<'a> {
    pub(crate) bytes: &'a mut [u8],
}

impl Area<'_> {
    pub(crate) fn write(&mut self, at: usize, new: &[u8])
        requires { at + length new.now ≤ length self.old.bytes.now }
        ensures { self.new.bytes.now ≡ over at new.now self.old.bytes.now }
    {
        let end = at + new.len();
        self.bytes[at..end].copy_from_slice(new);
    }

    // Moves bytes down, from one place to another.
    pub(crate) fn shift(&mut self, from: usize, to: usize, size: usize)
        requires { (to ≤ from) × (from + size ≤ length self.old.bytes.now) }
        ensures { self.new.bytes.now ≡ over to (part from size self.old.bytes.now) self.old.bytes.now }
    {
        self.bytes.copy_within(from..from + size, to);
    }

    // Zeroes every byte from a place on.
    pub(crate) fn clear(&mut self, from: usize)
        requires { from ≤ length self.old.bytes.now }
        ensures { self.new.bytes.now ≡ take from self.old.bytes.now ++ replicate (length self.old.bytes.now - from) 0 }
    {
        self.bytes[from..].fill(0);
    }
}
