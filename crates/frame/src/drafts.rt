// A frame that is written.
ghost use Rattle.std.specs.Prelude.{◌≡◌, ◌+◌, ◌≤◌, [], ◌++◌, length};
ghost use Rattle.frame.specs.Fields.{width as width_of, field as field_of};
ghost use Rattle.frame.specs.Drafts.{contents, longest_request, written};

use crate::faults::Fault;
use crate::kinds::{Kind, LONGEST_REQUEST};
use arrayvec::ArrayVec;

// The fields of a frame, one after the other.
#[derive(Drop)]
pub(crate) struct Draft {
    bytes: ArrayVec<u8, LONGEST_REQUEST>,
}

impl Draft {
    pub(crate) fn new() -> Draft
        ensures { contents result ≡ [] }
    {
        Draft {
            bytes: ArrayVec::new(),
        }
    }

    // Adds bytes.
    fn extend(&mut self, bytes: &[u8])
        requires { length (contents self.old) + length bytes.now ≤ longest_request }
        ensures { contents self.new ≡ contents self.old ++ bytes.now }
    {
        self.bytes.try_extend_from_slice(bytes).unwrap();
    }

    // Adds a field.
    pub(crate) fn put(&mut self, kind: Kind, number: u64)
        requires { length (contents self.old) + (3 + width_of kind) ≤ longest_request }
        ensures { contents self.new ≡ contents self.old ++ field_of kind number }
    {
        let width = kind.width();
        let bytes = number.to_be_bytes();
        self.bytes.push(kind.tag());
        self.extend(&(width as u16).to_be_bytes());
        self.extend(&bytes[bytes.len() - width..]);
    }

    // Copies the frame to the front of the buffer and answers its length; later bytes stay.
    pub(crate) fn copy_to(&self, buffer: &mut [u8]) -> Result<usize, Fault>
        ensures { (result, buffer.new) ≡ written (contents self.now) buffer.old }
    {
        let frame = self.bytes.as_slice();
        if buffer.len() < frame.len() {
            return Err(Fault::Room);
        }
        buffer[..frame.len()].copy_from_slice(frame);
        Ok(frame.len())
    }
}
