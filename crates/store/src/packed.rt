// A version as bytes, the same in every store: the value, twrite and tread, each the highest byte first.
ghost use Rattle.std.specs.Prelude.{◌≡◌, length, if◌then◌else◌, Some, None, nat_eq};
ghost use Rattle.store.specs.Packed.{packed as packedOf, unpacked as unpackedOf, version_size};

use crate::{Stamp, Value, Version};

const VALUE: usize = size_of::<Value>();

const STAMP: usize = size_of::<Stamp>();

const TREAD: usize = VALUE + STAMP;

pub(crate) const SIZE: usize = VALUE + STAMP + STAMP;

pub(crate) fn pack(version: Version) -> [u8; SIZE]
    ensures { result ≡ packedOf version }
{
    let mut bytes = [0; SIZE];
    bytes[0..VALUE].copy_from_slice(&version.value.to_be_bytes());
    bytes[VALUE..TREAD].copy_from_slice(&version.twrite.to_be_bytes());
    bytes[TREAD..SIZE].copy_from_slice(&version.tread.to_be_bytes());
    bytes
}

// The version in bytes of just the right number. An Option, as the splits of a slice are: an array would have each of the
// three unwrapped, and every caller make one.
pub(crate) fn unpack(bytes: &[u8]) -> Option<Version>
    ensures { result ≡ (if nat_eq (length bytes.now) version_size then Some (unpackedOf bytes.now) else None) }
{
    let (value, stamps) = bytes.split_first_chunk()?;
    let (twrite, tread) = stamps.split_first_chunk()?;
    Some(Version {
        value: Value::from_be_bytes(*value),
        twrite: Stamp::from_be_bytes(*twrite),
        tread: Stamp::from_be_bytes(*tread.as_array()?),
    })
}
