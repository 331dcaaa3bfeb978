//! The lengths of parts, and bytes at the front of a buffer.
ghost use Rattle.std.specs.Prelude.{◌≡◌, option_copied};
ghost use Rattle.strm_c_numbers.specs.Numbers as numbers;
ghost use Rattle.strm_c_numbers.specs.Bytes.{filled, filled_if};

use crate::numbers::int_of;
use strm_msg::Bytes;

/// Writes bytes to the front of a buffer, as many as it has room for.
pub fn fill(buffer: &mut [u8], bytes: &[u8])
    ensures { buffer.new ≡ filled bytes.now buffer.old }
{
    let n = buffer.len().min(bytes.len());
    buffer[..n].copy_from_slice(&bytes[..n]);
}

/// The length of a part, -1 if there is none.
pub fn length_of(part: Option<&Bytes>) -> i32
    ensures { result ≡ numbers.length_of (option_copied part.entry) }
{
    match part {
        Some(bytes) => int_of(bytes.len() as u64),
        None => -1,
    }
}

/// Writes a part to the front of a buffer, if there is one, and returns its length, -1 if there is none.
pub fn fill_part(buffer: &mut [u8], part: Option<&Bytes>) -> i32
    ensures bytes { buffer.new ≡ filled_if (option_copied part.entry) buffer.old }
    ensures length { result ≡ numbers.length_of (option_copied part.entry) }
{
    match part {
        Some(bytes) => {
            fill(buffer, bytes.as_slice());
            int_of(bytes.len() as u64)
        }
        None => -1,
    }
}
