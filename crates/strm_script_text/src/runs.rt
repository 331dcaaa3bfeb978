//! Runs of bytes that stand for themselves.
ghost use Rattle.std.specs.Prelude.{◌≡◌, ◌≤◌, length, take, true};
ghost use Rattle.std.specs.List.{list_all};
ghost use Rattle.strm_script_text.specs.Bytes.{is_itself};

use crate::parts::is_itself;

/// The number of bytes that are examined together.
const BLOCK: usize = 32;

/// Whether all bytes stand for themselves in a part. All of them are examined, also behind one that does not,
/// so that one instruction can examine many.
pub fn are_plain(bytes: &[u8]) -> bool
    ensures { result ≡ list_all is_itself bytes.now }
{
    let mut plain = true;
    for byte in bytes {
        plain = plain & is_itself(*byte);
    }
    plain
}

/// The number of bytes at the front that stand for themselves, block by block.
fn plain_blocks(bytes: &[u8]) -> usize
    ensures within { result ≤ length bytes.now }
    ensures plain { list_all is_itself (take result bytes.now) ≡ true }
{
    let mut many = 0;
    while bytes.len() - many >= BLOCK && are_plain(&bytes[many..many + BLOCK]) {
        many += BLOCK;
    }
    many
}

/// The number of bytes at the front that stand for themselves, byte by byte.
fn plain_bytes(bytes: &[u8]) -> usize
    ensures within { result ≤ length bytes.now }
    ensures plain { list_all is_itself (take result bytes.now) ≡ true }
{
    for (many, byte) in bytes.iter().enumerate() {
        if !is_itself(*byte) {
            return many;
        }
    }
    bytes.len()
}

/// The number of bytes at the front that stand for themselves.
pub(crate) fn plain_len(bytes: &[u8]) -> usize
    ensures within { result ≤ length bytes.now }
    ensures plain { list_all is_itself (take result bytes.now) ≡ true }
{
    let blocks = plain_blocks(bytes);
    blocks + plain_bytes(&bytes[blocks..])
}
