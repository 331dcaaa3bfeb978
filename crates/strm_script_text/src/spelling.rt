//! The spelling of bytes in a part.
ghost use Rattle.std.specs.Prelude.{◌≡◌, ◌<◌, ◌≤◌, length, take, IfOk};
ghost use Rattle.strm_script_text.specs.Spelling as spells;
ghost use Rattle.strm_script_text.specs.Writing.{Extends, Writes};

use crate::parts::is_itself;
use crate::runs::plain_len;
use std::io::{self, Write};

/// The hexadecimal digit of a number below 16, in lower case.
fn hex_digit(n: u8) -> u8
    requires { n < 16 }
    ensures { result ≡ spells.hex_digit n }
{
    if n < 10 { n + b'0' } else { n - 10 + b'a' }
}

/// Writes a byte by itself if it stands for itself, else as `%hh`.
fn write_byte<W: Write>(w: &mut W, byte: u8) -> io::Result<()>
    ensures { Writes W.contents w.old w.new result (spells.spelling_of byte) }
{
    if is_itself(byte) {
        return w.write_all(&[byte]);
    }
    w.write_all(&[b'%', hex_digit(byte / 16), hex_digit(byte % 16)])
}

/// Writes the bytes at the front that stand for themselves, or the first byte if it does not, and returns the
/// number of bytes written.
#[tactic(auto, using(crate::proofs::RunLemmas::plain_spelt))]
fn write_front<W: Write>(w: &mut W, bytes: &[u8]) -> io::Result<usize>
    requires { 0 < length bytes.now }
    ensures text { IfOk result (λ many. Extends W.contents w.old w.new (spells.spelling (take many bytes.now))) }
    ensures some { IfOk result (λ many. 0 < many) }
    ensures within { IfOk result (λ many. many ≤ length bytes.now) }
{
    let many = plain_len(bytes);
    if many == 0 {
        write_byte(w, bytes[0])?;
        return Ok(1);
    }
    w.write_all(&bytes[..many])?;
    Ok(many)
}

/// Writes the spelling of bytes. Bytes in a row that stand for themselves are written at once.
#[tactic(auto, using(crate::proofs::RunLemmas::spelt_then))]
fn write_bytes<W: Write>(w: &mut W, bytes: &[u8]) -> io::Result<()>
    ensures { Writes W.contents w.old w.new result (spells.spelling bytes.now) }
{
    let mut many = 0;
    while many < bytes.len() {
        many += write_front(w, &bytes[many..])?;
    }
    Ok(())
}

/// Writes bytes as a part: `=`, and then each byte by itself if it stands for itself, else as `%hh` with
/// digits in lower case.
#[tactic(auto, using(crate::proofs::WriteLemmas::appends_then))]
pub fn write_part<W: Write>(w: &mut W, bytes: &[u8]) -> io::Result<()>
    ensures { Writes W.contents w.old w.new result (spells.part_text bytes.now) }
{
    w.write_all(b"=")?;
    write_bytes(w, bytes)
}

/// States a law, and does nothing: the text of bytes as a part is read as these bytes.
pub fn parts_are_read_back()
    ensures { spells.PartsAreReadBack }
{}
