//! Datagrams as frames, and back (RFC 1055).
ghost use Rattle.std.specs.Prelude.{◌≡◌, ℕ, List, ◌++◌, IfOk, OnOk, option_map};
ghost use Rattle.port_slip.specs.Frame.{escaped_byte, framed, meant_by, unescaped, cut, begun, first_of, holds_frame};

use std::alloc::{AllocError, Global};

/// The byte that ends a frame.
const END: u8 = 192;

/// The byte behind which the next byte stands for another.
const ESC: u8 = 219;

/// The byte that stands for an END of the datagram, behind an ESC.
const ESC_END: u8 = 220;

/// The byte that stands for an ESC of the datagram, behind an ESC.
const ESC_ESC: u8 = 221;

/// The most bytes of a datagram.
pub const LONGEST_DATAGRAM: usize = 1006;

/// Appends a byte of a datagram to a frame.
fn push_escaped(out: &mut Vec<u8>, b: u8) -> Result<(), AllocError>
    ensures { OnOk result (out.new.items ≡ out.old.items ++ escaped_byte b) }
{
    if b == END {
        out.push(ESC)?;
        out.push(ESC_END)?;
    } else if b == ESC {
        out.push(ESC)?;
        out.push(ESC_ESC)?;
    } else {
        out.push(b)?;
    }
    Ok(())
}

/// A datagram as a frame: an END, its bytes with END and ESC escaped, and an END. RFC 1055 advises the END in
/// front. It ends the noise that may be left at the receiver. Fails only when memory runs out.
pub fn frame(alloc: Global, datagram: &[u8]) -> Result<Vec<u8>, AllocError>
    ensures { IfOk result (λ frame. frame.items ≡ framed datagram.now) }
{
    let mut out = Vec::new(alloc);
    out.push(END)?;
    for b in datagram {
        push_escaped(&mut out, *b)?;
    }
    out.push(END)?;
    Ok(out)
}

/// The byte that a byte behind an ESC stands for.
fn meant_by(b: u8) -> u8
    ensures { result ≡ meant_by b }
{
    match b {
        ESC_END => END,
        ESC_ESC => ESC,
        _ => b,
    }
}

/// The datagram of a frame's bytes.
fn unescape(alloc: Global, frame: &[u8]) -> Result<Vec<u8>, AllocError>
    ensures { IfOk result (λ datagram. datagram.items ≡ unescaped frame.now) }
{
    let mut out = Vec::new(alloc);
    let mut is_behind_esc = false;
    for b in frame {
        if is_behind_esc {
            out.push(meant_by(*b))?;
            is_behind_esc = false;
        } else if *b == ESC {
            is_behind_esc = true;
        } else {
            out.push(*b)?;
        }
    }
    if is_behind_esc {
        out.push(ESC)?;
    }
    Ok(out)
}

/// The bytes before the first END, and those behind it.
fn cut(bytes: &[u8]) -> Option<(&[u8], &[u8])>
    ensures { option_map (λ c. (c.0.now, c.1.now)) result ≡ cut bytes.now }
{
    for (i, b) in bytes.iter().enumerate() {
        if *b == END {
            return Some((&bytes[..i], &bytes[i + 1..]));
        }
    }
    None
}

/// The bytes without the ENDs in front.
pub(crate) fn begun(bytes: &[u8]) -> &[u8]
    ensures { result.now ≡ begun bytes.now }
{
    for (i, b) in bytes.iter().enumerate() {
        if *b != END {
            return &bytes[i..];
        }
    }
    &[]
}

/// Whether bytes from a line hold the end of a frame.
pub(crate) fn holds_frame(bytes: &[u8]) -> bool
    ensures { result ≡ holds_frame bytes.now }
{
    cut(begun(bytes)).is_some()
}

/// The first datagram of bytes from a line, and the bytes behind its frame; none if no frame ends. As in the
/// receiver of RFC 1055, frames without bytes are passed over, and of a datagram over 1006 bytes the first
/// 1006 are returned. Fails only when memory runs out.
pub fn first_datagram(alloc: Global, bytes: &[u8]) -> Result<Option<(Vec<u8>, &[u8])>, AllocError>
    ensures { IfOk result (λ first. option_map {U = List ℕ × List ℕ} (λ f. (f.0.items, f.1.now)) first ≡ first_of bytes.now) }
{
    let Some((frame, behind)) = cut(begun(bytes)) else {
        return Ok(None);
    };
    let mut datagram = unescape(alloc, frame)?;
    datagram.truncate(LONGEST_DATAGRAM);
    Ok(Some((datagram, behind)))
}
