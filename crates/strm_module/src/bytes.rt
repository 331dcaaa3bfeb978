//! Bytes mapped, with CR LF for LF and back, and in lines.
ghost use Rattle.std.specs.Prelude.{◌≡◌, ◌≤◌, ◌++◌, length, IfOk};
ghost use Rattle.strm_module.specs.Bytes.{mapped, with_cr, without_cr, rest_len};

use std::alloc::{AllocError, Global};

const CR: u8 = b'\r';

const LF: u8 = b'\n';

/// Each byte as the table gives it. Fails only when memory runs out.
pub(crate) fn map_bytes(
    alloc: Global,
    table: &[u8; 256],
    bytes: &[u8],
) -> Result<Vec<u8>, AllocError>
    ensures { IfOk result (λ out. out.items ≡ mapped table.now bytes.now) }
{
    let mut out = Vec::new(alloc);
    for b in bytes {
        out.push(table[usize::from(*b)])?;
    }
    Ok(out)
}

/// The bytes with CR LF for each LF. Fails only when memory runs out.
pub(crate) fn add_cr(alloc: Global, bytes: &[u8]) -> Result<Vec<u8>, AllocError>
    ensures { IfOk result (λ out. out.items ≡ with_cr bytes.now) }
{
    let mut out = Vec::new(alloc);
    for b in bytes {
        if *b == LF {
            out.push(CR)?;
        }
        out.push(*b)?;
    }
    Ok(out)
}

/// The bytes without each CR that an LF directly follows. Fails only when memory runs out.
pub(crate) fn drop_cr(alloc: Global, bytes: &[u8]) -> Result<Vec<u8>, AllocError>
    ensures { IfOk result (λ out. out.items ≡ without_cr bytes.now) }
{
    let mut out = Vec::new(alloc);
    for (i, b) in bytes.iter().enumerate() {
        if !(*b == CR && bytes.get(i + 1) == Some(&LF)) {
            out.push(*b)?;
        }
    }
    Ok(out)
}

/// The number of bytes after the last LF.
pub(crate) fn rest_len(bytes: &[u8]) -> usize
    ensures value { result ≡ rest_len bytes.now }
    ensures within { result ≤ length bytes.now }
{
    let mut rest = 0;
    for b in bytes {
        rest = if *b == LF { 0 } else { rest + 1 };
    }
    rest
}

/// One list of bytes behind another. Fails only when memory runs out.
pub(crate) fn joined(alloc: Global, front: &[u8], back: &[u8]) -> Result<Vec<u8>, AllocError>
    ensures { IfOk result (λ out. out.items ≡ front.now ++ back.now) }
{
    let mut out = Vec::from_slice(alloc, front)?;
    out.extend_from_slice(back)?;
    Ok(out)
}
