//! Parts: the bytes that a field spells.
ghost use Rattle.std.specs.Prelude.{◌≡◌, ◌<◌, ◌≤◌, ◌++◌, length, take, true, IfOk, IfSome, Some};
ghost use Rattle.std.specs.Option.{option_map};
ghost use Rattle.std.specs.List.{list_all};
ghost use Rattle.strm_script_text.specs.Bytes.{hex_of, is_itself};
ghost use Rattle.strm_script_text.specs.Text.{byte_of, bytes_of, found_bytes, next_byte, part_of};
ghost use Rattle.strm_script_text.specs.Text.{repeated_of, times_of};

use crate::lines::split_once;
use crate::runs::plain_len;
use crate::words::number;
use std::alloc::{AllocError, Global};

/// The most times that a part repeats a byte.
const MOST_TIMES: u64 = 65_535;

/// Whether a byte stands for itself.
pub(crate) fn is_itself(byte: u8) -> bool
    ensures { result ≡ is_itself byte }
{
    byte.is_ascii_graphic() && byte != b'%'
}

/// The value of a hexadecimal digit, of either case.
fn hex(byte: u8) -> Option<u8>
    ensures { result ≡ hex_of byte }
{
    match byte {
        b'0'..=b'9' => Some(byte - b'0'),
        b'a'..=b'f' => Some(byte - b'a' + 10),
        b'A'..=b'F' => Some(byte - b'A' + 10),
        _ => None,
    }
}

/// The byte that two hexadecimal digits spell.
fn byte_of(high: u8, low: u8) -> Option<u8>
    ensures { result ≡ byte_of high low }
{
    let high = hex(high)?;
    let low = hex(low)?;
    Some(high * 16 + low)
}

/// The byte at the front, by itself or as `%hh`, and the text behind it.
fn next_byte(text: &[u8]) -> Option<(u8, &[u8])>
    ensures byte { option_map (λ found. (found.0, found.1.now)) result ≡ next_byte text.now }
    ensures shorter { IfSome result (λ found. length found.1.now < length text.now) }
{
    match text {
        [byte, rest @ ..] if is_itself(*byte) => Some((*byte, rest)),
        [b'%', high, low, rest @ ..] => Some((byte_of(*high, *low)?, rest)),
        _ => None,
    }
}

/// Appends the bytes at the front that stand for themselves, and returns their number. Fails only when memory
/// runs out.
#[inline(always)]
fn take_run(all: &mut Vec<u8>, text: &[u8]) -> Result<usize, AllocError>
    ensures items { IfOk result (λ many. all.new.items ≡ all.old.items ++ take many text.now) }
    ensures plain { IfOk result (λ many. list_all is_itself (take many text.now) ≡ true) }
    ensures within { IfOk result (λ many. many ≤ length text.now) }
{
    let many = plain_len(text);
    if many > 0 {
        all.extend_from_slice(&text[..many])?;
    }
    Ok(many)
}

/// The bytes that a text spells; nothing if it does not spell bytes. Fails only when memory runs out.
fn spelt(alloc: Global, text: &[u8]) -> Result<Option<Vec<u8>>, AllocError>
    ensures { IfOk result (λ found. found_bytes found ≡ bytes_of text.now) }
{
    let mut all = Vec::new(alloc);
    let many = take_run(&mut all, text)?;
    let mut rest = &text[many..];
    while !rest.is_empty() {
        let Some((byte, after)) = next_byte(rest) else {
            return Ok(None);
        };
        all.push(byte)?;
        let many = take_run(&mut all, after)?;
        rest = &after[many..];
    }
    Ok(Some(all))
}

/// The number and the byte of `N:hh`.
fn times(text: &[u8]) -> Option<(u64, u8)>
    ensures { result ≡ times_of text.now }
{
    let (count, digits) = split_once(text, b':')?;
    let count = number(count, MOST_TIMES)?;
    let [high, low] = digits else {
        return None;
    };
    Some((count, byte_of(*high, *low)?))
}

/// The byte of `N:hh`, repeated N times. Fails only when memory runs out.
fn repeated(alloc: Global, text: &[u8]) -> Result<Option<Vec<u8>>, AllocError>
    ensures { IfOk result (λ found. found_bytes found ≡ repeated_of text.now) }
{
    let Some((count, byte)) = times(text) else {
        return Ok(None);
    };
    Ok(Some(vec![in alloc; byte; count as usize]?))
}

/// The bytes that a text spells, where they are, if each of them stands for itself.
fn plain(text: &[u8]) -> Option<&[u8]>
    ensures { IfSome result (λ bytes. bytes_of text.now ≡ Some bytes.now) }
{
    if plain_len(text) < text.len() {
        return None;
    }
    Some(text)
}

/// The bytes of a part, where they are, if it is `=` and bytes that stand for themselves.
pub fn plain_part(text: &[u8]) -> Option<&[u8]>
    ensures { IfSome result (λ bytes. part_of text.now ≡ Some bytes.now) }
{
    match text {
        [b'=', rest @ ..] => plain(rest),
        _ => None,
    }
}

/// The bytes of a part: `=` and their spelling, or `*N:hh`; nothing if the text is no part. Fails only when
/// memory runs out.
pub fn part(alloc: Global, text: &[u8]) -> Result<Option<Vec<u8>>, AllocError>
    ensures { IfOk result (λ found. found_bytes found ≡ part_of text.now) }
{
    match text {
        [b'=', rest @ ..] => spelt(alloc, rest),
        [b'*', rest @ ..] => repeated(alloc, rest),
        _ => Ok(None),
    }
}
