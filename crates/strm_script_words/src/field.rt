//! The values that fields spell: numbers, parts, marks.
ghost use Rattle.std.specs.Prelude.{◌≡◌, ◌≤◌, IfSome};
ghost use Rattle.strm_script_text.specs.Text.{number_of};
ghost use Rattle.strm_script_words.specs.Fault.{Gives, Tells};
ghost use Rattle.strm_script_words.specs.Field as fields;

use crate::fault::{Cause, ReadError};
use std::alloc::Global;
use strm_msg::{Bytes, Marks};
use strm_script_text::{number, part, plain_part, split_once};

/// The greatest band.
pub const MOST_BAND: u64 = 255;

/// The most bytes that a call can ask for.
pub const MOST_ASKED: u64 = 65_535;

/// The greatest water mark, and the greatest command of an ioctl.
pub const MOST_U32: u64 = 4_294_967_295;

/// A number of at most `most`; nothing if the text is none.
fn number_upto(text: &[u8], most: u64) -> Option<u64>
    ensures value { result ≡ number_of most text.now }
    ensures small { IfSome result (λ n. n ≤ most) }
{
    number(text, most)
}

/// A number of at most `most`. Refused if the text is none.
pub fn number_at(text: &[u8], most: u64) -> Result<u64, Cause>
    ensures { Tells (λ n. n) result (fields.number_at most text.now) }
{
    match number_upto(text, most) {
        Some(n) => Ok(n),
        None => Err(Cause::Number),
    }
}

/// A number up to `MOST_BAND`. Refused if the text is none.
pub fn u8_at(text: &[u8]) -> Result<u8, Cause>
    ensures { Tells (λ n. n) result (fields.number_at MOST_BAND text.now) }
{
    match number_upto(text, MOST_BAND) {
        Some(n) => Ok(n as u8),
        None => Err(Cause::Number),
    }
}

/// A number up to `MOST_ASKED`. Refused if the text is none.
pub fn u16_at(text: &[u8]) -> Result<u16, Cause>
    ensures { Tells (λ n. n) result (fields.number_at MOST_ASKED text.now) }
{
    match number_upto(text, MOST_ASKED) {
        Some(n) => Ok(n as u16),
        None => Err(Cause::Number),
    }
}

/// A number up to `MOST_U32`. Refused if the text is none.
pub fn u32_at(text: &[u8]) -> Result<u32, Cause>
    ensures { Tells (λ n. n) result (fields.number_at MOST_U32 text.now) }
{
    match number_upto(text, MOST_U32) {
        Some(n) => Ok(n as u32),
        None => Err(Cause::Number),
    }
}

/// The bytes of a part. Refused if the text is none, and when memory runs out.
#[inline(always)]
pub fn part_at(alloc: Global, text: &[u8]) -> Result<Bytes, ReadError>
    ensures { Gives (λ bytes. bytes) result (fields.part_at text.now) }
{
    if let Some(plain) = plain_part(text) {
        return Ok(Bytes::from_slice(alloc, plain)?);
    }
    match part(alloc, text)? {
        Some(bytes) => Ok(Bytes::from_vec(alloc, bytes)?),
        None => Err(ReadError::Fault(Cause::Part)),
    }
}

/// The bytes of a part, or none for `-`. Refused if the text is neither, and when memory runs out.
pub(crate) fn optional_at(alloc: Global, text: &[u8]) -> Result<Option<Bytes>, ReadError>
    ensures { Gives (λ part. part) result (fields.optional_at text.now) }
{
    if text == b"-".as_slice() {
        return Ok(None);
    }
    Ok(Some(part_at(alloc, text)?))
}

/// A number up to `MOST_ASKED`, or none for `-1`. Refused if the text is neither.
pub(crate) fn maximum_at(text: &[u8]) -> Result<Option<u16>, Cause>
    ensures { Tells (λ most. most) result (fields.maximum_at text.now) }
{
    if text == b"-1".as_slice() {
        return Ok(None);
    }
    Ok(Some(u16_at(text)?))
}

/// The water marks of `HI/LO`. Refused if a mark is no number, then if the low mark is not below the high
/// one.
fn water_at(text: &[u8]) -> Result<Marks, Cause>
    ensures { Tells fields.pair_of result (fields.marks_at text.now) }
{
    let Some((high, low)) = split_once(text, b'/') else {
        return Err(Cause::Number);
    };
    let high = u32_at(high)?;
    let low = u32_at(low)?;
    match Marks::new(high, low) {
        Some(marks) => Ok(marks),
        None => Err(Cause::Marks),
    }
}

/// The high and the low mark of `HI/LO`. Refused if a mark is no number up to `MOST_U32`, then if the low
/// mark is not below the high one.
pub fn marks_at(text: &[u8]) -> Result<(u32, u32), Cause>
    ensures { Tells (λ marks. marks) result (fields.marks_at text.now) }
{
    let marks = water_at(text)?;
    Ok((marks.hi, marks.lo))
}

/// The high and the low mark of `HI/LO`, or none for `-`. Refused as `marks_at` refuses.
pub(crate) fn optional_marks_at(text: &[u8]) -> Result<Option<(u32, u32)>, Cause>
    ensures { Tells (λ marks. marks) result (fields.optional_marks_at text.now) }
{
    if text == b"-".as_slice() {
        return Ok(None);
    }
    Ok(Some(marks_at(text)?))
}

/// The water marks of a side, or none for `-`. Refused as `marks_at` refuses.
pub(crate) fn side_at(text: &[u8]) -> Result<Option<Marks>, Cause>
    ensures { Tells (λ side. side) result (fields.side_at text.now) }
{
    if text == b"-".as_slice() {
        return Ok(None);
    }
    Ok(Some(water_at(text)?))
}

/// The bytes of a part of at most `most` bytes. Refused if the text is none, and when memory runs out.
#[tactic(auto, unfolding(crate::specs::Field::part_upto))]
pub(crate) fn part_upto(alloc: Global, text: &[u8], most: usize) -> Result<Bytes, ReadError>
    ensures { Gives (λ bytes. bytes) result (fields.part_upto most text.now) }
{
    let bytes = part_at(alloc, text)?;
    if bytes.len() > most {
        return Err(ReadError::Fault(Cause::Part));
    }
    Ok(bytes)
}

/// The bytes of a part of at most `most` bytes, or none for `-`. Refused if the text is neither, and when
/// memory runs out.
pub(crate) fn optional_upto(
    alloc: Global,
    text: &[u8],
    most: usize,
) -> Result<Option<Bytes>, ReadError>
    ensures { Gives (λ part. part) result (fields.optional_upto most text.now) }
{
    if text == b"-".as_slice() {
        return Ok(None);
    }
    Ok(Some(part_upto(alloc, text, most)?))
}
