//! Bytes and errors, and their texts.
use super::Sample::Data;
use super::{bytes, check, message};
use std::alloc::Global;
use std::fmt::{Debug, Display};
use std::process::Abort;
use strm_msg::{Bytes, Errno, NoMem, Prot, ReadMode};

/// Whether bytes are these.
fn are_kept(made: Bytes, want: &[u8]) -> bool {
    let has_length = made.len() == want.len() && made.is_empty() == want.is_empty();
    let are_so = has_length && made.as_slice() == want;
    drop(made);
    are_so
}

/// Bytes that are made of a vector.
fn of_vector(rt: &impl Abort, alloc: Global, want: &[u8]) -> Bytes {
    let items = Vec::from_slice(alloc, want).expect(rt, "no memory for a vector");
    Bytes::from_vec(alloc, items).expect(rt, "no memory for bytes")
}

/// Whether bytes that are copied or made of a vector are these and are equal, and are not the others.
fn all_are_kept(rt: &impl Abort, alloc: Global, want: &[u8], other: &[u8]) -> bool {
    let copied = bytes(rt, alloc, want);
    let copy = copied.copy().expect(rt, "no memory for a copy");
    let made = of_vector(rt, alloc, want);
    let differs = made != bytes(rt, alloc, other);
    let are_equal = copy == copied && made == copied;
    are_kept(copied, want) && are_kept(copy, want) && are_kept(made, want) && are_equal && differs
}

const LONG: &[u8] = b"a line of some thirty-two bytes.";

// By hand: the bytes are the ones that were put in, in order.
#[test]
fn bytes_keep_what_they_were_made_of(rt: HostRuntime) {
    assert!(rt; all_are_kept(&rt, rt.alloc(), b"abc", b"abd"));
    assert!(rt; all_are_kept(&rt, rt.alloc(), b"", b"a"));
    assert!(rt; all_are_kept(&rt, rt.alloc(), LONG, b"a line of some thirty-two bytes!"));
}

/// A range, a range of that one, and its bytes.
type RangeRow = ((usize, usize), (usize, usize), &'static [u8]);

// Counted by hand.
const RANGES: &[RangeRow] = &[
    ((0, 32), (0, 32), LONG),
    ((0, 32), (31, 32), b"."),
    ((0, 0), (0, 0), b""),
    ((2, 19), (0, 17), b"line of some thir"),
    ((2, 32), (5, 22), b"of some thirty-tw"),
    ((2, 32), (13, 30), b"thirty-two bytes."),
    ((2, 32), (30, 30), b""),
    ((2, 18), (0, 16), b"line of some thi"),
    ((2, 18), (1, 3), b"in"),
];

/// The bytes of a range that lies within others.
fn range_of(rt: &impl Abort, alloc: Global, whole: &Bytes, range: (usize, usize)) -> Bytes {
    assert!(rt; range.0 <= range.1 && range.1 <= whole.len());
    whole
        .slice(alloc, range.0, range.1)
        .expect(rt, "no memory for a range")
}

/// Whether these are the bytes of a range of a range of bytes, also when the whole is gone.
fn has_range(rt: &impl Abort, alloc: Global, whole: Bytes, row: &RangeRow) -> bool {
    let (first, second, want) = *row;
    let outer = range_of(rt, alloc, &whole, first);
    let inner = range_of(rt, alloc, &outer, second);
    drop(whole);
    drop(outer);
    are_kept(inner, want)
}

#[test]
fn ranges_of_bytes_are_shared(rt: HostRuntime) {
    for (i, row) in RANGES.iter().enumerate() {
        let copied = bytes(&rt, rt.alloc(), LONG);
        let made = of_vector(&rt, rt.alloc(), LONG);
        check(&rt, ("copied", i), has_range(&rt, rt.alloc(), copied, row));
        check(&rt, ("made", i), has_range(&rt, rt.alloc(), made, row));
    }
}

// The names of errno.h, typed by hand.
const NAMES: &[(Errno, &str)] = &[
    (Errno::EBADF, "EBADF"),
    (Errno::ENOSR, "ENOSR"),
    (Errno::EINVAL, "EINVAL"),
    (Errno::ERANGE, "ERANGE"),
    (Errno::ENXIO, "ENXIO"),
    (Errno::EBADMSG, "EBADMSG"),
    (Errno::ENODATA, "ENODATA"),
    (Errno::EAGAIN, "EAGAIN"),
    (Errno::ETIME, "ETIME"),
    (Errno::EIO, "EIO"),
    (Errno::EPROTO, "EPROTO"),
];

/// Whether this is the displayed text of a value.
pub(super) fn is_displayed<T: Display>(
    rt: &impl Abort,
    alloc: Global,
    value: &T,
    want: &str,
) -> bool {
    let text = format!(in alloc; "{value}").expect(rt, "no memory for a text");
    text.as_str() == want
}

#[test]
fn errors_are_printed_by_name(rt: HostRuntime) {
    for (i, (errno, name)) in NAMES.iter().enumerate() {
        let is_named = errno.name() == *name && is_displayed(&rt, rt.alloc(), errno, name);
        check(&rt, ("errors", i), is_named);
    }
}

fn is_padded(rt: &impl Abort, alloc: Global, errno: Errno, want: &str) -> bool {
    let padded = format!(in alloc; "{errno:>6}|").expect(rt, "no memory for a text");
    padded.as_str() == want
}

#[test]
fn an_error_is_padded_and_want_of_memory_printed(rt: HostRuntime) {
    assert!(rt; is_padded(&rt, rt.alloc(), Errno::EIO, "   EIO|"));
    assert!(rt; is_displayed(&rt, rt.alloc(), &NoMem, "no memory"));
}

// The escapes are those of the example in the documentation of Rust's `escape_ascii`.
const PRINTED: &[(&[u8], &str)] = &[
    (b"", "b\"\""),
    (b"ab\n", "b\"ab\\n\""),
    (b"0\t\r\n'\"\\\x9d", "b\"0\\t\\r\\n\\'\\\"\\\\\\x9d\""),
];

/// Whether this is the debug text of a value.
fn is_printed<T: Debug>(rt: &impl Abort, alloc: Global, value: &T, want: &str) -> bool {
    let printed = format!(in alloc; "{value:?}").expect(rt, "no memory for a text");
    printed.as_str() == want
}

#[test]
fn bytes_are_printed_as_a_byte_string(rt: HostRuntime) {
    for (part, text) in PRINTED {
        let part = bytes(&rt, rt.alloc(), part);
        assert!(rt; is_printed(&rt, rt.alloc(), &part, text));
    }
}

const MESSAGE: &str = "Message { kind: MData, band: 7, ctl: None, dat: Some(b\"a\\x00\") }";

#[test]
fn a_message_is_printed_with_its_bytes(rt: HostRuntime) {
    let m = message(&rt, rt.alloc(), Data(7, b"a\0"));
    let is_so = is_printed(&rt, rt.alloc(), &m, MESSAGE);
    drop(m);
    assert!(rt; is_so);
}

// By the rule that a stream is read as a byte stream at first, and refuses control parts.
#[test]
fn reading_begins_as_a_byte_stream(rt: HostRuntime) {
    assert!(rt; ReadMode::default() == ReadMode::Rnorm && Prot::default() == Prot::Norm);
}
