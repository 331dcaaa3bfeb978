//! Readers that fail, that are interrupted, that give few bytes at a time, and that never end.
use std::alloc::Global;
use std::io::{self, ErrorKind, Read};
use strm_script_parse::{LoadFault, load};

/// A script of few bytes.
const SCRIPT: &[u8] = b"stream s echo 5/4 5/4\nprocess p\n";

/// A reader of a script. One of its reads fails with this kind of error, and each other one gives at most
/// that many bytes.
#[derive(Drop)]
struct Pieces {
    rest: &'static [u8],
    most: usize,
    /// The number of reads before the one that fails.
    before: usize,
    kind: ErrorKind,
}

impl Read for Pieces {
    fn read(&mut self, buf: &mut [u8]) -> io::Result<usize> {
        let fails = self.before == 0;
        self.before = self.before.wrapping_sub(1);
        if fails {
            return Err(io::Error::from(self.kind));
        }
        let (piece, rest) = self
            .rest
            .split_at(self.most.min(self.rest.len()).min(buf.len()));
        buf[..piece.len()].copy_from_slice(piece);
        self.rest = rest;
        Ok(piece.len())
    }
}

/// The result of loading, if the read after `before` others fails in this way.
fn loaded(
    alloc: Global,
    most: usize,
    before: usize,
    kind: ErrorKind,
) -> Result<Vec<u8>, LoadFault> {
    let rest = SCRIPT;
    let pieces = Pieces {
        rest,
        most,
        before,
        kind,
    };
    load(alloc, pieces)
}

/// Whether a script that comes in pieces of at most `most` bytes is read whole if the read after `before`
/// others is interrupted, and is refused for another failure of that read.
fn is_read(alloc: Global, most: usize, before: usize) -> bool {
    let interrupted = loaded(alloc, most, before, ErrorKind::Interrupted);
    interrupted.is_ok_and(|script| script.as_slice() == SCRIPT)
        && loaded(alloc, most, before, ErrorKind::BrokenPipe) == Err(LoadFault::Read)
        && loaded(alloc, most, before, ErrorKind::OutOfMemory) == Err(LoadFault::NoMem)
}

/// The most bytes of a read, and the number of reads of a script of 32 bytes. The last read finds the end.
const READS: [(usize, usize); 3] = [(1, 33), (7, 6), (100, 2)];

#[test]
fn each_read_may_fail_or_be_interrupted(rt: HostRuntime) {
    for (most, reads) in READS {
        for before in 0..reads {
            assert!(rt; is_read(rt.alloc(), most, before));
        }
        assert!(rt; loaded(rt.alloc(), most, reads, ErrorKind::BrokenPipe).is_ok());
    }
}

/// The most bytes that are read: one more than the longest script has.
const LIMIT: usize = 1_048_577;

/// A reader that gives that many bytes, a thousand at a time, and then fails.
#[derive(Drop)]
struct Failing {
    left: usize,
}

impl Read for Failing {
    fn read(&mut self, buf: &mut [u8]) -> io::Result<usize> {
        if self.left == 0 {
            return Err(io::Error::from(ErrorKind::Other));
        }
        let given = self.left.min(1000).min(buf.len());
        buf[..given].fill(b'#');
        self.left -= given;
        Ok(given)
    }
}

/// The number of bytes that are read from a reader that fails after `left` bytes.
fn length(alloc: Global, left: usize) -> Option<usize> {
    match load(alloc, Failing { left }) {
        Ok(script) => Some(script.len()),
        Err(_) => None,
    }
}

#[test]
fn no_more_is_read_than_one_byte_over_the_longest_script(rt: HostRuntime) {
    assert!(rt; length(rt.alloc(), LIMIT) == Some(LIMIT));
    assert!(rt; length(rt.alloc(), LIMIT - 1).is_none());
}
