//! Messages that wait for an acknowledgement.
ghost use Rattle.std.specs.Prelude.{◌≡◌, ◌≤◌, ◌↔◌, drop, length, true, IfOk};

use crate::peer::MOST_WINDOW;
use arrayvec::ArrayVec;
use std::marker::Model;
use strm_msg::{Bytes, NoMem};

/// The bytes of a message that waits. Contracts see the bytes.
#[derive(Debug, Drop, PartialEq, Eq)]
pub(crate) struct Waiting {
    pub(crate) bytes: Bytes,
}

impl Model for Waiting {
    ghost use Rattle.std.specs.Prelude.{ℕ, List};

    ghost Value = { List ℕ };

    ghost view = { λ waiting. waiting.bytes };

    ghost inverse = { λ bytes. record { bytes = bytes } };
}

/// What fills a place that is empty.
impl Default for Waiting {
    fn default() -> Self {
        Waiting {
            bytes: Bytes::empty(),
        }
    }
}

/// Drops the first messages.
pub(crate) fn drop_first(waiting: &mut ArrayVec<Waiting, MOST_WINDOW>, count: usize)
    requires { count ≤ length waiting.old.items }
    ensures { waiting.new.items ≡ drop count waiting.old.items }
{
    for _ in 0..count {
        drop(waiting.remove(0));
    }
}

/// Equal messages, which share their bytes with these. Fails only where the bytes of one have more owners than
/// can be counted.
pub(crate) fn copied(
    waiting: &ArrayVec<Waiting, MOST_WINDOW>,
) -> Result<ArrayVec<Waiting, MOST_WINDOW>, NoMem>
    ensures { IfOk result (λ copy. copy.items ≡ waiting.now.items) }
{
    let mut copy = ArrayVec::new();
    for one in waiting.as_slice() {
        copy.push(Waiting {
            bytes: one.bytes.copy()?,
        });
    }
    Ok(copy)
}

/// Whether two messages are the same.
fn is_same(one: &Waiting, other: &Waiting) -> bool
    ensures { result ≡ true ↔ one.now ≡ other.now }
{
    one.bytes.as_slice() == other.bytes.as_slice()
}

/// Whether messages are the same, in the same order.
pub(crate) fn are_same(one: &[Waiting], other: &[Waiting]) -> bool
    ensures { result ≡ true ↔ one.now ≡ other.now }
{
    match (one.split_first(), other.split_first()) {
        (Some((first, one)), Some((message, other))) => {
            is_same(first, message) && are_same(one, other)
        }
        (None, None) => true,
        _ => false,
    }
}
