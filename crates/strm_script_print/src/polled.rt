//! The state of an end as poll(2) reports it.
ghost use Rattle.std.specs.Prelude.{◌≡◌, ◌∷◌, ◌++◌, [], ◌≤◌, ◌+◌, length};
ghost use Rattle.strm_script_words.specs.Field.{Word};
ghost use Rattle.strm_script_print.specs.LineBuffer.{AddsFields};
ghost use Rattle.strm_script_print.specs.Replies.{with_word, joined, poll_flags, poll_word};

use crate::field::add_word;
use crate::line_buffer::LineBuffer;
use arrayvec::ArrayVec;
use std::io::Write;
use strm_head_calls::Polled;

/// A number of bytes that is greater than that of all words together.
const LONGEST: usize = 64;

/// Appends bytes. There is room for them.
fn put(so_far: &mut ArrayVec<u8, LONGEST>, bytes: &[u8])
    requires { length so_far.old.items + length bytes.now ≤ LONGEST }
    ensures { so_far.new.items ≡ so_far.old.items ++ bytes.now }
{
    match so_far.try_extend_from_slice(bytes) {
        Ok(()) => {}
        Err(_) => unreachable!(),
    }
}

/// Appends the word of a flag, with a `+` between, if the flag holds.
fn put_word(so_far: &mut ArrayVec<u8, LONGEST>, holds: bool, word: &[u8])
    requires { length so_far.old.items + length word.now + 1 ≤ LONGEST }
    ensures text { so_far.new.items ≡ with_word holds word.now so_far.old.items }
    ensures len { length so_far.new.items ≤ length so_far.old.items + length word.now + 1 }
{
    if !holds {
        return;
    }
    if !so_far.is_empty() {
        put(so_far, b"+");
    }
    put(so_far, word);
}

/// The words of the flags that hold, joined by `+`.
fn words_of(told: Polled) -> ArrayVec<u8, LONGEST>
    ensures { result.items ≡ joined [] (poll_flags told) }
{
    let mut so_far = ArrayVec::new();
    put_word(&mut so_far, told.is_in(), b"in");
    put_word(&mut so_far, told.is_rdnorm(), b"rdnorm");
    put_word(&mut so_far, told.is_rdband(), b"rdband");
    put_word(&mut so_far, told.is_pri(), b"pri");
    put_word(&mut so_far, told.out, b"out");
    put_word(&mut so_far, told.wrband, b"wrband");
    put_word(&mut so_far, told.err, b"err");
    put_word(&mut so_far, told.hup, b"hup");
    put_word(&mut so_far, told.nval, b"nval");
    so_far
}

/// Adds the words of the flags that hold, joined by `+`; `0` if none holds.
pub(crate) fn add_polled<W: Write>(w: &mut W, out: &mut LineBuffer, told: Polled)
    ensures { AddsFields W.contents w.old w.new out.old out.new (Word (poll_word told) ∷ []) }
{
    let words = words_of(told);
    if words.is_empty() {
        add_word(w, out, b"0");
    } else {
        add_word(w, out, words.as_slice());
    }
}
