//! Things that scripts name by words.
ghost use Rattle.std.specs.Prelude.{◌≡◌, map};
ghost use Rattle.strm_script_words.specs.Fault.{Tells};
ghost use Rattle.strm_script_words.specs.Field.{keyword_at, value_at};
ghost use Rattle.strm_script_words.specs.Words.{named};

use crate::fault::Cause;
use strm_script_text::is_same_word;

/// A value that scripts and transcripts name by one word: a call, a flag, a kind of module.
pub trait Keyword: Copy + 'static {
    ghost use Rattle.std.specs.Prelude.{◌≡◌, ℕ, List};
    ghost use Rattle.strm_script_words.specs.Words.{AreEnough};

    // The word of each value.
    ghost word: { Self → List ℕ };

    // The values that a script may name.
    ghost all: { List Self };

    /// The word of the value.
    fn word(self) -> &'static [u8]
        ensures { result.now ≡ word self };

    /// The values that a script may name.
    fn all() -> &'static [Self]
        ensures { result.now ≡ all };

    /// The values among which a text of this length is looked for: all, or those whose words have this
    /// length.
    #[inline(always)]
    fn of_length(len: usize) -> &'static [Self]
        ensures { AreEnough word all len result.now }
    {
        Self::all()
    }
}

/// The first of these values that has this word; nothing if none has.
#[inline(always)]
fn first_named<W: Keyword>(all: &[W], text: &[u8]) -> Option<W>
    ensures { result ≡ named W.word all.now text.now }
{
    for one in all {
        if is_same_word(one.word(), text) {
            return Some(*one);
        }
    }
    None
}

/// The value of this word; nothing if the word names none.
#[inline(always)]
pub fn from_keyword<W: Keyword>(text: &[u8]) -> Option<W>
    ensures { result ≡ named W.word W.all text.now }
{
    first_named(W::of_length(text.len()), text)
}

/// The value of this word. Refused if the word names none.
pub(crate) fn keyword_at<W: Keyword>(text: &[u8]) -> Result<W, Cause>
    ensures choice { Tells W.word result (keyword_at (map W.word W.all) text.now) }
    ensures value { Tells (λ one. one) result (value_at W.word W.all text.now) }
{
    match from_keyword(text) {
        Some(one) => Ok(one),
        None => Err(Cause::UnknownWord),
    }
}
