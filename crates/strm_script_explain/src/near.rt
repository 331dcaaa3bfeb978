//! Words that are nearly the same.
ghost use Rattle.std.specs.Prelude.{◌≡◌, find};
ghost use Rattle.std.specs.Option.{option_map};
ghost use Rattle.strm_script_text.specs.Text.{texts_of};
ghost use Rattle.strm_script_explain.specs.Near as near;

/// Whether two texts differ in that their first two bytes change places.
fn is_swapped(text: &[u8], word: &[u8]) -> bool
    ensures { result ≡ near.is_swapped text.now word.now }
{
    match (text, word) {
        ([first, second, text @ ..], [one, other, word @ ..]) => {
            first == other && second == one && text == word
        }
        _ => false,
    }
}

/// Whether two texts differ in one edit at their beginning: a byte too many, one that is missing, another
/// one, or two that change places.
fn is_edited(text: &[u8], word: &[u8]) -> bool
    ensures { result ≡ near.is_edited text.now word.now }
{
    match (text, word) {
        ([_, text_rest @ ..], [_, word_rest @ ..]) => {
            text_rest == word
                || text == word_rest
                || text_rest == word_rest
                || is_swapped(text, word)
        }
        _ => text.len() + word.len() == 1,
    }
}

/// Whether two texts differ in one edit.
fn is_near(text: &[u8], word: &[u8]) -> bool
    ensures { result ≡ near.is_near text.now word.now }
{
    match (text, word) {
        ([first, text @ ..], [one, word @ ..]) if first == one => is_near(text, word),
        _ => is_edited(text, word),
    }
}

/// Whether a text is nearly a word: but for capital letters, or in one edit. One byte is not nearly another.
fn is_meant(text: &[u8], word: &[u8]) -> bool
    ensures { result ≡ near.is_meant text.now word.now }
{
    text.eq_ignore_ascii_case(word) || text.len() + word.len() > 2 && is_near(text, word)
}

/// The first of some words that a text nearly is.
pub(crate) fn meant<'a>(text: &[u8], words: &[&'a [u8]]) -> Option<&'a [u8]>
    ensures { option_map (λ word. word.now) result ≡ find (near.is_meant text.now) (texts_of words.now) }
{
    for word in words {
        if is_meant(text, word) {
            return Some(*word);
        }
    }
    None
}
