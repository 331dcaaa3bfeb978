//! Words, numbers and names.
ghost use Rattle.std.specs.Prelude.{◌≡◌, ◌↔◌, true};
ghost use Rattle.std.specs.Option.{option_map};
ghost use Rattle.std.specs.List.{list_all};
ghost use Rattle.strm_script_text.specs.Bytes as bytes;
ghost use Rattle.strm_script_text.specs.Text.{name_of, name_text, number_of};

use arrayvec::ArrayVec;

/// The most digits of a number.
const MOST_DIGITS: usize = 20;

/// Whether a byte is a digit.
fn is_digit(byte: u8) -> bool
    ensures { result ≡ bytes.is_digit byte }
{
    byte.is_ascii_digit()
}

/// Whether a byte may be in a name.
fn is_of_name(byte: u8) -> bool
    ensures { result ≡ bytes.is_of_name byte }
{
    byte.is_ascii_alphanumeric() || byte == b'_'
}

/// Whether all bytes may be in a name.
fn are_of_name(text: &[u8]) -> bool
    ensures { result ≡ list_all bytes.is_of_name text.now }
{
    text.iter().all(|byte| is_of_name(*byte))
}

/// A number of 1 to `MOST_DIGITS` decimal digits, of at most `most`; nothing if the text is none.
pub fn number(text: &[u8], most: u64) -> Option<u64>
    ensures { result ≡ number_of most text.now }
{
    if text.is_empty() || text.len() > MOST_DIGITS {
        return None;
    }
    let mut value: u128 = 0;
    for digit in text {
        if !is_digit(*digit) {
            return None;
        }
        value = value * 10 + u128::from(*digit - b'0');
    }
    u64::try_from(value).ok().filter(|value| *value <= most)
}

/// A name of 1 to `LONGEST` letters, digits and `_`; nothing if the text is none.
pub fn name<const LONGEST: usize>(text: &[u8]) -> Option<ArrayVec<u8, LONGEST>>
    ensures { option_map name_text result ≡ name_of LONGEST text.now }
{
    if text.is_empty() || !are_of_name(text) {
        return None;
    }
    ArrayVec::try_from(text).ok()
}

/// Whether two words are the same. Words are short: a loop takes less time than `==` takes to begin.
pub fn is_same_word(one: &[u8], other: &[u8]) -> bool
    ensures { result ≡ true ↔ one.now ≡ other.now }
{
    if one.len() != other.len() {
        return false;
    }
    for i in 0..one.len() {
        if one[i] != other[i] {
            return false;
        }
    }
    true
}
