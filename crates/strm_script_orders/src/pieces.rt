//! The pieces of a text between bytes of one value.
ghost use Rattle.std.specs.Prelude.{◌≡◌, ◌∷◌, [], nat_eq, MatchOption};
ghost use Rattle.std.specs.List.{slice_split};
ghost use Rattle.strm_script_orders.specs.Spelt.{words_in};

use std::marker::Model;
use strm_script_text::split_once;

/// The pieces of a text that are left. A contract sees their list.
#[derive(Drop)]
pub(crate) struct Pieces<'a> {
    left: Option<&'a [u8]>,
    end: u8,
}

impl<'a> Model for Pieces<'a> {
    ghost use Rattle.std.specs.Prelude.{List, ℕ};
    ghost use Rattle.strm_script_orders.specs.Difference.{pieces_left};

    ghost Value = { List (List ℕ) };

    ghost view = { λ pieces. pieces_left pieces.end pieces.left };
}

impl<'a> Pieces<'a> {
    /// The pieces of a text, which this byte ends, and what stands behind the last of these, if only nothing.
    pub(crate) fn of(text: &'a [u8], end: u8) -> Pieces<'a>
        ensures { result ≡ slice_split (λ byte. nat_eq byte end) text.now }
    {
        Pieces {
            left: Some(text),
            end,
        }
    }

    /// The words of a text, with a comma between two; none if it is empty.
    pub(crate) fn of_words(text: &'a [u8]) -> Pieces<'a>
        ensures { result ≡ words_in text.now }
    {
        let left = if text.is_empty() { None } else { Some(text) };
        Pieces { left, end: b',' }
    }

    /// Takes off the next piece, if there is one.
    pub(crate) fn next(&mut self) -> Option<&'a [u8]>
        ensures { MatchOption result ((self.old ≡ []) × (self.new ≡ []))
            (λ piece. self.old ≡ piece.now ∷ self.new) }
    {
        let Some(text) = self.left else {
            return None;
        };
        match split_once(text, self.end) {
            Some((piece, rest)) => {
                self.left = Some(rest);
                Some(piece)
            }
            None => {
                self.left = None;
                Some(text)
            }
        }
    }
}
