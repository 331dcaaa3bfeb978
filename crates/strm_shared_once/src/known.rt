//! Notes that know the value of their cell.
ghost use Rattle.std.specs.Prelude.{◌≡◌, IsSome};

use once_cell::race::Note;

/// A note of a cell that knows its value. It takes no bytes.
pub(crate) struct Known<T> {
    pub(crate) note: Note<T>,
    ghost full: { IsSome note.known },
}

impl<T> Known<T> {
    /// A note of a cell whose value is known.
    pub(crate) fn new(note: Note<T>) -> Known<T>
        requires { IsSome note.known }
        ensures { result.note ≡ note }
    {
        Known { note }
    }
}

impl<T: Drop> Drop for Known<T> {
    fn drop(self) {
        let Known { note } = self;
        drop(note);
    }
}
