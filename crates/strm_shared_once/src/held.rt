//! The holders of a value.
ghost use Rattle.std.specs.Prelude.{◌≡◌, ◌<◌, length, Some, None, IsSome, IfOk, IfErr};
ghost use Rattle.std.specs.Arc.{arc_value};
ghost use Rattle.strm_shared_once.specs.Held.{IsNoteOf, owned_value};

use crate::again::retold;
use crate::cells::Block;
use crate::known::Known;
use once_cell::race::Note;
use std::marker::Model;

/// The place of a value that is held. The small fields are first, so that it has two words.
pub(crate) enum Place<T> {
    /// In this cell of a block, which another holds too. The owner is next to it.
    InCell {
        at: u8,
        owner: u32,
        block: Block<T>,
        known: Known<T>,
    },
    /// In a box of its own.
    Alone(Box<T>),
}

/// A holder of a value, in two words. Either the value is in a cell that another holds too, with the owner
/// that was given when it was set; or this holder has it alone. A contract sees the owner, if there is one,
/// and the value.
///
/// A holder can be moved to another thread, but not be shared by several: it has a note of its cell, which
/// knows the value.
pub struct Held<T> {
    place: Place<T>,
}

impl<T> Model for Held<T> {
    ghost use Rattle.strm_shared_once.specs.Held.{HeldValue, IsOfCell, owner_of, value_of};

    ghost Value = { HeldValue T };

    ghost view = { λ h. record { owner = owner_of h.place; value = value_of h.place } };

    ghost invariant = { λ h. IsOfCell h.place };
}

impl<T: Drop> Drop for Place<T> {
    fn drop(self) {
        match self {
            Place::InCell {
                at: _,
                owner: _,
                block,
                known,
            } => {
                drop(block);
                drop(known);
            }
            Place::Alone(value) => drop(value),
        }
    }
}

impl<T: Drop> Drop for Held<T> {
    fn drop(self) {
        let Held { place } = self;
        drop(place);
    }
}

impl<T> Held<T> {
    /// A holder that has a value alone. Takes no memory.
    pub fn alone(value: Box<T>) -> Held<T>
        ensures { result ≡ record { owner = None; value = value.value } }
    {
        Held {
            place: Place::Alone(value),
        }
    }

    /// The owner that was given when the value was set into a cell; `None` if it is held alone. Does not look
    /// at the value.
    pub fn owner(&self) -> Option<u32>
        ensures { result ≡ self.now.owner }
    {
        match &self.place {
            Place::InCell { owner, .. } => Some(*owner),
            Place::Alone(_) => None,
        }
    }

    /// The value. Takes no memory, and waits for nobody.
    pub fn get(&self) -> &T
        ensures { result.now ≡ self.now.value }
    {
        match &self.place {
            Place::InCell {
                at,
                block,
                known,
                ..
            } => {
                let cell = &block[usize::from(*at)];
                let mut note = retold(&known.note, cell.note());
                match cell.get_as(&mut note) {
                    Some(value) => value,
                    None => unreachable!(),
                }
            }
            Place::Alone(value) => value,
        }
    }
}

/// Sets the cell at this index of the block that two holders share, and returns both. The box comes back if
/// the cell was set before.
pub(crate) fn held_twice<T: Drop>(
    one: Block<T>,
    other: Block<T>,
    at: u8,
    owner: u32,
    value: Box<T>,
) -> Result<(Held<T>, Held<T>), Box<T>>
    requires same { arc_value one ≡ arc_value other }
    requires there { at < length (arc_value one).items }
    ensures ok { IfOk result (λ both. (both.0 ≡ owned_value owner value.value) × (both.1 ≡ owned_value owner value.value)) }
    ensures err { IfErr result (λ same. same.value ≡ value.value) }
{
    let cell = &one[usize::from(at)];
    let mut note = cell.note();
    match cell.set_as(value, &mut note) {
        Ok(()) => {
            let again = note.again();
            Ok((
                in_cell(one, at, owner, note),
                in_cell(other, at, owner, again),
            ))
        }
        Err(value) => Err(value),
    }
}

/// A holder of the value of this cell, by a note of it that knows the value.
fn in_cell<T>(block: Block<T>, at: u8, owner: u32, note: Note<T>) -> Held<T>
    requires of { IsNoteOf (arc_value block).items at note }
    requires full { IsSome note.known }
    ensures { (result.owner ≡ Some owner) × (Some result.value ≡ note.known) }
{
    Held {
        place: Place::InCell {
            at,
            owner,
            block,
            known: Known::new(note),
        },
    }
}
