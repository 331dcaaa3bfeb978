//! Cells before they are set.
ghost use Rattle.std.specs.Prelude.{◌≡◌, ◌<◌, Some, None, IfOk, length};
ghost use Rattle.std.specs.Arc.{arc_value};
ghost use Rattle.strm_shared_once.specs.declared.cells.TheConstants.{AT_ONCE};
ghost use Rattle.strm_shared_once.specs.Held.{IsSharedBy};

use crate::held::{Held, held_twice};
use once_cell::race::OnceBox;
use std::alloc::{AllocError, Global};
use std::sync::Arc;

/// The number of cells that are made at once.
const AT_ONCE: u8 = 64;

/// Cells that are made in one block, so that each costs little. The block is freed once nobody holds one of
/// them.
pub(crate) type Block<T> = Arc<Vec<OnceBox<T>>>;

/// A source of cells. It makes them in blocks.
#[derive(Drop)]
pub struct Cells<T> {
    block: Block<T>,
    next: u8,
    ghost many: { length (arc_value block).items ≡ AT_ONCE },
}

/// A cell that is not set yet, and room for its two holders.
#[derive(Drop)]
pub struct Cell<T> {
    one: Block<T>,
    other: Block<T>,
    at: u8,
    ghost same: { arc_value one ≡ arc_value other },
    ghost there: { at < length (arc_value one).items },
}

/// A block of `AT_ONCE` cells. Fails only when memory runs out.
fn block<T: Drop>(alloc: Global) -> Result<Block<T>, AllocError>
    ensures { IfOk result (λ block. length (arc_value block).items ≡ AT_ONCE) }
{
    let mut cells = Vec::with_capacity(alloc, usize::from(AT_ONCE))?;
    for _ in 0..AT_ONCE {
        cells.push(OnceBox::new(alloc))?;
    }
    Ok(Arc::new(alloc, cells)?)
}

impl<T: Drop> Cells<T> {
    /// A source of cells. Fails only when memory runs out.
    pub fn new(alloc: Global) -> Result<Cells<T>, AllocError> {
        Ok(Cells {
            block: block(alloc)?,
            next: 0,
        })
    }

    /// A cell that was given to nobody before. Fails only when memory runs out.
    pub fn next(&mut self, alloc: Global) -> Result<Cell<T>, AllocError> {
        if self.next >= AT_ONCE {
            *self = Cells {
                block: block(alloc)?,
                next: 0,
            };
        }
        let at = self.next;
        let one = Arc::try_clone(&self.block)?;
        let other = Arc::try_clone(&self.block)?;
        self.next += 1;
        Ok(Cell { one, other, at })
    }
}

impl<T: Drop> Cell<T> {
    /// Sets the cell with this value, and returns its two holders, both with this owner. Takes no memory. If
    /// the cell does not take the value, there is one holder, which has the value alone.
    pub fn set(self, owner: u32, value: Box<T>) -> (Held<T>, Option<Held<T>>)
        ensures value { result.0.value ≡ value.value }
        ensures shared { IsSharedBy owner result.0 result.1 }
    {
        let Cell { one, other, at } = self;
        match held_twice(one, other, at, owner, value) {
            Ok((held, again)) => (held, Some(again)),
            Err(value) => (Held::alone(value), None),
        }
    }
}
