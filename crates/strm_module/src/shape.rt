//! The shape of a module: its name, its queues, its kind and the state of that.
ghost use Rattle.std.specs.Prelude.{◌≡◌, is_some, is_ok, is_none, IfSome, IfOk, IfErr, Some};
ghost use Rattle.std.specs.Fmt.{padded};
ghost use Rattle.std.specs.List.{list_all};
ghost use Rattle.strm_module.specs.Shape.{queues_on, is_name_byte, is_name, are_marks, marks_of, make_fault, make_fault_number, make_fault_text, new_shape, noenabled};

use crate::kind::Kind;
use crate::vocabulary::Kinds;
use arrayvec::ArrayVec;
use std::alloc::Global;
use std::fmt;
use strm_msg::{Marks, NoMem, Side};
use thiserror::Error;

/// The longest name of a module, in bytes.
pub const LONGEST_NAME: usize = 8;

/// A module as others see it: its name, its queues, its kind and its state (module_info(9S)).
///
/// It is plain data. `Shape::new` judges the name and the marks. Written out by its fields a shape may also
/// have a name that `Shape::new` refuses, or a partial line longer than any that is kept. A module of that
/// shape still acts by the meaning of its kind.
#[derive(Debug, Drop, PartialEq, Eq)]
pub struct Shape<K = Kind> {
    /// The number of this module among those of a program, which chooses it.
    pub serial: u64,
    /// 1 to 8 letters, digits and `_`, where `Shape::new` made it.
    pub name: ArrayVec<u8, LONGEST_NAME>,
    /// The water marks of the read queue, in bytes, where ordinary messages of that side wait.
    pub rd: Option<Marks>,
    /// The water marks of the write queue, in bytes, where ordinary messages of that side wait.
    pub wr: Option<Marks>,
    /// Whether the service procedures of both queues are the program's (noenable(9F)), for good. Then all
    /// messages wait, high ones too, and no service of the stream takes them.
    pub noenable: bool,
    /// The kind of the module, with the state that it keeps.
    pub kind: K,
}

/// The reason for which a module was not made.
#[derive(Clone, Copy, Debug, PartialEq, Eq, Error)]
pub enum MakeFault {
    /// The name is not of 1 to 8 letters, digits and `_`. It is looked at before the marks.
    Name,
    /// The low mark of a side is not below the high one.
    Marks,
    /// A module that splits lets through no byte at once, or more than `MOST_SPLIT`. It is looked at last.
    Split,
}

impl MakeFault {
    /// The number of the fault: 1 for a name, 2 for marks, 3 for a split.
    pub fn number(self) -> u8
        ensures { result ≡ make_fault_number self }
    {
        match self {
            MakeFault::Name => 1,
            MakeFault::Marks => 2,
            MakeFault::Split => 3,
        }
    }

    /// The requirement that was not met.
    fn text(self) -> &'static str
        ensures { result.now ≡ make_fault_text self }
    {
        match self {
            MakeFault::Name => "a module's name must be 1 to 8 letters, digits or `_`",
            MakeFault::Marks => "the low mark of a queue must be below its high mark",
            MakeFault::Split => "a module that splits must let through 1 to 4096 bytes at once",
        }
    }
}

/// Printed as the requirement on a name, on marks or on a number of bytes.
impl fmt::Display for MakeFault {
    ghost output = { λ fault. Some (make_fault_text fault) };

    ghost styled_output = { λ fault spec. Some (padded spec (make_fault_text fault)) };

    fn fmt<W: fmt::Write>(&self, f: &mut fmt::Formatter<W>) -> fmt::Result {
        f.pad(self.text())
    }
}

/// Whether a byte may be in a name.
fn is_name_byte(b: u8) -> bool
    ensures { result ≡ is_name_byte b }
{
    b.is_ascii_alphanumeric() || b == b'_'
}

/// Whether each byte may be in a name.
fn are_name_bytes(bytes: &[u8]) -> bool
    ensures { result ≡ list_all is_name_byte bytes.now }
{
    bytes.iter().all(|b| is_name_byte(*b))
}

/// A name of these bytes, if they make one.
fn name_of(bytes: &[u8]) -> Option<ArrayVec<u8, LONGEST_NAME>>
    ensures some { IfSome result (λ name. name.items ≡ bytes.now) }
    ensures variant { is_some result ≡ is_name bytes.now }
{
    if bytes.is_empty() || !are_name_bytes(bytes) {
        return None;
    }
    ArrayVec::try_from(bytes).ok()
}

/// The marks of a side, from the high one and the low one.
fn marks_of(pair: Option<(u32, u32)>) -> Result<Option<Marks>, MakeFault>
    ensures ok { IfOk result (λ marks. marks ≡ marks_of pair) }
    ensures err { IfErr result (λ fault. fault ≡ MakeFault.Marks) }
    ensures variant { is_ok result ≡ are_marks pair }
{
    match pair {
        Some((hi, lo)) => match Marks::new(hi, lo) {
            Some(marks) => Ok(Some(marks)),
            None => Err(MakeFault::Marks),
        },
        None => Ok(None),
    }
}

impl<K: Kinds> Shape<K> {
    /// The shape of a new module, where `rd` and `wr` are the high and the low mark of each side
    /// that queues, in bytes. Takes no memory.
    ///
    /// Refused for the name first, then for the marks of either side.
    pub fn new(
        serial: u64,
        name: &[u8],
        rd: Option<(u32, u32)>,
        wr: Option<(u32, u32)>,
        kind: K,
    ) -> Result<Self, MakeFault>
        ensures ok { IfOk result (λ shape. shape ≡ new_shape serial name.now rd wr kind) }
        ensures err { IfErr result (λ fault. make_fault name.now rd wr ≡ Some fault) }
        ensures variant { is_ok result ≡ is_none (make_fault name.now rd wr) }
    {
        let Some(name) = name_of(name) else {
            return Err(MakeFault::Name);
        };
        let rd = marks_of(rd)?;
        let wr = marks_of(wr)?;
        Ok(Shape {
            serial,
            name,
            rd,
            wr,
            noenable: false,
            kind,
        })
    }

    /// The same shape, with the service procedures of its queues left to the program (noenable(9F)).
    pub fn noenabled(self) -> Self
        ensures { result ≡ noenabled self }
    {
        let mut shape = self;
        shape.noenable = true;
        shape
    }

    /// An equal shape. Fails only when memory runs out.
    pub fn copy(&self, alloc: Global) -> Result<Self, NoMem>
        ensures { IfOk result (λ copy. copy ≡ self.now) }
    {
        Ok(Shape {
            serial: self.serial,
            name: self.name.clone()?,
            rd: self.rd,
            wr: self.wr,
            noenable: self.noenable,
            kind: self.kind.copy(alloc)?,
        })
    }

    /// Whether the module has a queue on a side, which it has exactly where it has marks for that side.
    pub fn queues(&self, side: Side) -> bool
        ensures { result ≡ queues_on self.now side }
    {
        match side {
            Side::Rd => self.rd.is_some(),
            Side::Wr => self.wr.is_some(),
        }
    }
}
