//! Objects for the built-in kinds. Each acts by its shape and keeps nothing.
ghost use Rattle.std.specs.Prelude.{◌≡◌, [], is_ok, is_none, IfOk, IfErr, Some};
ghost use Rattle.strm_module.specs.declared.kind.Kind.TheVariants as Kind;
ghost use Rattle.strm_module.specs.Shape.{make_fault, split_fault, new_shape};

use std::alloc::Global;
use strm_module::{Instance, Kind as Kinds, MOST_SPLIT, MakeFault, Module, Shape};
use strm_msg::Bytes;

/// Sends each message on unchanged.
#[derive(Debug, Drop)]
pub struct Pass;

impl Pass {
    /// A new module of this serial and name, with a queue on each side for which a high and a low
    /// mark are given, in bytes. Takes no memory.
    ///
    /// Refused for the name first, then for the marks of either side.
    pub fn new(
        serial: u64,
        name: &[u8],
        rd: Option<(u32, u32)>,
        wr: Option<(u32, u32)>,
    ) -> Result<Instance<Pass>, MakeFault>
        ensures ok { IfOk result (λ it. it ≡ new_shape serial name.now rd wr Kind.Pass) }
        ensures err { IfErr result (λ fault. make_fault name.now rd wr ≡ Some fault) }
        ensures variant { is_ok result ≡ is_none (make_fault name.now rd wr) }
    {
        let shape = Shape::new(serial, name, rd, wr, Kinds::Pass)?;
        Ok(Instance::new(shape, Pass))
    }
}

impl Module for Pass {}

/// Maps data on its way down byte by byte.
#[derive(Debug, Drop)]
pub struct Table;

impl Table {
    /// A new module of this serial and name, with a queue on each side for which a high and a low mark are
    /// given, in bytes. `map` has the byte that stands for each byte. Takes no memory.
    ///
    /// Refused for the name first, then for the marks of either side.
    pub fn new(
        serial: u64,
        name: &[u8],
        rd: Option<(u32, u32)>,
        wr: Option<(u32, u32)>,
        map: [u8; 256],
    ) -> Result<Instance<Table>, MakeFault>
        ensures ok { IfOk result (λ it. it ≡ new_shape serial name.now rd wr (Kind.Table map)) }
        ensures err { IfErr result (λ fault. make_fault name.now rd wr ≡ Some fault) }
        ensures variant { is_ok result ≡ is_none (make_fault name.now rd wr) }
    {
        let shape = Shape::new(serial, name, rd, wr, Kinds::Table { map })?;
        Ok(Instance::new(shape, Table))
    }
}

impl Module for Table {}

/// Turns LF into CR LF in data on its way down, and CR LF into LF in data on its way up.
#[derive(Debug, Drop)]
pub struct CrNl;

impl CrNl {
    /// A new module of this serial and name, with a queue on each side for which a high and a low
    /// mark are given, in bytes. Takes no memory.
    ///
    /// Refused for the name first, then for the marks of either side.
    pub fn new(
        serial: u64,
        name: &[u8],
        rd: Option<(u32, u32)>,
        wr: Option<(u32, u32)>,
    ) -> Result<Instance<CrNl>, MakeFault>
        ensures ok { IfOk result (λ it. it ≡ new_shape serial name.now rd wr Kind.CrNl) }
        ensures err { IfErr result (λ fault. make_fault name.now rd wr ≡ Some fault) }
        ensures variant { is_ok result ≡ is_none (make_fault name.now rd wr) }
    {
        let shape = Shape::new(serial, name, rd, wr, Kinds::CrNl)?;
        Ok(Instance::new(shape, CrNl))
    }
}

impl Module for CrNl {}

/// Gathers data on its way up into whole lines.
#[derive(Debug, Drop)]
pub struct Line;

impl Line {
    /// A new module of this serial and name, with a queue on each side for which a high and a low
    /// mark are given, in bytes. No line has begun, so `alloc` is only noted. Takes no memory.
    ///
    /// Refused for the name first, then for the marks of either side.
    pub fn new(
        alloc: Global,
        serial: u64,
        name: &[u8],
        rd: Option<(u32, u32)>,
        wr: Option<(u32, u32)>,
    ) -> Result<Instance<Line>, MakeFault>
        ensures ok { IfOk result (λ it. it ≡ new_shape serial name.now rd wr (Kind.Line [])) }
        ensures err { IfErr result (λ fault. make_fault name.now rd wr ≡ Some fault) }
        ensures variant { is_ok result ≡ is_none (make_fault name.now rd wr) }
    {
        let partial = Bytes::empty();
        let shape = Shape::new(serial, name, rd, wr, Kinds::Line { partial })?;
        Ok(Instance::new(shape, Line))
    }
}

impl Module for Line {}

/// Counts data messages on their way down.
#[derive(Debug, Drop)]
pub struct Count;

impl Count {
    /// A new module of this serial and name, with a queue on each side for which a high and a low
    /// mark are given, in bytes. Its count is 0. Takes no memory.
    ///
    /// Refused for the name first, then for the marks of either side.
    pub fn new(
        serial: u64,
        name: &[u8],
        rd: Option<(u32, u32)>,
        wr: Option<(u32, u32)>,
    ) -> Result<Instance<Count>, MakeFault>
        ensures ok { IfOk result (λ it. it ≡ new_shape serial name.now rd wr (Kind.Count 0)) }
        ensures err { IfErr result (λ fault. make_fault name.now rd wr ≡ Some fault) }
        ensures variant { is_ok result ≡ is_none (make_fault name.now rd wr) }
    {
        let shape = Shape::new(serial, name, rd, wr, Kinds::Count { n: 0 })?;
        Ok(Instance::new(shape, Count))
    }
}

impl Module for Count {}

/// Puts data and protocol messages on their way down into a band.
#[derive(Debug, Drop)]
pub struct Band;

impl Band {
    /// A new module of this serial and name, with a queue on each side for which a high and a low
    /// mark are given, in bytes. `b` is the band that it gives. Takes no memory.
    ///
    /// Refused for the name first, then for the marks of either side.
    pub fn new(
        serial: u64,
        name: &[u8],
        rd: Option<(u32, u32)>,
        wr: Option<(u32, u32)>,
        b: u8,
    ) -> Result<Instance<Band>, MakeFault>
        ensures ok { IfOk result (λ it. it ≡ new_shape serial name.now rd wr (Kind.Band b)) }
        ensures err { IfErr result (λ fault. make_fault name.now rd wr ≡ Some fault) }
        ensures variant { is_ok result ≡ is_none (make_fault name.now rd wr) }
    {
        let shape = Shape::new(serial, name, rd, wr, Kinds::Band { b })?;
        Ok(Instance::new(shape, Band))
    }
}

impl Module for Band {}

/// Sends a copy of data on its way down up too.
#[derive(Debug, Drop)]
pub struct Tee;

impl Tee {
    /// A new module of this serial and name, with a queue on each side for which a high and a low
    /// mark are given, in bytes. Takes no memory.
    ///
    /// Refused for the name first, then for the marks of either side.
    pub fn new(
        serial: u64,
        name: &[u8],
        rd: Option<(u32, u32)>,
        wr: Option<(u32, u32)>,
    ) -> Result<Instance<Tee>, MakeFault>
        ensures ok { IfOk result (λ it. it ≡ new_shape serial name.now rd wr Kind.Tee) }
        ensures err { IfErr result (λ fault. make_fault name.now rd wr ≡ Some fault) }
        ensures variant { is_ok result ≡ is_none (make_fault name.now rd wr) }
    {
        let shape = Shape::new(serial, name, rd, wr, Kinds::Tee)?;
        Ok(Instance::new(shape, Tee))
    }
}

impl Module for Tee {}

/// Drops data on its way down.
#[derive(Debug, Drop)]
pub struct Mute;

impl Mute {
    /// A new module of this serial and name, with a queue on each side for which a high and a low
    /// mark are given, in bytes. Takes no memory.
    ///
    /// Refused for the name first, then for the marks of either side.
    pub fn new(
        serial: u64,
        name: &[u8],
        rd: Option<(u32, u32)>,
        wr: Option<(u32, u32)>,
    ) -> Result<Instance<Mute>, MakeFault>
        ensures ok { IfOk result (λ it. it ≡ new_shape serial name.now rd wr Kind.Mute) }
        ensures err { IfErr result (λ fault. make_fault name.now rd wr ≡ Some fault) }
        ensures variant { is_ok result ≡ is_none (make_fault name.now rd wr) }
    {
        let shape = Shape::new(serial, name, rd, wr, Kinds::Mute)?;
        Ok(Instance::new(shape, Mute))
    }
}

impl Module for Mute {}

/// Sends data of more bytes on its way down on in two messages.
#[derive(Debug, Drop)]
pub struct Split;

impl Split {
    /// A new module of this serial and name, with a queue on each side for which a high and a low mark are
    /// given, in bytes. `n` is the number of bytes of a message that go first, 1 to `MOST_SPLIT`. Takes no
    /// memory.
    ///
    /// Refused for the name first, then for the marks of either side, then for `n`.
    pub fn new(
        serial: u64,
        name: &[u8],
        rd: Option<(u32, u32)>,
        wr: Option<(u32, u32)>,
        n: u16,
    ) -> Result<Instance<Split>, MakeFault>
        ensures ok { IfOk result (λ it. it ≡ new_shape serial name.now rd wr (Kind.Split n)) }
        ensures err { IfErr result (λ fault. split_fault name.now rd wr n ≡ Some fault) }
        ensures variant { is_ok result ≡ is_none (split_fault name.now rd wr n) }
    {
        let shape = Shape::new(serial, name, rd, wr, Kinds::Split { n })?;
        if n == 0 || n > MOST_SPLIT {
            return Err(MakeFault::Split);
        }
        Ok(Instance::new(shape, Split))
    }
}

impl Module for Split {}
