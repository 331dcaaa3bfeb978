//! One or two ends over a driver.
ghost use Rattle.std.specs.Prelude.{◌≡◌, ◌≤◌, IfOk, true};
ghost use Rattle.strm_chain_end.specs.Modules.{IsFitEnd, HoldsCalm};
ghost use Rattle.strm_chain_ends.specs.Image.{end_of, count_of, room_of, fresh};
ghost use Rattle.strm_chain_ends.specs.Order.{comes_back, goes_round};

use std::alloc::Global;
use std::marker::Model;
use strm_chain_end::StreamEnd;
use strm_module::{Driver, MOST_MODULES, ModuleOf, Shape};
use strm_msg::{End, Marks, NoMem, Side};

mod flow;
mod lent;
mod message;

/// The queues of a stream, with its modules and the records of its heads.
///
/// A contract sees its image: the driver, whether the stream is broken, and the state of each end. That is
/// whether the end is open, the lists of its head and its driver with their marks, its record, and its
/// modules, each as its shape with two lists. An end that the driver lacks is a closed one without modules
/// and messages. In addition to the image it sees the room of the heads' lists and of a line's.
#[derive(Drop)]
pub struct Ends<M: ModuleOf> {
    alloc: Global,
    driver: Driver,
    broken: bool,
    a: StreamEnd<M>,
    b: StreamEnd<M>,
}

impl<M: ModuleOf> Model for Ends<M> {
    ghost use Rattle.strm_chain_ends.specs.Image.{EndsValue, at_input};

    ghost Value = { EndsValue M.Kind };

    ghost view = { λ c. record { image = record { driver = c.driver; broken = c.broken; a = c.a.state; b = c.b.state }; rooms = record { a = c.a.head_room; b = c.b.head_room; line = at_input c.driver c.a.drv_room c.b.drv_room } } };
}

impl<M: ModuleOf> Ends<M> {
    /// Ends without modules, open where the driver has them. Fails only when memory runs out.
    pub fn new(alloc: Global, driver: Driver, head: Marks, drv: Marks) -> Result<Ends<M>, NoMem>
        ensures { IfOk result (λ c. c.image ≡ fresh driver head drv) }
    {
        let a = StreamEnd::new(alloc, head, drv, driver.has_end(End::A))?;
        let b = StreamEnd::new(alloc, head, drv, driver.has_end(End::B))?;
        Ok(Ends {
            alloc,
            driver,
            broken: false,
            a,
            b,
        })
    }

    /// The allocator of the stream.
    pub fn alloc(&self) -> Global {
        self.alloc
    }

    /// The driver at the bottom.
    pub fn driver(&self) -> Driver
        ensures { result ≡ self.now.image.driver }
    {
        self.driver
    }

    /// Whether memory ran out after a change. Such a stream neither delivers nor serves.
    pub fn is_broken(&self) -> bool
        ensures { result ≡ self.now.image.broken }
    {
        self.broken
    }

    /// Breaks the stream, where memory ran out after a change. The rest stays as it is.
    pub fn break_off(&mut self)
        ensures { self.new ≡ record self.old { image = record self.old.image { broken = true } } }
    {
        self.broken = true;
    }

    /// The state of one end.
    pub fn end(&self, end: End) -> &StreamEnd<M>
        ensures state { result.now.state ≡ end_of self.now.image end }
        ensures room { result.now.head_room ≡ room_of self.now.rooms end }
    {
        match end {
            End::A => &self.a,
            End::B => &self.b,
        }
    }

    /// The number of modules of an end. Each low mark at the end is below its high one, and no high
    /// message waits below the head.
    pub fn count(&self, end: End) -> usize
        ensures value { result ≡ count_of self.now.image end }
        ensures few { result ≤ MOST_MODULES }
        ensures fit { IsFitEnd (end_of self.now.image end) }
        ensures ordinary { HoldsCalm (end_of self.now.image end) }
    {
        self.end(end).count()
    }

    /// Whether the driver brings messages that go down an end up there again: an echo does, and a loop at
    /// whose other end a module answers messages that come up.
    fn comes_back(&self, end: End) -> bool
        ensures { result ≡ comes_back M.Kind.means self.now.image.driver self.now.image end }
    {
        match (self.driver, end) {
            (Driver::Echo, _) => true,
            (Driver::Loop, End::A) => self.b.answers(Side::Rd),
            (Driver::Loop, End::B) => self.a.answers(Side::Rd),
            (Driver::Line | Driver::Wire, _) => false,
        }
    }

    /// Whether messages could go round a circle, answered again and again, with a module of this shape just
    /// below the head (I_PUSH). The module answers messages that come up. One below it answers messages that
    /// go down, or the driver is an echo, or it is a loop at whose other end a module answers messages that
    /// come up too.
    pub fn goes_round(&self, end: End, shape: &Shape<M::Kind>) -> bool
        ensures { result ≡ goes_round M.Kind.means self.now.image end shape.now }
    {
        shape.answers(Side::Rd) && (self.comes_back(end) || self.end(end).answers(Side::Wr))
    }
}
